// The byte by the set's own ROMs for C and Rust, on one count: by a report handed back.
#![tactic(auto)]

ghost use Rattle.std.specs.Prelude.{◌≡◌};
ghost use Rattle.c_board.specs.Value.{value_after};
ghost use Rattle.c_own.specs.Code.{own_on_count};

use c_report::OneromReport;

// Of the report no more is handed on than the read takes, so that it is not copied once more.
pub fn own_byte_on_count(
    image: &[u8],
    flash_base: u32,
    cs0_base: u32,
    report: OneromReport,
    set_rows: &[u32],
    rom_rows: &[u32],
    set: u32,
    address: u32,
    levels: &[u8; 5],
    count: &mut u32,
    value: &mut u8,
) -> u32
    ensures reply { result ≡ (own_on_count flash_base cs0_base report set_rows.now rom_rows.now set address levels.now count.old image.now).number }
    ensures count { count.new ≡ (own_on_count flash_base cs0_base report set_rows.now rom_rows.now set address levels.now count.old image.now).count }
    ensures value { value.new ≡ value_after result (own_on_count flash_base cs0_base report set_rows.now rom_rows.now set address levels.now count.old image.now).byte value.old }
{
    let header = report.header;
    let line = c_handed::line_in(header.line);
    let rom_sets = report.rom_sets;
    let served = rom_sets.served;
    let held = report.pins;
    let pins = c_handed::pins_in(held);
    let cs_set = c_board::levels_from(*levels);
    let m = info::mangle_own(pins, served, set_rows, rom_rows, set, address, cs_set);
    let before = *count;
    let raw = byte_reads::byte_at(
        image, flash_base, cs0_base, line, served, set_rows, set, m, before,
    );
    let data = held.data;
    let shown = own_reads::shown_own(data, raw, before);
    c_byte::give(shown, count, value)
}
