// ROM data and the byte reads for C and Rust, on one count: by a report handed back.
#![tactic(auto)]

ghost use Rattle.std.specs.Prelude.{◌≡◌, true, false, Result, Ok, length};
ghost use Rattle.info.specs.Reads.{buffer_left};
ghost use Rattle.c_board.specs.Value.{value_after};
ghost use Rattle.c_reads.specs.Code.{data_on_count, byte_on_count};

use c_report::OneromReport;
use refusal::Refusal;

#[tactic(auto, unfolding(crate::specs::Code::data_on_count, c_handed::specs::Handed::board_in))]
pub fn data_on_count(
    image: &[u8],
    flash_base: u32,
    cs0_base: u32,
    report: OneromReport,
    set_rows: &[u32],
    set: u32,
    offset: u32,
    buffer: &mut [u8],
    count: &mut u32,
) -> u32
    ensures reply { result ≡ (data_on_count flash_base cs0_base report set_rows.now set offset (length buffer.old) count.old image.now).number }
    ensures buffer { buffer.new ≡ buffer_left (data_on_count flash_base cs0_base report set_rows.now set offset (length buffer.old) count.old image.now) buffer.old }
    ensures count { count.new ≡ (data_on_count flash_base cs0_base report set_rows.now set offset (length buffer.old) count.old image.now).count }
{
    let board = c_handed::board_in(flash_base, cs0_base, report);
    match data_reads::data_on_count(image, board, set_rows, set, offset, buffer, count) {
        Ok(()) => 0,
        Err(refusal) => refusal.number() as u32,
    }
}

// A raw offset, which no pin has a part in.
fn offset(address: u32) -> Result<u32, Refusal>
    ensures { result ≡ Ok address }
{
    Ok(address)
}

// Two functions, not one that is given the flag: the compiler joins each to its only caller, and the report is not copied once more. For the
// same reason a read by a raw offset, which looks at no pin and no ROM row, carries neither.
#[tactic(auto, using(crate::proofs::Calls::by_calls))]
pub fn raw_byte_on_count(
    image: &[u8],
    flash_base: u32,
    cs0_base: u32,
    report: OneromReport,
    set_rows: &[u32],
    rom_rows: &[u32],
    set: u32,
    logical: u8,
    address: u32,
    levels: &[u8; 5],
    count: &mut u32,
    value: &mut u8,
) -> u32
    ensures reply { result ≡ (byte_on_count false flash_base cs0_base report set_rows.now rom_rows.now set logical address levels.now count.old image.now).number }
    ensures count { count.new ≡ (byte_on_count false flash_base cs0_base report set_rows.now rom_rows.now set logical address levels.now count.old image.now).count }
    ensures value { value.new ≡ value_after result (byte_on_count false flash_base cs0_base report set_rows.now rom_rows.now set logical address levels.now count.old image.now).byte value.old }
{
    let header = report.header;
    let line = c_handed::line_in(header.line);
    let rom_sets = report.rom_sets;
    let served = rom_sets.served;
    let held = report.pins;
    let m = if logical == 1 {
        let cs_set = c_board::levels_from(*levels);
        let pins = c_handed::pins_in(held);
        info::mangle_address(pins, served, set_rows, rom_rows, address, cs_set)
    } else {
        offset(address)
    };
    let before = *count;
    let raw = byte_reads::byte_at(
        image, flash_base, cs0_base, line, served, set_rows, set, m, before,
    );
    c_byte::give(raw, count, value)
}

#[tactic(auto, using(crate::proofs::Calls::by_calls))]
pub fn demangled_byte_on_count(
    image: &[u8],
    flash_base: u32,
    cs0_base: u32,
    report: OneromReport,
    set_rows: &[u32],
    rom_rows: &[u32],
    set: u32,
    logical: u8,
    address: u32,
    levels: &[u8; 5],
    count: &mut u32,
    value: &mut u8,
) -> u32
    ensures reply { result ≡ (byte_on_count true flash_base cs0_base report set_rows.now rom_rows.now set logical address levels.now count.old image.now).number }
    ensures count { count.new ≡ (byte_on_count true flash_base cs0_base report set_rows.now rom_rows.now set logical address levels.now count.old image.now).count }
    ensures value { value.new ≡ value_after result (byte_on_count true flash_base cs0_base report set_rows.now rom_rows.now set logical address levels.now count.old image.now).byte value.old }
{
    let header = report.header;
    let line = c_handed::line_in(header.line);
    let rom_sets = report.rom_sets;
    let served = rom_sets.served;
    let held = report.pins;
    let m = if logical == 1 {
        let cs_set = c_board::levels_from(*levels);
        let pins = c_handed::pins_in(held);
        info::mangle_address(pins, served, set_rows, rom_rows, address, cs_set)
    } else {
        offset(address)
    };
    let before = *count;
    let raw = byte_reads::byte_at(
        image, flash_base, cs0_base, line, served, set_rows, set, m, before,
    );
    let data = held.data;
    let shown = byte_reads::shown_byte(held.number, data, raw, before);
    c_byte::give(shown, count, value)
}
