// The opening, exported.
ghost use Rattle.std.specs.Prelude.{◌≡◌};
ghost use Rattle.fw_parser.specs.Opening.{set_rows_left, rom_rows_left};
ghost use Rattle.c_open.specs.Opening.{open_call, opening_out};

use c_open::OneromOpening;

#[unsafe(no_mangle)]
pub extern "C" fn onerom_open(
    image: &[u8],
    flash_base: u32,
    cs0_base: u32,
    info_offset: u32,
    set_rows: &mut [u32],
    rom_rows: &mut [u32],
) -> OneromOpening
    ensures reply { result ≡ opening_out (open_call flash_base cs0_base info_offset set_rows.old rom_rows.old image.now) }
    ensures sets { set_rows.new ≡ set_rows_left (open_call flash_base cs0_base info_offset set_rows.old rom_rows.old image.now) set_rows.old }
    ensures roms { rom_rows.new ≡ rom_rows_left (open_call flash_base cs0_base info_offset set_rows.old rom_rows.old image.now) rom_rows.old }
{
    onerom::opening::onerom_open(image, flash_base, cs0_base, info_offset, set_rows, rom_rows)
}
