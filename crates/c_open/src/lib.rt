// The opening as C and Rust call it: the report by value.
#![tactic(auto)]

ghost use Rattle.std.specs.Prelude.{◌≡◌};
ghost use Rattle.fw_parser.specs.Opening.{set_rows_left, rom_rows_left};
ghost use Rattle.c_open.specs.Opening.{open_call, opening_out};

use c_report::OneromReport;
use window::Settings;

// 0 and the report, or the number of the refusal and a fixed report: zeros, but extra info's PIO flag and runtime pointer as where it is refused.
#[repr(C)]
#[derive(Clone, Copy)]
pub struct OneromOpening {
    pub number: u32,
    pub report: OneromReport,
}

pub fn open_call(
    image: &[u8],
    flash_base: u32,
    cs0_base: u32,
    info_offset: u32,
    set_rows: &mut [u32],
    rom_rows: &mut [u32],
) -> OneromOpening
    ensures reply { result ≡ opening_out (open_call flash_base cs0_base info_offset set_rows.old rom_rows.old image.now) }
    ensures sets { set_rows.new ≡ set_rows_left (open_call flash_base cs0_base info_offset set_rows.old rom_rows.old image.now) set_rows.old }
    ensures roms { rom_rows.new ≡ rom_rows_left (open_call flash_base cs0_base info_offset set_rows.old rom_rows.old image.now) rom_rows.old }
{
    let settings = Settings {
        flash_base,
        cs0_base,
        info_offset,
    };
    let o = fw_parser::parse_flash(image, settings, set_rows, rom_rows);
    let info = o.info;
    let report = c_report::report_out(info);
    OneromOpening {
        number: o.number as u32,
        report,
    }
}
