// The opening of a board's image (lib.rs `parse_flash`).
#![tactic(auto)]

ghost use Rattle.std.specs.Prelude.{◌≡◌};
ghost use Rattle.refusal.specs.Refusal.{refused_number};
ghost use Rattle.text.specs.Text.{refused_text};
ghost use Rattle.fw_parser.specs.Opening.{open_with, set_rows_left, rom_rows_left};
ghost use Rattle.fw_parser.specs.Reply.{no_report, opening_reply};
ghost use Rattle.records.specs.Code.{records_shown};
ghost use Rattle.fw_parser.specs.Code.{is_short, report_with};

use header::SdrrInfoFields;
use metadata::MetadataItem;
use records::Records;
use refusal::Refusal;
use sdrr_info::SdrrInfo;
use sets_item::SetsItem;
use text::Text;
use window::{Settings, Window};

// 0 and the report, or the number of the refusal and the fixed report of `no_report`.
#[derive(Clone, Copy)]
pub struct Opening {
    pub number: u8,
    pub info: SdrrInfo,
}

fn no_text() -> Text
    ensures { result ≡ refused_text 0 }
{
    Text {
        number: 0,
        offset: 0,
        length: 0,
        width: 0,
    }
}

// The report of a refused opening: zeros, the runtime pointer FFFFFFFF, metadata not looked for.
#[tactic(auto, unfolding(crate::specs::Reply::no_report))]
fn no_report() -> SdrrInfo
    ensures { result ≡ no_report }
{
    SdrrInfo {
        fields: header::no_fields(),
        build_date: no_text(),
        hw_rev: no_text(),
        extra_info: extra_info::refuse(0),
        metadata: MetadataItem::NotLookedFor,
        rom_sets: SetsItem {
            number: 0,
            rom_set_count: 0,
            served: 0,
        },
        pins: pins::refuse(0),
    }
}

// 0, or the number of the walk's refusal.
fn walk_number(walk: Result<u32, Refusal>) -> u8
    ensures { result ≡ refused_number walk }
{
    match walk {
        Ok(_) => 0,
        Err(refusal) => refusal.number(),
    }
}

// 44 and 45, the only numbers of a walk that refuse the opening.
fn is_short(number: u8) -> bool
    ensures { result ≡ is_short number }
{
    base::either(number == 44, number == 45)
}

// The report with that walk.
#[tactic(auto, unfolding(crate::specs::Code::report_with))]
fn report(fields: SdrrInfoFields, records: Records, walk: Result<u32, Refusal>) -> SdrrInfo
    ensures { result ≡ report_with fields (records_shown records) (refused_number walk) }
{
    let build_date = records.build_date;
    let hw_rev = records.hw_rev;
    let extra_info = records.extra_info;
    let source = records.sets;
    let metadata = metadata::metadata_shown(source.metadata);
    let rom_sets = sets_item::sets_item(walk_number(walk), source.rom_set_count());
    let pins = records.pins;
    SdrrInfo {
        fields,
        build_date,
        hw_rev,
        extra_info,
        metadata,
        rom_sets,
        pins,
    }
}

// Refusals change no word of the rows, and the report is then the fixed one. Other refusals than these are items of the report.
pub fn parse_flash(
    image: &[u8],
    settings: Settings,
    set_rows: &mut [u32],
    rom_rows: &mut [u32],
) -> Opening
    ensures reply { result ≡ opening_reply (open_with settings set_rows.old rom_rows.old image.now) }
    ensures sets { set_rows.new ≡ set_rows_left (open_with settings set_rows.old rom_rows.old image.now) set_rows.old }
    ensures roms { rom_rows.new ≡ rom_rows_left (open_with settings set_rows.old rom_rows.old image.now) rom_rows.old }
{
    let none = no_report();
    if window::beyond_window(image, settings.flash_base, settings.cs0_base) {
        return Opening {
            number: 1,
            info: none,
        };
    }
    let flash = Window {
        image,
        base: settings.flash_base,
    };
    let h = match records::read_header(flash, settings.info_offset) {
        Ok(h) => h,
        Err(refusal) => {
            return Opening {
                number: refusal.number(),
                info: none,
            };
        }
    };
    let fields = h.fields;
    let line = fields.stm_line;
    let base = window::base_after(settings.flash_base, settings.cs0_base, line);
    let w = Window { image, base };
    let records = records::read_records(w, h);
    let source = records.sets;
    let walk = sets_item::walk_sets(w, fields, source, set_rows, rom_rows);
    let number = walk_number(walk);
    let info = report(fields, records, walk);
    if is_short(number) {
        return Opening { number, info: none };
    }
    Opening { number: 0, info }
}
