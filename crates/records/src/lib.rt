// The header, and the records at its pointers.
#![tactic(auto)]

ghost use Rattle.std.specs.Prelude.{◌≡◌};
ghost use Rattle.prog.specs.Prog.{run};
ghost use Rattle.text.specs.Text.{text_p};
ghost use Rattle.header.specs.Header.{header_item, header_p};
ghost use Rattle.extra_info.specs.ExtraInfo.{extra_info_p};
ghost use Rattle.pins.specs.Pins.{pins_p};
ghost use Rattle.records.specs.Code.{records_of, records_shown};

use extra_info::ExtraInfoItem;
use header::SdrrInfoHeader;
use pins::PinsItem;
use refusal::Refusal;
use sets_source::SetsSource;
use text::Text;
use version::FirmwareVersion;
use window::Window;

#[derive(Clone, Copy)]
pub struct Records {
    pub build_date: Text,
    pub hw_rev: Text,
    pub extra_info: ExtraInfoItem,
    pub sets: SetsSource,
    pub pins: PinsItem,
}

fn string_at(w: Window, ptr: u32) -> Text
    ensures { result ≡ run (text_p w.entry.base ptr) w.entry.image.now }
{
    text::text_item(strings::read_string_at_ptr(w, ptr))
}

fn extra_info_at(w: Window, ptr: u32, version: FirmwareVersion) -> ExtraInfoItem
    ensures { result ≡ run (extra_info_p w.entry.base ptr version) w.entry.image.now }
{
    extra_info::extra_info_item(extra_info::read_extra_info(w, ptr, version))
}

fn pins_at(w: Window, ptr: u32) -> PinsItem
    ensures { result ≡ run (pins_p w.entry.base ptr) w.entry.image.now }
{
    pins::pins_item(pins_record::read_pins(w, ptr))
}

pub fn read_header(w: Window, info_offset: u32) -> Result<SdrrInfoHeader, Refusal>
    ensures { header_item result ≡ run (header_p w.entry.base info_offset) w.entry.image.now }
{
    header_record::retrieve_header(w, info_offset)
}

#[tactic(auto, unfolding(crate::specs::Code::records_of))]
pub fn read_records(w: Window, header: SdrrInfoHeader) -> Records
    ensures { records_shown result ≡ records_of w.entry.base header w.entry.image.now }
{
    Records {
        build_date: string_at(w, header.build_date_ptr),
        hw_rev: string_at(w, header.hw_rev_ptr),
        extra_info: extra_info_at(w, header.extra_ptr, header.fields.version),
        sets: sets_source::sets_source(w, header),
        pins: pins_at(w, header.pins_ptr),
    }
}
