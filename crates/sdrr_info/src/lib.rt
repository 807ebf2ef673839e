// The report of an opening, and what later calls look at of it.
#![tactic(auto)]

ghost use Rattle.std.specs.Prelude.{◌≡◌};
ghost use Rattle.sdrr_info.specs.Report.{board_of};

use board::Board;
use extra_info::ExtraInfoItem;
use header::SdrrInfoFields;
use metadata::MetadataItem;
use pins::PinsItem;
use sets_item::SetsItem;
use text::Text;
use window::Settings;

// The report.
#[derive(Clone, Copy)]
pub struct SdrrInfo {
    pub fields: SdrrInfoFields,
    pub build_date: Text,
    pub hw_rev: Text,
    pub extra_info: ExtraInfoItem,
    pub metadata: MetadataItem,
    pub rom_sets: SetsItem,
    pub pins: PinsItem,
}

// What later calls look at of an opened board.
pub fn board(settings: Settings, info: SdrrInfo) -> Board
    ensures { result ≡ board_of settings info }
{
    let fields = info.fields;
    let line = fields.stm_line;
    let pins = board::board_pins(info.pins);
    let sets = info.rom_sets;
    Board {
        flash_base: settings.flash_base,
        cs0_base: settings.cs0_base,
        line,
        pins,
        served: sets.served,
    }
}
