// The sets item of the report: the walk that metadata leaves, and what is served of it.
#![tactic(auto)]

ghost use Rattle.std.specs.Prelude.{◌≡◌, length};
ghost use Rattle.prog.specs.Prog.{run};
ghost use Rattle.walk.specs.Names.{walk_names_p};
ghost use Rattle.rom_rows.specs.Reply as rows;
ghost use Rattle.sets_source.specs.Code.{source_shown};
ghost use Rattle.sets_item.specs.Code.{walk_of, item_of};

use header::SdrrInfoFields;
use refusal::Refusal;
use sets_source::SetsSource;
use window::Window;

// The sets item: its number, the set count, and the sets served.
#[derive(Clone, Copy)]
pub struct SetsItem {
    pub number: u8,
    pub rom_set_count: u8,
    pub served: u32,
}

// The sets served are the set count where the walk is accepted, otherwise none.
#[tactic(auto, unfolding(crate::specs::Code::item_of))]
pub fn sets_item(number: u8, count: u8) -> SetsItem
    ensures { result ≡ item_of number count }
{
    let served = if number == 0 { count as u32 } else { 0 };
    SetsItem {
        number,
        rom_set_count: count,
        served,
    }
}

// The walk that metadata leaves: none where metadata ended.
#[tactic(auto, unfolding(crate::specs::Code::walk_of, rom_rows::specs::Reply::walk_reply, rom_rows::specs::Reply::walk_set_rows, rom_rows::specs::Reply::walk_rom_rows))]
pub fn walk_sets(
    w: Window,
    fields: SdrrInfoFields,
    source: SetsSource,
    set_rows: &mut [u32],
    rom_rows: &mut [u32],
) -> Result<u32, Refusal>
    ensures reply { rows.walk_item result ≡ rows.walk_reply (walk_of w.entry.base fields (source_shown source) w.entry.image.now) (length set_rows.old) (length rom_rows.old) }
    ensures sets { set_rows.new ≡ rows.walk_set_rows (walk_of w.entry.base fields (source_shown source) w.entry.image.now) (length rom_rows.old) set_rows.old }
    ensures roms { rom_rows.new ≡ rows.walk_rom_rows (walk_of w.entry.base fields (source_shown source) w.entry.image.now) (run (walk_names_p w.entry.base (walk_of w.entry.base fields (source_shown source) w.entry.image.now)) w.entry.image.now) (length set_rows.old) rom_rows.old }
{
    let Some(sets) = source.sets else {
        return Err(Refusal::Ended);
    };
    let ptr = sets.rom_sets_ptr;
    rom_rows::read_rom_sets(w, fields, sets.rom_set_count, ptr, set_rows, rom_rows)
}
