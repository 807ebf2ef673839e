// The rows of the walk (parsing.rs `read_rom_sets`): judged first, then written. A refusal writes nothing.
#![tactic(auto)]

ghost use Rattle.std.specs.Prelude.{◌≡◌, length};
ghost use Rattle.prog.specs.Prog.{run};
ghost use Rattle.walk.specs.Walk.{walk_p};
ghost use Rattle.walk.specs.Names.{walk_names_p};
ghost use Rattle.rom_rows.specs.Reply.{walk_item, walk_reply, walk_set_rows, walk_rom_rows};

use header::SdrrInfoFields;
use refusal::Refusal;
use rows::{ROM_WORDS, SET_WORDS};
use walk::WalkBy;
use window::Window;

// How many ROMs the sets have, and the rows are written; or why the walk is refused, also for want of rows, and no word is changed.
pub fn read_rom_sets(
    w: Window,
    fields: SdrrInfoFields,
    count: u8,
    ptr: u32,
    set_rows: &mut [u32],
    rom_rows: &mut [u32],
) -> Result<u32, Refusal>
    ensures reply { walk_item result ≡ walk_reply (run (walk_p w.entry.base fields count ptr) w.entry.image.now) (length set_rows.old) (length rom_rows.old) }
    ensures sets { set_rows.new ≡ walk_set_rows (run (walk_p w.entry.base fields count ptr) w.entry.image.now) (length rom_rows.old) set_rows.old }
    ensures roms { rom_rows.new ≡ walk_rom_rows (run (walk_p w.entry.base fields count ptr) w.entry.image.now) (run (walk_names_p w.entry.base (run (walk_p w.entry.base fields count ptr) w.entry.image.now)) w.entry.image.now) (length set_rows.old) rom_rows.old }
{
    let rom_count = judge_walk::judge_rom_sets(w, fields, count, ptr)?;
    if set_rows.len() < SET_WORDS * count as usize {
        return Err(Refusal::ShortSetRows);
    }
    if rom_rows.len() < ROM_WORDS * rom_count as usize {
        return Err(Refusal::ShortRomRows);
    }
    write_rows::write_rom_sets(WalkBy::new(w, fields), count, ptr, set_rows, rom_rows);
    Ok(rom_count)
}
