// The walk over ROM sets and ROM infos (parsing.rs `read_rom_sets`, `read_rom_infos`), the pass that only judges.
#![tactic(auto)]

ghost use Rattle.std.specs.Prelude.{◌≡◌, true, false, IfOk, IfErr, length};
ghost use Rattle.refusal.specs.Refusal.{refused_number};
ghost use Rattle.prog.specs.Prog.{run};
ghost use Rattle.window.specs.Window.{can_read, on_from};
ghost use Rattle.walk.specs.Walk.{info_size, roms_of, walk_p};
ghost use Rattle.walk.specs.Code.Passes.{info_number, rom_number, roms_number, table_number, pointed_number, header_number, part_number, one_set_number, sets_number, sets_at};
ghost use Rattle.judge_walk.specs.Code.{walk_item, walked, judged_of};

use header::SdrrInfoFields;
use refusal::Refusal;
use walk::WalkBy;
use window::Window;

// The image from an address on, of which n bytes are there. By index: through `part_from`, which looks again where the address stands, an opening of
// many ROMs takes a third more instructions.
#[tactic(auto, using(base::specs::Laws::onward), unfolding(window::specs::Window::can_read, window::specs::Window::on_from))]
fn read(w: Window, address: u64, n: usize) -> Result<&[u8], Refusal>
    ensures there { IfOk result (λ s. (can_read w.entry.image.now w.entry.base address n ≡ true) × (s.now ≡ on_from w.entry.image.now w.entry.base address)) }
    ensures ended { IfErr result (λ r. (can_read w.entry.image.now w.entry.base address n ≡ false) × (r ≡ Refusal.Ended)) }
{
    if !w.can_read(address, n) {
        return Err(Refusal::Ended);
    }
    Ok(&w.image[(address - w.base as u64) as usize..])
}

// ---- ROM infos

// With filenames a ROM info is 8 bytes, without 4.
fn info_size(filenames: bool) -> usize
    ensures { result ≡ info_size filenames }
{
    if filenames { 8 } else { 4 }
}

// What a ROM info's own bytes say.
#[tactic(auto, unfolding(walk::specs::Code::Passes::info_number))]
fn judge_rom_info(s: &[u8]) -> Result<(), Refusal>
    ensures { refused_number result ≡ info_number s.now }
{
    if 33 < le::u8_at(s, 0) {
        return Err(Refusal::RomType);
    }
    if 2 < le::u8_at(s, 1) || 2 < le::u8_at(s, 2) || 2 < le::u8_at(s, 3) {
        return Err(Refusal::CsState);
    }
    Ok(())
}

#[tactic(auto, unfolding(walk::specs::Code::Passes::rom_number))]
fn judge_rom(by: WalkBy, entry: u64) -> Result<(), Refusal>
    ensures { refused_number result ≡ rom_number by.entry.window.image.now by.entry.window.base by.entry.filenames entry }
{
    let ptr = le::u32_at(read(by.window, entry, 4)?, 0);
    let info = read(by.window, ptr as u64, info_size(by.filenames))?;
    judge_rom_info(info)
}

// So many ROMs, whose pointers stand in a table.
#[tactic(auto, using(crate::proofs::Steps::roms_steps))]
fn judge_roms(by: WalkBy, table: u32, count: u8) -> Result<(), Refusal>
    ensures { refused_number result ≡ roms_number by.entry.window.image.now by.entry.window.base by.entry.filenames table count }
{
    for k in 0..count {
        judge_rom(by, table as u64 + 4 * k as u64)?;
    }
    Ok(())
}

#[tactic(auto, unfolding(walk::specs::Code::Passes::table_number))]
fn judge_rom_infos(by: WalkBy, table: u32, count: u8) -> Result<(), Refusal>
    ensures { refused_number result ≡ table_number by.entry.window.image.now by.entry.window.base by.entry.filenames count table }
{
    if count == 0 {
        return Ok(());
    }
    if table < by.window.base {
        return Err(Refusal::BelowBase);
    }
    judge_roms(by, table, count)
}

// ---- ROM sets

// What a set's config or overrides address must yield.
#[tactic(auto, unfolding(walk::specs::Code::Passes::pointed_number))]
fn judge_pointed(w: Window, address: u32) -> Result<(), Refusal>
    ensures { refused_number result ≡ pointed_number w.entry.image.now w.entry.base address }
{
    if address != 0 {
        read(w, address as u64, 64)?;
    }
    Ok(())
}

// A set's own bytes, then its config and overrides.
#[tactic(auto, unfolding(walk::specs::Code::Passes::header_number))]
fn judge_set_header(w: Window, s: &[u8]) -> Result<(), Refusal>
    ensures { refused_number result ≡ header_number w.entry.image.now w.entry.base s.now }
{
    if 2 < le::u8_at(s, 13) {
        return Err(Refusal::Serve);
    }
    if 2 < le::u8_at(s, 14) {
        return Err(Refusal::MultiRomState);
    }
    judge_pointed(w, set_header::serve_config(s))?;
    judge_pointed(w, set_header::firmware_overrides(s))
}

// The set whose part of the image is s.
#[tactic(auto, unfolding(walk::specs::Code::Passes::part_number))]
fn judge_part(by: WalkBy, s: &[u8]) -> Result<(), Refusal>
    ensures { refused_number result ≡ part_number by.entry.window.image.now by.entry.window.base by.entry.filenames s.now }
{
    judge_set_header(by.window, s)?;
    judge_rom_infos(by, le::u32_at(s, 8), le::u8_at(s, 12))
}

// The set at an address; its part of the image. Always 64 bytes are read.
#[tactic(auto, unfolding(walk::specs::Code::Passes::one_set_number))]
fn judge_set(by: WalkBy, address: u64) -> Result<&[u8], Refusal>
    ensures number { refused_number result ≡ one_set_number by.entry.window.image.now by.entry.window.base by.entry.filenames address }
    ensures part { IfOk result (λ s. s.now ≡ on_from by.entry.window.image.now by.entry.window.base address) }
{
    let s = read(by.window, address, 64)?;
    judge_part(by, s)?;
    Ok(s)
}

// So many sets, one after the other; the first stands at a pointer. Before every set `total` is the sum of the earlier sets' counts, as the loop's
// invariant says (`total_is_sum` in proofs/judge_sets/Invariants.antt).
#[tactic(auto, using(crate::proofs::Steps::sets_steps), unfolding(walk::specs::Rows::counts_of, walk::specs::Code::Passes::sets_at, walk::specs::Code::Passes::set_address, walk::specs::Code::Passes::sets_number))]
fn judge_sets(by: WalkBy, ptr: u32, count: u8) -> Result<u32, Refusal>
    ensures { walk_item result ≡ walked (sets_number by.entry.window.image.now by.entry.window.base by.entry.filenames by.entry.long ptr count) (length (roms_of (sets_at by.entry.window.image.now by.entry.window.base by.entry.filenames by.entry.long ptr count))) }
{
    let mut address = ptr as u64;
    let mut total = 0;
    for _i in 0..count {
        let s = judge_set(by, address)?;
        total = set_header::total_with(total, le::u8_at(s, 12));
        address += set_header::set_stride(by.long, s);
    }
    Ok(total)
}

// ---- the walk

// The first pass: why the walk is refused, or how many ROMs its sets have.
#[tactic(auto, using(crate::proofs::Steps::walk_steps))]
pub fn judge_rom_sets(
    w: Window,
    fields: SdrrInfoFields,
    count: u8,
    ptr: u32,
) -> Result<u32, Refusal>
    ensures { walk_item result ≡ judged_of (run (walk_p w.entry.base fields count ptr) w.entry.image.now) }
{
    if count == 0 {
        return Ok(0);
    }
    if ptr < w.base {
        return Err(Refusal::BelowBase);
    }
    judge_sets(WalkBy::new(w, fields), ptr, count)
}
