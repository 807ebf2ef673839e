// What mangling goes by of the rows as lent: set 0 governs, whichever set is then read; or, in a read by the set's own ROMs, the named set.
#![tactic(auto)]

ghost use Rattle.std.specs.Prelude.{◌≡◌};
ghost use Rattle.governing.specs.Governing.{governing_item, lacks_first_rom, governing, governing_set0, governing_own};

use refusal::Refusal;
use rom_rules::GoverningSet;
use rows::{LentRows, SetWord};

// Whether a set has ROMs and its first ROM row can't be used.
fn lacks_first_rom(set_rows: &[u32], rom_rows: &[u32], set: u32) -> bool
    ensures { result ≡ lacks_first_rom set_rows.now rom_rows.now «set» }
{
    let count = rows::set_word(set_rows, set, SetWord::RomCount);
    let first = rows::set_word(set_rows, set, SetWord::FirstRom);
    let lent = LentRows { set_rows, rom_rows };
    count != 0 && row_types::is_bad_rom_row(lent, first)
}

// A set as mangling goes by it, or 4.
#[tactic(auto, unfolding(crate::specs::Governing::governing))]
pub fn governing(set_rows: &[u32], rom_rows: &[u32], set: u32) -> Result<GoverningSet, Refusal>
    ensures { governing_item result ≡ governing set_rows.now rom_rows.now «set» }
{
    if !rows::has_set_row(set_rows, set) || lacks_first_rom(set_rows, rom_rows, set) {
        return Err(Refusal::BadRow);
    }
    let lent = LentRows { set_rows, rom_rows };
    let first = lent.set_word(set, SetWord::FirstRom);
    Ok(GoverningSet {
        rom_count: lent.set_word(set, SetWord::RomCount),
        rom_type: row_types::rom_type(lent, first),
    })
}

// Set 0 governs: 70 and 71 before its rows are looked at.
#[tactic(auto, unfolding(crate::specs::Governing::governing_set0))]
pub fn governing_set_0(
    pins_number: u8,
    served: u32,
    set_rows: &[u32],
    rom_rows: &[u32],
) -> Result<GoverningSet, Refusal>
    ensures { governing_item result ≡ governing_set0 pins_number served set_rows.now rom_rows.now }
{
    if pins_number != 0 {
        return Err(Refusal::NoPins);
    }
    if served == 0 {
        return Err(Refusal::NoSets);
    }
    governing(set_rows, rom_rows, 0)
}

// The named set governs: 80 and 4 before the pins are looked at. Set 0's rows are looked at only where set 0 is named.
#[tactic(auto, unfolding(crate::specs::Governing::governing_own))]
pub fn governing_own(
    pins_number: u8,
    served: u32,
    set_rows: &[u32],
    rom_rows: &[u32],
    set: u32,
) -> Result<GoverningSet, Refusal>
    ensures { governing_item result ≡ governing_own pins_number served set_rows.now rom_rows.now «set» }
{
    if served <= set {
        return Err(Refusal::NoSuchSet);
    }
    let own = governing(set_rows, rom_rows, set)?;
    if pins_number != 0 {
        return Err(Refusal::NoPins);
    }
    Ok(own)
}
