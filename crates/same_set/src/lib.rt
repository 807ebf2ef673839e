// Same set (document 01; the Rust has no such call): by the rows as lent.
#![tactic(auto)]

ghost use Rattle.std.specs.Prelude.{◌≡◌, false, ◌*◌, ◌≤◌, length, drop, map};
ghost use Rattle.rows.specs.LentRows.{rom_row_length};
ghost use Rattle.same_set.specs.Same.{type_of, types_in, any_above33, bad_set, compared, equal, same_set, same_item};

use refusal::Refusal;
use rows::{LentRows, ROM_WORDS, RomWord, SetWord};

// The words from a ROM row on; none where it lies past their end.
fn from_row(rom_rows: &[u32], row: u32) -> &[u32]
    ensures { result.now ≡ drop (rom_row_length * row) rom_rows.now }
{
    rom_rows
        .get(rows::ROM_WORDS * (row as usize)..)
        .unwrap_or(&[])
}

// The first ROM rows, so many of them. By their places a comparison of many types took twice as long.
#[tactic(auto, using(crate::specs::Laws::types_of_rows, crate::specs::Laws::enough_whole))]
fn first_rows(words: &[u32], count: u32) -> &[[u32; ROM_WORDS]]
    requires { rom_row_length * count ≤ length words.now }
    ensures len { length result.now ≡ count }
    ensures types { map type_of result.now ≡ types_in words.now count }
{
    let (whole, _) = words.as_chunks::<ROM_WORDS>();
    &whole[..count as usize]
}

fn type_of(row: &[u32; ROM_WORDS]) -> u32
    ensures { result ≡ type_of row.now }
{
    rows::rom_word(row, 0, RomWord::Type)
}

// Whether one of the first ROM rows, so many of them, has a type above 33.
fn any_above_33(words: &[u32], count: u32) -> bool
    requires { rom_row_length * count ≤ length words.now }
    ensures { result ≡ any_above33 (types_in words.now count) }
{
    first_rows(words, count).iter().any(|row| 33 < type_of(row))
}

// Whether the types of the first ROM rows, so many of them, agree. No derive compares them: of each row this is one word of the eight.
fn same_types(a: &[u32], b: &[u32], count: u32) -> bool
    requires { (rom_row_length * count ≤ length a.now) × (rom_row_length * count ≤ length b.now) }
    ensures { result ≡ equal (types_in a.now count) (types_in b.now count) }
{
    let mut pairs = first_rows(a, count).iter().zip(first_rows(b, count));
    pairs.all(|(x, y)| type_of(x) == type_of(y))
}

// 4: the set's row or one of its ROM rows isn't among those lent, or a type is above 33. Only rows that are lent are looked at.
#[tactic(auto, unfolding(crate::specs::Same::bad_set))]
fn is_bad_set(lent: LentRows, set: u32) -> bool
    ensures { result ≡ bad_set lent.entry.set_rows.now lent.entry.rom_rows.now set }
{
    if !lent.has_set_row(set) {
        return true;
    }
    let count = lent.set_word(set, SetWord::RomCount);
    if count == 0 {
        return false;
    }
    let first = lent.set_word(set, SetWord::FirstRom);
    lent.rom_rows.len() < rows::ROM_WORDS * (first as usize + count as usize)
        || any_above_33(from_row(lent.rom_rows, first), count)
}

// Whether size, ROM count, serve and every type in order agree.
#[tactic(auto, using(crate::specs::Laws::enough_rows), unfolding(crate::specs::Same::compared, crate::specs::Same::equal))]
fn is_same(lent: LentRows, a: u32, b: u32) -> bool
    requires { (bad_set lent.set_rows.now lent.rom_rows.now a ≡ false) × (bad_set lent.set_rows.now lent.rom_rows.now b ≡ false) }
    ensures { result ≡ equal (compared lent.entry.set_rows.now lent.entry.rom_rows.now a) (compared lent.entry.set_rows.now lent.entry.rom_rows.now b) }
{
    let count = lent.set_word(a, SetWord::RomCount);
    let of_a = from_row(lent.rom_rows, lent.set_word(a, SetWord::FirstRom));
    let of_b = from_row(lent.rom_rows, lent.set_word(b, SetWord::FirstRom));
    lent.set_word(a, SetWord::Size) == lent.set_word(b, SetWord::Size)
        && count == lent.set_word(b, SetWord::RomCount)
        && lent.set_word(a, SetWord::Serve) == lent.set_word(b, SetWord::Serve)
        && same_types(of_a, of_b, count)
}

// 80: either is no set. 4: either set's row or one of its ROM rows. Then whether size, ROM count, serve and every type agree.
#[tactic(auto, unfolding(crate::specs::Same::same_set))]
pub fn same_set(served: u32, lent: LentRows, a: u32, b: u32) -> Result<bool, Refusal>
    ensures { same_item result ≡ same_set served lent.entry.set_rows.now lent.entry.rom_rows.now a b }
{
    if served <= a || served <= b {
        return Err(Refusal::NoSuchSet);
    }
    if is_bad_set(lent, a) || is_bad_set(lent, b) {
        return Err(Refusal::BadRow);
    }
    Ok(is_same(lent, a, b))
}
