// What a read needs of a set, its bytes, and where they stand in the image (info.rs `get_rom_set_size`, and the first half of the reads).
// Goes by the report and rows as lent.
#![tactic(auto)]

ghost use Rattle.std.specs.Prelude.{◌≡◌, ◌+◌, ◌≤◌, IfOk, length, take, drop};
ghost use Rattle.refusal.specs.Refusal.{valued, refused_number};
ghost use Rattle.rows.specs.LentRows.{set_number};
ghost use Rattle.set_data.specs.Data.{size_call};
ghost use Rattle.set_data.specs.Code.{set_data, found_of};

use refusal::Refusal;
use rows::SetWord;
use window::Window;

// What a read needs of a set: 80, 4 or 0, and of its row the data pointer and the size.
#[derive(Clone, Copy, Debug, PartialEq, Eq)]
pub struct SetData {
    pub number: u8,
    pub pointer: u32,
    pub size: u32,
}

// Where bytes of a set start in the image; or a number, with 0.
#[derive(Clone, Copy, Debug, PartialEq, Eq)]
pub struct Found {
    pub number: u8,
    pub at: usize,
}

// 80: no such set. 4: its row.
fn check_set(served: u32, set_rows: &[u32], set: u32) -> Result<(), Refusal>
    ensures { refused_number result ≡ set_number served set_rows.now set }
{
    if served <= set {
        return Err(Refusal::NoSuchSet);
    }
    if !rows::has_set_row(set_rows, set) {
        return Err(Refusal::BadRow);
    }
    Ok(())
}

#[tactic(auto, unfolding(crate::specs::Data::size_call))]
pub fn get_rom_set_size(served: u32, set_rows: &[u32], set: u32) -> Result<u32, Refusal>
    ensures { valued result ≡ size_call served set_rows.now set }
{
    check_set(served, set_rows, set)?;
    Ok(rows::set_word(set_rows, set, SetWord::Size))
}

pub fn set_data(served: u32, set_rows: &[u32], set: u32) -> SetData
    ensures { result ≡ set_data served set_rows.now set }
{
    let number = match check_set(served, set_rows, set) {
        Ok(_) => 0,
        Err(refusal) => refusal.number(),
    };
    SetData {
        number,
        pointer: rows::set_word(set_rows, set, SetWord::DataPointer),
        size: rows::set_word(set_rows, set, SetWord::Size),
    }
}

// Where n bytes stand in the image, from an offset on, of a set that starts at a pointer: 81, 2. No sum is made that could overflow.
#[inline]
#[tactic(auto, using(window::specs::Laws::true_inside), unfolding(crate::specs::Code::found_of))]
fn start_of(w: Window, pointer: u32, size: u32, offset: u32, n: usize) -> Result<usize, Refusal>
    ensures number { refused_number result ≡ (found_of w.entry.image.now w.entry.base (record { number = 0; pointer = pointer; size = size }) offset n).number }
    ensures at { IfOk result (λ at. at ≡ (found_of w.entry.image.now w.entry.base (record { number = 0; pointer = pointer; size = size }) offset n).at) }
    ensures inside { IfOk result (λ at. at + n ≤ length w.entry.image.now) }
    ensures fits { IfOk result (λ at. at ≤ 4294967295) }
{
    if size < offset || ((size - offset) as usize) < n {
        return Err(Refusal::PastSetSize);
    }
    let address = pointer as u64 + offset as u64;
    if !w.can_read(address, n) {
        return Err(Refusal::Ended);
    }
    Ok((address - w.base as u64) as usize)
}

// Where n bytes of a set stand, from an offset on: the set's number, then 81, 2.
#[tactic(auto, unfolding(crate::specs::Code::found_of))]
pub fn find(image: &[u8], base: u32, data: SetData, offset: u32, n: usize) -> Found
    ensures found { result ≡ found_of image.now base «data» offset n }
    ensures fits { result.at ≤ 4294967295 }
{
    if data.number != 0 {
        return Found {
            number: data.number,
            at: 0,
        };
    }
    match start_of(Window { image, base }, data.pointer, data.size, offset, n) {
        Ok(at) => Found { number: 0, at },
        Err(refusal) => Found {
            number: refusal.number(),
            at: 0,
        },
    }
}

// n bytes of a set, from an offset on: 80, 4, 81, 2.
#[tactic(auto, unfolding(crate::specs::Code::found_of))]
pub fn set_bytes<'a>(
    w: Window<'a>,
    served: u32,
    set_rows: &[u32],
    set: u32,
    offset: u32,
    n: usize,
) -> Result<&'a [u8], Refusal>
    ensures number { refused_number result ≡ (found_of w.entry.image.now w.entry.base (set_data served set_rows.now set) offset n).number }
    ensures bytes { IfOk result (λ s. s.now ≡ take n (drop (found_of w.entry.image.now w.entry.base (set_data served set_rows.now set) offset n).at w.entry.image.now)) }
    ensures whole { IfOk result (λ s. length s.now ≡ n) }
    ensures fits { IfOk result (λ s. length s.now ≤ 4294967295) }
{
    check_set(served, set_rows, set)?;
    let pointer = rows::set_word(set_rows, set, SetWord::DataPointer);
    let size = rows::set_word(set_rows, set, SetWord::Size);
    let at = start_of(w, pointer, size, offset, n)?;
    Ok(&w.image[at..at + n])
}
