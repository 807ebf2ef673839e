// ROM data, a range of a set, on one count (info.rs `read_rom_set_data`; over it, with a count for each job, job_reads). Goes by the report and
// rows as lent.
#![tactic(auto)]

ghost use Rattle.std.specs.Prelude.{◌≡◌, ◌≤◌, [], IfOk, length, take, drop};
ghost use Rattle.refusal.specs.Refusal.{refused_number};
ghost use Rattle.info.specs.Lent.{lent_by};
ghost use Rattle.info.specs.Reads.{range, rom_read, buffer_left};
ghost use Rattle.data_reads.specs.Code.{placed_of};

use board::Board;
use refusal::Refusal;
use window::Window;

// 0 or the refusal's number, and the served count afterwards.
#[derive(Clone, Copy)]
pub struct Counted {
    pub number: u8,
    pub count: u32,
}

// A read's reply beside the count that it left.
pub fn with_count(read: Result<(), Refusal>, count: u32) -> Counted
    ensures { result ≡ record { number = refused_number read; count = count } }
{
    let number = match read {
        Ok(_) => 0,
        Err(refusal) => refusal.number(),
    };
    Counted { number, count }
}

// The bytes, one for each of the buffer. A loop, since C's library needs no other, and `copy_from_slice` calls the C library's memmove.
#[tactic(auto, using(crate::proofs::Steps::copied))]
fn copy(to: &mut [u8], from: &[u8])
    requires { length to.old ≡ length from.now }
    ensures { to.new ≡ from.now }
{
    for (i, byte) in from.iter().enumerate() {
        to[i] = *byte;
    }
}

// n bytes of a set, from an offset on: 1 before anything else.
#[tactic(auto, unfolding(crate::specs::Code::placed_of))]
fn stored<'a>(
    image: &'a [u8],
    board: Board,
    set_rows: &[u32],
    set: u32,
    offset: u32,
    n: usize,
) -> Result<&'a [u8], Refusal>
    ensures number { refused_number result ≡ (placed_of board.flash_base board.cs0_base (lent_by board set_rows.now []) set offset n image.now).number }
    ensures bytes { IfOk result (λ s. s.now ≡ take n (drop (placed_of board.flash_base board.cs0_base (lent_by board set_rows.now []) set offset n image.now).at image.now)) }
    ensures whole { IfOk result (λ s. length s.now ≡ n) }
    ensures fits { IfOk result (λ s. length s.now ≤ 4294967295) }
{
    if window::beyond_window(image, board.flash_base, board.cs0_base) {
        return Err(Refusal::PastWindow);
    }
    let base = window::base_after(board.flash_base, board.cs0_base, board.line);
    let w = Window { image, base };
    set_data::set_bytes(w, board.served, set_rows, set, offset, n)
}

// The set's bytes from an offset on, as many as the buffer holds, and the served count afterwards; a refused call changes neither.
#[tactic(auto, using(crate::specs::Laws::Steps::left_as_was, crate::specs::Laws::Steps::data_refused, crate::specs::Laws::Steps::data_82, crate::specs::Laws::Steps::data_read_is))]
pub fn data_on_count(
    image: &[u8],
    board: Board,
    set_rows: &[u32],
    set: u32,
    offset: u32,
    buffer: &mut [u8],
    count: &mut u32,
) -> Result<(), Refusal>
    ensures number { refused_number result ≡ (rom_read board.flash_base board.cs0_base (lent_by board set_rows.now []) count.old (range set offset (length buffer.old)) image.now).number }
    ensures count { count.new ≡ (rom_read board.flash_base board.cs0_base (lent_by board set_rows.now []) count.old (range set offset (length buffer.old)) image.now).count }
    ensures buffer { buffer.new ≡ buffer_left (rom_read board.flash_base board.cs0_base (lent_by board set_rows.now []) count.old (range set offset (length buffer.old)) image.now) buffer.old }
{
    let bytes = stored(image, board, set_rows, set, offset, buffer.len())?;
    let after = count
        .checked_add(bytes.len() as u32)
        .ok_or(Refusal::CountFull)?;
    copy(buffer, bytes);
    *count = after;
    Ok(())
}
