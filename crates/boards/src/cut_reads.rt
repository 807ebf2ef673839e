// Demand 3 on the code as it runs: reads on a cut beside the same reads on the whole, each as the first after the opening.
use super::calls::{Call, Reply};
use super::tally::Tally;
use super::{calls, reads, record, tally, words};
use board::Board;
use job_counts::JOBS;

// The boards of the whole and of a cut, and the cut's length.
#[derive(Clone, Copy)]
pub(crate) struct Boards {
    pub(crate) length: u32,
    pub(crate) whole: Board,
    pub(crate) cut: Board,
}

// Whether a call was tried, its reply on the cut, and whether that is a refusal or the whole's reply, with the same bytes.
#[derive(Clone, Copy)]
struct Both {
    tried: bool,
    cut: Reply,
    held: bool,
}

fn untried() -> Both {
    let cut = Reply {
        number: 0,
        value: 0,
        count: 0,
    };
    Both {
        tried: false,
        cut,
        held: true,
    }
}

fn refused(cut: Reply) -> Both {
    Both {
        tried: true,
        cut,
        held: reads::has_right_counts(cut),
    }
}

fn same_reply(a: Reply, b: Reply) -> bool {
    if a.number != b.number {
        return false;
    }
    if a.value != b.value {
        return false;
    }
    a.count == b.count
}

fn accepted(whole: Reply, cut: Reply, bytes: &[u8; 4096], cut_bytes: &[u8; 4096]) -> Both {
    Both {
        tried: true,
        cut,
        held: base::both(same_reply(whole, cut), words::same_bytes(bytes, cut_bytes)),
    }
}

// The call k.
fn call_at(given: &[u8], k: u32) -> Call {
    let at = 16 * (k as usize);
    if record::is_history(given) {
        return calls::history_call(record::calls(given), at);
    }
    calls::lone_call(record::calls(given), at)
}

// A read as the first after an opening, when all counts are 0.
fn first(
    image: &[u8],
    board: Board,
    sets: &[u32],
    roms: &[u32],
    call: Call,
    buffer: &mut [u8],
) -> Reply {
    let mut counts = [0u32; JOBS];
    reads::read(image, board, sets, roms, call, buffer, &mut counts)
}

// The call on the cut, where it is a read and the buffers hold its bytes; and, where the cut accepts it, on the whole.
fn read_both(
    b: Boards,
    given: &[u8],
    sets: &[u32],
    roms: &[u32],
    cut_sets: &[u32],
    cut_roms: &[u32],
    call: Call,
) -> Both {
    let mut bytes = words::byte_space();
    let mut cut_bytes = words::byte_space();
    let n = call.length as usize;
    if call.kind < 4 {
        return untried();
    }
    if 4096 < n {
        return untried();
    }
    let cut_image = record::cut_image(given, b.length);
    let cut_board = b.cut;
    let r = first(
        cut_image,
        cut_board,
        cut_sets,
        cut_roms,
        call,
        &mut cut_bytes[..n],
    );
    if r.number != 0 {
        return refused(r);
    }
    let image = record::image(given);
    let board = b.whole;
    let w = first(image, board, sets, roms, call, &mut bytes[..n]);
    accepted(w, r, &bytes, &cut_bytes)
}

fn counted(t: Tally, b: Both) -> Tally {
    if !b.tried {
        return t;
    }
    let r = b.cut;
    tally::with_read(t, r, b.held)
}

// All calls that are reads.
pub(crate) fn run(
    b: Boards,
    given: &[u8],
    sets: &[u32],
    roms: &[u32],
    cut_sets: &[u32],
    cut_roms: &[u32],
    tally: Tally,
) -> Tally {
    let mut t = tally;
    for k in 0..record::word(given, 7) {
        let call = call_at(given, k);
        t = counted(t, read_both(b, given, sets, roms, cut_sets, cut_roms, call));
    }
    t
}
