// Calls on a board, by the report and rows as lent.
use super::{reads, record, show, words};
use board::Board;
use job_counts::JOBS;
use refusal::Refusal;
use rows::LentRows;
use std::io;
use types::SdrrCsSet;

// A call as the input has it, in 16 bytes: kind, levels (five digits to base 3, CS1 the lowest), a half for the length, three words; the last is in
// a history the job, and of a call by itself the count before it of the job that its place gives it.
#[derive(Clone, Copy)]
pub(crate) struct Call {
    pub(crate) kind: u8,
    pub(crate) levels: u8,
    pub(crate) length: u16,
    pub(crate) set: u32,
    pub(crate) address: u32,
    pub(crate) job: u32,
    pub(crate) count: u32,
}

// A number, and a value: of a read of several bytes the sum of the buffer. Reads have their job's count beside them.
#[derive(Clone, Copy)]
pub(crate) struct Reply {
    pub(crate) number: u8,
    pub(crate) value: u32,
    pub(crate) count: u32,
}

fn call_of(bytes: &[u8], job: u32, count: u32) -> Call {
    Call {
        kind: le::u8_at(bytes, 0),
        levels: le::u8_at(bytes, 1),
        length: le::u16_at(bytes, 2),
        set: le::u32_at(bytes, 4),
        address: le::u32_at(bytes, 8),
        job,
        count,
    }
}

// The call at an index, by itself.
pub(crate) fn lone_call(calls: &[u8], at: usize) -> Call {
    let bytes = record::from(calls, at);
    call_of(bytes, (at / 16 % JOBS) as u32, le::u32_at(bytes, 12))
}

// The call at an index, of a history.
pub(crate) fn history_call(calls: &[u8], at: usize) -> Call {
    let bytes = record::from(calls, at);
    call_of(bytes, le::u32_at(bytes, 12), 0)
}

fn level(digit: u8) -> Option<bool> {
    match digit {
        0 => None,
        1 => Some(false),
        _ => Some(true),
    }
}

pub(crate) fn levels(n: u8) -> SdrrCsSet {
    SdrrCsSet {
        cs1: level(n % 3),
        cs2: level(n / 3 % 3),
        cs3: level(n / 9 % 3),
        x1: level(n / 27 % 3),
        x2: level(n / 81 % 3),
    }
}

// A refusal's number with 0, or 0 and the value.
fn uncounted(answer: Result<u32, Refusal>) -> Reply {
    match answer {
        Ok(value) => Reply {
            number: 0,
            value,
            count: 0,
        },
        Err(refusal) => Reply {
            number: refusal.number(),
            value: 0,
            count: 0,
        },
    }
}

fn mangle(board: Board, sets: &[u32], roms: &[u32], call: Call) -> Reply {
    let pins = board.pins;
    uncounted(info::mangle_address(
        pins,
        board.served,
        sets,
        roms,
        call.address,
        levels(call.levels),
    ))
}

fn demangle(board: Board, call: Call) -> Reply {
    let pins = board.pins;
    uncounted(info::demangle_byte(pins, (call.address % 256) as u8).map(|byte| byte as u32))
}

fn size(board: Board, sets: &[u32], call: Call) -> Reply {
    uncounted(set_data::get_rom_set_size(board.served, sets, call.set))
}

fn same(board: Board, sets: &[u32], roms: &[u32], call: Call) -> Reply {
    let lent = LentRows {
        set_rows: sets,
        rom_rows: roms,
    };
    let same = same_set::same_set(board.served, lent, call.set, call.address);
    uncounted(same.map(|b| b as u32))
}

fn run(
    image: &[u8],
    board: Board,
    sets: &[u32],
    roms: &[u32],
    call: Call,
    buffer: &mut [u8],
    counts: &mut [u32; JOBS],
) -> Reply {
    let kind = call.kind;
    match kind {
        0 => mangle(board, sets, roms, call),
        1 => demangle(board, call),
        2 => size(board, sets, call),
        3 => same(board, sets, roms, call),
        _ => reads::read(image, board, sets, roms, call, buffer, counts),
    }
}

// A call on the counts as they are, and its reply.
pub(crate) fn run_shown(
    rt: &impl Print,
    image: &[u8],
    board: Board,
    sets: &[u32],
    roms: &[u32],
    call: Call,
    counts: &mut [u32; JOBS],
) -> io::Result<()> {
    let mut space = words::byte_space();
    let n = call.length as usize;
    if 4096 < n {
        return Ok(());
    }
    let r = run(image, board, sets, roms, call, &mut space[..n], counts);
    show::first(rt, r.number as u32)?;
    show::next(rt, r.value)?;
    if 3 < call.kind {
        show::next(rt, r.count)?;
    }
    Ok(())
}
