// ROM reads, each for a job, on eight counts, of which a read may change its job's alone, to the one that it replies.
use super::calls::{Call, Reply};
use super::{calls, words};
use board::Board;
use info::SdrrAddress;
use job_counts::JOBS;

// Stands for a reply's number where another count has changed, or the job's is not the one replied. No reply has this number.
const WRONG_COUNTS: u8 = 255;

// What the other jobs' counts are beside a call by itself.
const OTHERS: [u32; JOBS] = [
    4294967295, 4294967294, 4294967295, 2147483648, 4294967295, 4294901760, 3000000000, 4294967295,
];

// The counts that a call by itself finds.
pub(crate) fn counts_before(call: Call) -> [u32; JOBS] {
    let mut counts = OTHERS;
    let job = call.job as usize;
    if job < JOBS {
        counts[job] = call.count;
    }
    counts
}

// Whether a reply shows that the counts are as they should be.
pub(crate) fn has_right_counts(r: Reply) -> bool {
    r.number != WRONG_COUNTS
}

// The reply, where the counts after it are those before it, with the one replied in the job's place.
fn checked(r: Reply, call: Call, before: [u32; JOBS], after: &[u32; JOBS]) -> Reply {
    let mut wanted = before;
    let job = call.job as usize;
    if job < JOBS {
        wanted[job] = r.count;
    }
    if words::same_all(&wanted, after) {
        return r;
    }
    Reply {
        number: WRONG_COUNTS,
        value: r.value,
        count: r.count,
    }
}

// Kinds 5 and 6 have a raw address, 7 and 8 a logical one.
fn address(call: Call) -> SdrrAddress {
    if call.kind < 7 {
        return SdrrAddress::Raw(call.address);
    }
    SdrrAddress::Logical(call.address, calls::levels(call.levels))
}

fn data(
    image: &[u8],
    board: Board,
    sets: &[u32],
    call: Call,
    buffer: &mut [u8],
    counts: &mut [u32; JOBS],
) -> Reply {
    words::fill_bytes(buffer);
    let r = job_reads::read_rom_set_data(
        image,
        board,
        sets,
        call.set,
        call.address,
        buffer,
        call.job,
        counts,
    );
    Reply {
        number: r.number,
        value: words::byte_sum(buffer),
        count: r.count,
    }
}

// Kinds 5 to 8; 5 and 7 are demangled.
fn byte(
    image: &[u8],
    board: Board,
    sets: &[u32],
    roms: &[u32],
    call: Call,
    counts: &mut [u32; JOBS],
) -> Reply {
    let a = address(call);
    let r = if call.kind % 2 == 1 {
        job_reads::read_rom_byte_demangled(image, board, sets, roms, call.set, a, call.job, counts)
    } else {
        job_reads::read_rom_byte_raw(image, board, sets, roms, call.set, a, call.job, counts)
    };
    Reply {
        number: r.number,
        value: r.byte as u32,
        count: r.count,
    }
}

fn own(
    image: &[u8],
    board: Board,
    sets: &[u32],
    roms: &[u32],
    call: Call,
    counts: &mut [u32; JOBS],
) -> Reply {
    let r = job_reads::read_rom_byte_own(
        image,
        board,
        sets,
        roms,
        call.set,
        call.address,
        calls::levels(call.levels),
        call.job,
        counts,
    );
    Reply {
        number: r.number,
        value: r.byte as u32,
        count: r.count,
    }
}

fn run(
    image: &[u8],
    board: Board,
    sets: &[u32],
    roms: &[u32],
    call: Call,
    buffer: &mut [u8],
    counts: &mut [u32; JOBS],
) -> Reply {
    if call.kind == 4 {
        return data(image, board, sets, call, buffer, counts);
    }
    if call.kind == 9 {
        return own(image, board, sets, roms, call, counts);
    }
    byte(image, board, sets, roms, call, counts)
}

// A read, into a buffer of the call's length where it is one of several bytes.
pub(crate) fn read(
    image: &[u8],
    board: Board,
    sets: &[u32],
    roms: &[u32],
    call: Call,
    buffer: &mut [u8],
    counts: &mut [u32; JOBS],
) -> Reply {
    let before = *counts;
    let r = run(image, board, sets, roms, call, buffer, counts);
    checked(r, call, before, counts)
}
