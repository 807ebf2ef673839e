// The calls of a record, one after the other on a line: each by itself, or all of them a history.
use super::{calls, reads, record, show, words};
use board::Board;
use job_counts::JOBS;
use std::io;

// Each on counts of its own.
fn run_lone(
    rt: &impl Print,
    image: &[u8],
    board: Board,
    sets: &[u32],
    roms: &[u32],
    bytes: &[u8],
) -> io::Result<()> {
    let mut at = 0;
    while 16 <= bytes.len() - at {
        if at != 0 {
            show::gap(rt)?;
        }
        let call = calls::lone_call(bytes, at);
        let mut counts = reads::counts_before(call);
        calls::run_shown(rt, image, board, sets, roms, call, &mut counts)?;
        at += 16;
    }
    show::end(rt)
}

// Each on the counts that the last has left, which are shown at the end.
fn run_history(
    rt: &impl Print,
    image: &[u8],
    board: Board,
    sets: &[u32],
    roms: &[u32],
    bytes: &[u8],
    counts: &mut [u32; JOBS],
) -> io::Result<()> {
    let mut at = 0;
    while 16 <= bytes.len() - at {
        let call = calls::history_call(bytes, at);
        calls::run_shown(rt, image, board, sets, roms, call, counts)?;
        show::gap(rt)?;
        at += 16;
    }
    show::counts(rt, counts)
}

pub(crate) fn run(
    rt: &impl Print,
    given: &[u8],
    board: Board,
    sets: &[u32],
    roms: &[u32],
    calls: &[u8],
) -> io::Result<()> {
    let image = record::image(given);
    if !record::is_history(given) {
        return run_lone(rt, image, board, sets, roms, calls);
    }
    let mut counts = [0u32; JOBS];
    words::load(&mut counts, record::counts(given));
    run_history(rt, image, board, sets, roms, calls, &mut counts)
}
