// What the cuts of a board came to, counted.
use super::calls::Reply;
use super::{show, words};
use std::io;

// Cuts refused as ended, cuts that show the whole's report and rows, cuts with an item that is ended, reads that a cut accepted, cuts and
// reads of which demand 3 does not hold; and a sum over all answers.
#[derive(Clone, Copy)]
pub(crate) struct Tally {
    sum: u32,
    refused: u32,
    equal: u32,
    ended: u32,
    reads: u32,
    failed: u32,
}

// Of the opening of a cut: its number, whether the cut is shorter than the reach, whether demand 3 holds, and a sum over the answer.
#[derive(Clone, Copy)]
pub(crate) struct Verdict {
    pub(crate) number: u8,
    pub(crate) below: bool,
    pub(crate) held: bool,
    pub(crate) sum: u32,
}

pub(crate) fn none() -> Tally {
    Tally {
        sum: 1,
        refused: 0,
        equal: 0,
        ended: 0,
        reads: 0,
        failed: 0,
    }
}

fn one_more(n: u32, more: bool) -> u32 {
    if n == 4294967295 {
        return n;
    }
    if more {
        return n + 1;
    }
    n
}

pub(crate) fn with_cut(t: Tally, v: Verdict) -> Tally {
    let opens = v.number == 0;
    Tally {
        sum: words::mix(t.sum, v.sum),
        refused: one_more(t.refused, !opens),
        equal: one_more(t.equal, base::both(opens, !v.below)),
        ended: one_more(t.ended, base::both(opens, v.below)),
        reads: t.reads,
        failed: one_more(t.failed, !v.held),
    }
}

// A read's reply on a cut, and whether demand 3 holds.
pub(crate) fn with_read(t: Tally, r: Reply, held: bool) -> Tally {
    Tally {
        sum: words::mix(
            words::mix(t.sum, r.number as u32),
            words::mix(r.value, r.count),
        ),
        refused: t.refused,
        equal: t.equal,
        ended: t.ended,
        reads: one_more(t.reads, r.number == 0),
        failed: one_more(t.failed, !held),
    }
}

pub(crate) fn show(rt: &impl Print, t: Tally, cuts: u32) -> io::Result<()> {
    if t.failed == 0 {
        print!(rt; "demand 3 holds:")?;
    } else {
        print!(rt; "demand 3 FAILS:")?;
    }
    show::next(rt, t.failed)?;
    show::next(rt, cuts)?;
    show::next(rt, t.refused)?;
    show::next(rt, t.ended)?;
    show::next(rt, t.equal)?;
    show::next(rt, t.reads)?;
    show::next(rt, t.sum)?;
    show::end(rt)
}
