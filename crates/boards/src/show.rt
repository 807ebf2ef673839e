// Numbers on lines.
use job_counts::JOBS;
use std::io;

pub(crate) fn first(rt: &impl Print, n: u32) -> io::Result<()> {
    print!(rt; "{n}")
}

pub(crate) fn next(rt: &impl Print, n: u32) -> io::Result<()> {
    print!(rt; " {n}")
}

pub(crate) fn end(rt: &impl Print) -> io::Result<()> {
    println!(rt)
}

// Between the answers of a line.
pub(crate) fn gap(rt: &impl Print) -> io::Result<()> {
    print!(rt; ", ")
}

pub(crate) fn words(rt: &impl Print, words: &[u32]) -> io::Result<()> {
    for word in words {
        next(rt, *word)?;
    }
    Ok(())
}

// Eight counts, which end a line.
pub(crate) fn counts(rt: &impl Print, counts: &[u32; JOBS]) -> io::Result<()> {
    first(rt, counts[0])?;
    words(rt, &counts[1..])?;
    end(rt)
}
