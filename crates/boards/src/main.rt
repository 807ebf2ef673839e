// Runs the boards of tests/model/make_boards.py: a board to a record of standard input, its answers to lines of standard output, which
// `rt check` compares with the expected lines beside it.
#![tactic(auto)]

mod calls;
mod cut_reads;
mod cuts;
mod lent;
mod lines;
mod opened;
mod packed;
mod reads;
mod record;
mod report;
mod show;
mod tally;
mod words;

ghost use Rattle.std.specs.Prelude.{◌≤◌, length, IfOk};

use std::io;
use std::io::Read;

// Reads until the space is full or the input ends.
fn read_full(input: &mut impl Read, space: &mut [u8]) -> io::Result<usize>
    ensures { IfOk result (λ n. n ≤ length space.new) }
{
    let mut done = 0;
    while done < space.len() {
        let more = input.read(&mut space[done..])?;
        if more == 0 {
            break;
        }
        done += more;
    }
    Ok(done)
}

// The next record's length; 0 at the end of the input, or where the record does not fit.
fn read_record(input: &mut impl Read, space: &mut [u8]) -> io::Result<usize> {
    let mut head = [0u8; 4];
    let got = read_full(input, &mut head)?;
    if got < 4 {
        return Ok(0);
    }
    let n = le::u32_at(&head, 0) as usize;
    if space.len() < n {
        return Ok(0);
    }
    read_full(input, &mut space[..n])
}

fn run_rows(rt: &impl Print, given: &[u8], sets: &mut [u32], roms: &mut [u32]) -> io::Result<()> {
    if record::is_lent(given) {
        lent::run(rt, given, sets, roms)
    } else {
        opened::run(rt, given, sets, roms)
    }
}

// The rows have the lengths in words 4 and 5.
fn run_record(rt: &impl Print, given: &[u8], sets: &mut [u32], roms: &mut [u32]) -> io::Result<()> {
    let n = record::word(given, 4) as usize;
    let m = record::word(given, 5) as usize;
    if sets.len() < n {
        return Ok(());
    }
    if roms.len() < m {
        return Ok(());
    }
    run_rows(rt, given, &mut sets[..n], &mut roms[..m])
}

fn run_packed(rt: &impl Print, packed: &[u8], roms: &mut [u32]) -> io::Result<()> {
    let mut given = words::input_space();
    let n = packed::unpack(&mut given, packed);
    let mut sets = words::set_space();
    run_record(rt, record::part(&given, 0, n), &mut sets, roms)
}

// Runs the next record, and says whether there was one.
fn run_next(rt: &impl Print, input: &mut impl Read, roms: &mut [u32]) -> io::Result<bool> {
    let mut space = words::input_space();
    let n = read_record(input, &mut space)?;
    if n == 0 {
        return Ok(false);
    }
    run_packed(rt, record::part(&space, 0, n), roms)?;
    Ok(true)
}

// Records to the end of the input, or so many.
fn run_all(rt: &impl Print, input: &mut impl Read, roms: &mut [u32]) -> io::Result<()> {
    for _ in 0..1000000 {
        if !run_next(rt, input, roms)? {
            return Ok(());
        }
    }
    Ok(())
}

// Every board is lent the same rows.
fn main(rt: HostRuntime) -> io::Result<()> {
    let mut roms = words::rom_space();
    run_all(&rt, &mut rt.reader(), &mut roms)
}
