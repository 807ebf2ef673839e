// Which sets are the same as which, by the library's same-set call; and beside its answer, what their names and bytes show.
use bench_out::Out;
use bench_rows::{Opened, Part};
use rows::{LentRows, SetWord};
use std::fmt;
use std::fmt::Write;

// What a look at names or bytes says. NotHeld, of bytes alone: the dump does not hold them all.
#[derive(Clone, Copy)]
enum Compared {
    Equal,
    Differ,
    NotHeld,
}

impl Compared {
    fn of(is_equal: bool) -> Compared {
        if is_equal {
            Compared::Equal
        } else {
            Compared::Differ
        }
    }

    // For a script.
    fn word(self) -> &'static str {
        match self {
            Compared::Equal => "equal",
            Compared::Differ => "differ",
            Compared::NotHeld => "not_held",
        }
    }
}

// For a person.
impl fmt::Display for Compared {
    fn fmt<W: fmt::Write>(&self, f: &mut fmt::Formatter<W>) -> fmt::Result {
        f.write_str(match self {
            Compared::Equal => "equal",
            Compared::Differ => "differ",
            Compared::NotHeld => "not all in the dump",
        })
    }
}

fn is_same(opened: Opened, a: u32, b: u32) -> bool {
    let rows = LentRows {
        set_rows: opened.set_rows,
        rom_rows: opened.rom_rows,
    };
    same_set::same_set(opened.board.served, rows, a, b) == Ok(true)
}

// The first set before this one that is the same as it.
fn first_same(opened: Opened, set: u32) -> Option<u32> {
    (0..set).find(|a| is_same(opened, *a, set))
}

// One part is not looked through.
fn is_equal(opened: Opened, a: Part, b: Part) -> bool {
    a == b || opened.bytes(a) == opened.bytes(b)
}

// A missing name equals a missing one.
fn is_equal_name(opened: Opened, a: u32, b: u32, k: u32) -> bool {
    let one = opened.name(opened.rom_row(a, k));
    let other = opened.name(opened.rom_row(b, k));
    match (one, other) {
        (Ok(one), Ok(other)) => is_equal(opened, one.part, other.part),
        (Err(_), Err(_)) => true,
        _ => false,
    }
}

// The names of the ROMs of two sets that are the same, and so have equally many.
fn names(opened: Opened, a: u32, b: u32) -> Compared {
    let count = opened.set_word(a, SetWord::RomCount);
    Compared::of((0..count).all(|k| is_equal_name(opened, a, b, k)))
}

fn bytes(opened: Opened, a: u32, b: u32) -> Compared {
    match (opened.stored(a), opened.stored(b)) {
        (Ok(one), Ok(other)) => Compared::of(is_equal(opened, one, other)),
        _ => Compared::NotHeld,
    }
}

// A set, and the first that it is the same as. Whether there is one.
pub(crate) fn line(out: &mut Out, opened: Opened, set: u32) -> Result<bool, fmt::Error> {
    let Some(first) = first_same(opened, set) else {
        return Ok(false);
    };
    let names = names(opened, first, set);
    let bytes = bytes(opened, first, set);
    if out.is_script() {
        let names = names.word();
        let bytes = bytes.word();
        writeln!(out, "set.{set}.same_as {first}")?;
        write!(
            out,
            "set.{set}.same_as.names {names}\nset.{set}.same_as.bytes {bytes}\n"
        )?;
    } else {
        write!(out, "sets {first} and {set} are the same ")?;
        writeln!(out, "(names {names}; stored bytes {bytes})")?;
    }
    Ok(true)
}
