// The sets and their ROMs, for a person or for a script.
#![tactic(auto)]

mod same;

use bench_form::{Count, Reason, RomType};
use bench_out::{Out, Shown};
use bench_rows::Opened;
use rows::{RomWord, SetWord};
use sets_item::SetsItem;
use std::fmt;
use std::fmt::Write;

// Why a ROM has no name, by the number in its row: here 1 says that no pointer leads to one.
#[derive(Clone, Copy)]
struct Nameless(u8);

impl fmt::Display for Nameless {
    fn fmt<W: fmt::Write>(&self, f: &mut fmt::Formatter<W>) -> fmt::Result {
        match self.0 {
            1 => f.write_str("none is stored"),
            number => write!(f, "{}", Reason(number)),
        }
    }
}

fn no_name(out: &mut Out, set: u32, k: u32, number: u8) -> fmt::Result {
    let why = Nameless(number);
    if out.is_script() {
        writeln!(out, "set.{set}.rom.{k}.name.number {number}")?;
        return writeln!(out, "set.{set}.rom.{k}.name.reason {why}");
    }
    write!(out, "no name ({number}: {why})\n         ")
}

// For a person the name's width stands on the line below, in front of the chip selects: the name itself can end in anything.
fn rom_name(out: &mut Out, opened: Opened, set: u32, k: u32, row: u32) -> fmt::Result {
    let name = match opened.name(row) {
        Ok(name) => name,
        Err(number) => return no_name(out, set, k, number),
    };
    let width = name.width;
    let shown = Shown(opened.bytes(name.part));
    if out.is_script() {
        write!(
            out,
            "set.{set}.rom.{k}.name.number 0\nset.{set}.rom.{k}.name.text {shown}\n"
        )?;
        return writeln!(out, "set.{set}.rom.{k}.name.width {width}");
    }
    write!(
        out,
        "file {shown}\n         {}; ",
        Count(width, "character")
    )
}

// For a person the chip selects end the line below the name.
fn rom(out: &mut Out, opened: Opened, set: u32, k: u32) -> fmt::Result {
    let row = opened.rom_row(set, k);
    let rom_type = RomType(types::rom_type_of(opened.rom_word(row, RomWord::Type)));
    let cs1 = opened.rom_word(row, RomWord::Cs1);
    let cs2 = opened.rom_word(row, RomWord::Cs2);
    let cs3 = opened.rom_word(row, RomWord::Cs3);
    if out.is_script() {
        writeln!(out, "set.{set}.rom.{k}.type {rom_type}")?;
        for (n, cs) in [(1, cs1), (2, cs2), (3, cs3)] {
            writeln!(
                out,
                "set.{set}.rom.{k}.cs{n} {}",
                bench_form::select_word(cs)
            )?;
        }
        return rom_name(out, opened, set, k, row);
    }
    write!(out, "  ROM {k}: {rom_type}, ")?;
    rom_name(out, opened, set, k, row)?;
    let cs1 = bench_form::select(cs1);
    let cs2 = bench_form::select(cs2);
    let cs3 = bench_form::select(cs3);
    writeln!(out, "CS1 {cs1}, CS2 {cs2}, CS3 {cs3}")
}

fn roms(out: &mut Out, opened: Opened, set: u32) -> fmt::Result {
    for k in 0..opened.set_word(set, SetWord::RomCount) {
        rom(out, opened, set, k)?;
    }
    Ok(())
}

// The set's lines for a script. data: why the dump does not hold its bytes, or 0.
fn set_for_script(out: &mut Out, opened: Opened, set: u32, data: u8) -> fmt::Result {
    let size = opened.set_word(set, SetWord::Size);
    let at = opened.set_word(set, SetWord::DataPointer);
    write!(
        out,
        "set.{set}.size {size}\nset.{set}.data {at:#010x}\nset.{set}.data.number {data}\n"
    )?;
    if data != 0 {
        writeln!(out, "set.{set}.data.reason {}", Reason(data))?;
    }
    let serve = opened.set_word(set, SetWord::Serve);
    let state = opened.set_word(set, SetWord::State);
    write!(
        out,
        "set.{set}.serve {serve}\nset.{set}.multi_rom_state {state}\n"
    )?;
    let config = opened.set_word(set, SetWord::Config);
    let overrides = opened.set_word(set, SetWord::Overrides);
    let count = opened.set_word(set, SetWord::RomCount);
    write!(
        out,
        "set.{set}.config {config:#010x}\nset.{set}.overrides {overrides:#010x}\n"
    )?;
    writeln!(out, "set.{set}.roms {count}")
}

// For a person: further lines where a set has several ROMs, or the dump does not hold all of its bytes.
fn set_for_person(out: &mut Out, opened: Opened, set: u32, data: u8) -> fmt::Result {
    let size = opened.set_word(set, SetWord::Size);
    let at = opened.set_word(set, SetWord::DataPointer);
    let count = opened.set_word(set, SetWord::RomCount);
    let serving = bench_form::serving(opened.set_word(set, SetWord::Serve));
    write!(out, "set {set}: {size} bytes at {at:#010x}, ")?;
    writeln!(out, "{}, serving {serving}", Count(count, "ROM"))?;
    if 1 < count {
        let state = bench_form::select(opened.set_word(set, SetWord::State));
        writeln!(out, "  multi-ROM set, CS1 {state}")?;
    }
    if data != 0 {
        writeln!(out, "  its data: refused with {data}: {}", Reason(data))?;
    }
    Ok(())
}

// Whether the set's bytes run past the dump's end.
fn set(out: &mut Out, opened: Opened, set: u32) -> Result<bool, fmt::Error> {
    let data = opened.stored(set).err().unwrap_or(0);
    if out.is_script() {
        set_for_script(out, opened, set, data)?;
    } else {
        set_for_person(out, opened, set, data)?;
    }
    roms(out, opened, set)?;
    if out.is_script() {
        same::line(out, opened, set)?;
    }
    Ok(data == 2)
}

// For a person: a line for each set that is the same as an earlier one, and what that means; or one that says that none are.
fn same_lines(out: &mut Out, opened: Opened) -> fmt::Result {
    writeln!(out)?;
    let mut is_any = false;
    for i in 0..opened.board.served {
        is_any |= same::line(out, opened, i)?;
    }
    if is_any {
        writeln!(out, "(the same: size, ROM count, serving and types agree)")
    } else {
        writeln!(
            out,
            "no two sets are the same in size, ROM count, serving and types"
        )
    }
}

// A refused walk keeps the count and serves none. is_lost: metadata, which lists the sets, is refused.
pub fn count(out: &mut Out, sets: SetsItem, is_lost: bool) -> fmt::Result {
    let number = sets.number;
    let counted = sets.rom_set_count;
    let served = sets.served;
    if out.is_script() {
        writeln!(out, "sets.number {number}")?;
        if number != 0 {
            writeln!(out, "sets.reason {}", Reason(number))?;
        }
        return write!(out, "sets.count {counted}\nsets.served {served}\n");
    }
    if number != 0 {
        writeln!(
            out,
            "Sets               refused with {number}: {}",
            Reason(number)
        )?;
        writeln!(out, "                   counted {counted}, served none")
    } else if is_lost {
        writeln!(out, "Sets               none can be found without metadata")
    } else {
        writeln!(out, "Sets               {counted}")
    }
}

// Whether a set's bytes run past the dump's end.
pub fn sets(out: &mut Out, opened: Opened) -> Result<bool, fmt::Error> {
    let served = opened.board.served;
    if served == 0 {
        return Ok(false);
    }
    if !out.is_script() {
        writeln!(out)?;
    }
    let mut is_cut = false;
    for i in 0..served {
        is_cut |= set(out, opened, i)?;
    }
    if 1 < served && !out.is_script() {
        same_lines(out, opened)?;
    }
    Ok(is_cut)
}
