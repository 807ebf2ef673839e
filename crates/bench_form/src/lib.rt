// What the bench shows of a board, in its own words: pins, counts, names and states.
#![tactic(auto)]

mod names;
mod reason;

pub use names::{Line, Port, RomType, Storage, kib, select, select_word, serving};
pub use reason::Reason;
use std::fmt;

// A pin's number; - for 255, which is none.
#[derive(Clone, Copy)]
pub struct Pin(pub u8);

impl fmt::Display for Pin {
    fn fmt<W: fmt::Write>(&self, f: &mut fmt::Formatter<W>) -> fmt::Result {
        match self.0 {
            255 => f.write_str("-"),
            n => write!(f, "{n}"),
        }
    }
}

// Pins in a row, with a blank before each.
#[derive(Clone, Copy)]
pub struct Pins<'a>(pub &'a [u8]);

impl fmt::Display for Pins<'_> {
    fn fmt<W: fmt::Write>(&self, f: &mut fmt::Formatter<W>) -> fmt::Result {
        for pin in self.0 {
            write!(f, " {}", Pin(*pin))?;
        }
        Ok(())
    }
}

// Numbers in a row, with a blank before each.
#[derive(Clone, Copy)]
pub struct Numbers<'a>(pub &'a [u8]);

impl fmt::Display for Numbers<'_> {
    fn fmt<W: fmt::Write>(&self, f: &mut fmt::Formatter<W>) -> fmt::Result {
        for n in self.0 {
            write!(f, " {n}")?;
        }
        Ok(())
    }
}

// "1 ROM", "2 ROMs": a count, and the word for one.
#[derive(Clone, Copy)]
pub struct Count(pub u32, pub &'static str);

impl fmt::Display for Count {
    fn fmt<W: fmt::Write>(&self, f: &mut fmt::Formatter<W>) -> fmt::Result {
        let n = self.0;
        let one = self.1;
        match n {
            1 => write!(f, "1 {one}"),
            _ => write!(f, "{n} {one}s"),
        }
    }
}

pub fn on_off(is_on: bool) -> &'static str {
    if is_on { "on" } else { "off" }
}
