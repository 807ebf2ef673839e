// A report that C or Rust hands back, altered or not: the board that reads look at.
#![tactic(auto)]

ghost use Rattle.std.specs.Prelude.{◌≡◌};
ghost use Rattle.c_handed.specs.Handed.{line_in, pins_in, board_in};

use board::{Board, BoardPins};
use c_report::{OneromPins, OneromReport};
use types::McuLine;

// 5 is Rp2350, and no other; which of the others it is, no read looks at.
pub fn line_in(number: u8) -> McuLine
    ensures { result ≡ line_in number }
{
    if number == 5 {
        return McuLine::Rp2350;
    }
    McuLine::F401DE
}

// Of the pins what reads look at.
#[tactic(auto, unfolding(crate::specs::Handed::pins_in))]
pub fn pins_in(held: OneromPins) -> BoardPins
    ensures { result ≡ pins_in held }
{
    let data = held.data;
    let addr = held.addr;
    BoardPins {
        number: held.number,
        rom_pins: held.rom_pins,
        data,
        addr,
        cs1: held.cs1,
        cs2: held.cs2,
        cs3: held.cs3,
        x1: held.x1,
        x2: held.x2,
        ce: held.ce,
        oe: held.oe,
    }
}

// Where the image stands, and what reads look at of a report that is handed back, altered or not.
#[tactic(auto, unfolding(crate::specs::Handed::board_in))]
pub fn board_in(flash_base: u32, cs0_base: u32, report: OneromReport) -> Board
    ensures { result ≡ board_in flash_base cs0_base report }
{
    let header = report.header;
    let rom_sets = report.rom_sets;
    let pins = report.pins;
    Board {
        flash_base,
        cs0_base,
        line: line_in(header.line),
        pins: pins_in(pins),
        served: rom_sets.served,
    }
}
