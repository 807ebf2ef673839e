// An opened board as later calls are given it: where its image stands, and of its report the line, the sets served and the pins that reads
// look at. Its rows are lent beside it.
#![tactic(auto)]

ghost use Rattle.std.specs.Prelude.{◌≡◌};
ghost use Rattle.board.specs.Board.{board_pins};

use pins::PinsItem;
use types::McuLine;

// The number of the pins item, and the 32 bytes of its record that mangling and demangling look at.
#[derive(Clone, Copy)]
pub struct BoardPins {
    pub number: u8,
    pub rom_pins: u8,
    pub data: [u8; 8],
    pub addr: [u8; 16],
    pub cs1: u8,
    pub cs2: u8,
    pub cs3: u8,
    pub x1: u8,
    pub x2: u8,
    pub ce: u8,
    pub oe: u8,
}

#[derive(Clone, Copy)]
pub struct Board {
    pub flash_base: u32,
    pub cs0_base: u32,
    pub line: McuLine,
    pub pins: BoardPins,
    pub served: u32,
}

#[tactic(auto, unfolding(crate::specs::Board::board_pins))]
pub fn board_pins(item: PinsItem) -> BoardPins
    ensures { result ≡ board_pins item }
{
    let pins = item.pins;
    let data = pins.data;
    let addr = pins.addr;
    BoardPins {
        number: item.number,
        rom_pins: pins.rom_pins,
        data,
        addr,
        cs1: pins.cs1,
        cs2: pins.cs2,
        cs3: pins.cs3,
        x1: pins.x1,
        x2: pins.x2,
        ce: pins.ce,
        oe: pins.oe,
    }
}
