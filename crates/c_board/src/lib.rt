// What a caller in another language hands over of a board: levels and pins.
#![tactic(auto)]

ghost use Rattle.std.specs.Prelude.{◌≡◌};
ghost use Rattle.c_board.specs.Board.{level_of, levels_from, pins_from};

use board::BoardPins;
use types::SdrrCsSet;

fn level_of(n: u8) -> Option<bool>
    ensures { result ≡ level_of n }
{
    Some(n == 1)
}

pub fn levels_from(levels: [u8; 5]) -> SdrrCsSet
    ensures { result ≡ levels_from levels }
{
    SdrrCsSet {
        cs1: level_of(levels[0]),
        cs2: level_of(levels[1]),
        cs3: level_of(levels[2]),
        x1: level_of(levels[3]),
        x2: level_of(levels[4]),
    }
}

#[tactic(auto, unfolding(crate::specs::Board::pins_from))]
pub fn pins_from(
    number: u8,
    rom_pins: u8,
    data: [u8; 8],
    addr: [u8; 16],
    control: [u8; 7],
) -> BoardPins
    ensures { result ≡ pins_from number rom_pins «data» addr control }
{
    BoardPins {
        number,
        rom_pins,
        data,
        addr,
        cs1: control[0],
        cs2: control[1],
        cs3: control[2],
        x1: control[3],
        x2: control[4],
        ce: control[5],
        oe: control[6],
    }
}
