// Calls on a report and rows as the input lends them.
use super::{lines, record, words};
use board::{Board, BoardPins};
use pins::PinsItem;
use std::io;

// The pins item: the pins of a record of 88 bytes, with a number of its own.
fn pins(bytes: &[u8], number: u8) -> BoardPins {
    let item = pins::pins_item(pins_record::parse_pins(bytes));
    let pins = item.pins;
    board::board_pins(PinsItem { number, pins })
}

fn board(given: &[u8]) -> Board {
    let line = (record::word(given, 3) % 65536) as u16;
    let number = (record::word(given, 9) % 256) as u8;
    Board {
        flash_base: record::word(given, 1),
        cs0_base: record::word(given, 2),
        line: types::line_of(line),
        pins: pins(record::rest(given), number),
        served: record::word(given, 8),
    }
}

// The rows stand behind the pins, and the calls behind the rows.
pub(crate) fn run(
    rt: &impl Print,
    given: &[u8],
    sets: &mut [u32],
    roms: &mut [u32],
) -> io::Result<()> {
    let rows = record::from(record::rest(given), 88);
    let rom_rows = record::from(rows, 4 * (record::word(given, 4) as usize));
    let calls = record::from(rom_rows, 4 * (record::word(given, 5) as usize));
    words::load(sets, rows);
    words::load(roms, rom_rows);
    lines::run(rt, given, board(given), sets, roms, calls)
}
