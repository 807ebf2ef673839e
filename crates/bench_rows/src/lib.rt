// An opened board, its report's rows beside it: what is looked up in them, and where the dump holds a set.
#![tactic(auto)]

ghost use Rattle.std.specs.Prelude.{◌≡◌, ◌*◌, length};
ghost use Rattle.rows.specs.LentRows.{set_row_length, rom_row_length};

use board::Board;
use rows::{RomWord, SetWord};
use text::Text;

// Rows for 255 sets, and for 4,096 ROMs. The contracts give the lengths alone.
pub fn set_space() -> [u32; 255 * rows::SET_WORDS]
    ensures { 255 * set_row_length ≡ length result }
{
    [0; 255 * rows::SET_WORDS]
}

pub fn rom_space() -> [u32; 4096 * rows::ROM_WORDS]
    ensures { 4096 * rom_row_length ≡ length result }
{
    [0; 4096 * rows::ROM_WORDS]
}

// A part of the dump.
#[derive(Clone, Copy, PartialEq, Eq)]
pub struct Part {
    pub at: u32,
    pub length: u32,
}

// A ROM's name, and its width.
#[derive(Clone, Copy)]
pub struct Name {
    pub part: Part,
    pub width: u32,
}

#[derive(Clone, Copy)]
pub struct Opened<'a> {
    pub image: &'a [u8],
    pub board: Board,
    pub set_rows: &'a [u32],
    pub rom_rows: &'a [u32],
}

impl<'a> Opened<'a> {
    pub fn set_word(self, set: u32, word: SetWord) -> u32 {
        rows::set_word(self.set_rows, set, word)
    }

    pub fn rom_word(self, row: u32, word: RomWord) -> u32 {
        rows::rom_word(self.rom_rows, row, word)
    }

    // The row of a set's ROM k.
    pub fn rom_row(self, set: u32, k: u32) -> u32 {
        self.set_word(set, SetWord::FirstRom).saturating_add(k)
    }

    // A ROM's name; or the number of why it is missing.
    pub fn name(self, row: u32) -> Result<Name, u8> {
        let number = self.rom_word(row, RomWord::NameReason);
        if number != 0 {
            return Err((number % 256) as u8);
        }
        let part = Part {
            at: self.rom_word(row, RomWord::NameOffset),
            length: self.rom_word(row, RomWord::NameLength),
        };
        let width = self.rom_word(row, RomWord::NameWidth);
        Ok(Name { part, width })
    }

    // Where the dump holds all of a set's bytes; or the number that a read of them is refused with.
    pub fn stored(self, set: u32) -> Result<Part, u8> {
        let board = self.board;
        let line = board.line;
        let base = window::base_after(board.flash_base, board.cs0_base, line);
        let data = set_data::set_data(board.served, self.set_rows, set);
        let n = data.size as usize;
        let found = set_data::find(self.image, base, data, 0, n);
        if found.number != 0 {
            return Err(found.number);
        }
        Ok(Part {
            at: found.at as u32,
            length: data.size,
        })
    }

    // The bytes of a part; of one that the dump ends before, none.
    pub fn bytes(self, part: Part) -> &'a [u8] {
        let text = Text {
            number: 0,
            offset: part.at,
            length: part.length,
            width: 0,
        };
        text::string_part(self.image, text)
    }
}
