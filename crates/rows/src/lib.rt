// The words of rows as lent, by name: a caller writes no number for a place or a width.
#![tactic(auto)]

ghost use Rattle.std.specs.Prelude.{◌≡◌, ◌+◌, ◌*◌, get_or};
ghost use Rattle.rows.specs.LentRows.{has_set_row, set_place, rom_place, set_word, has_rom_row, rom_word};

// How many words a set row has.
pub const SET_WORDS: usize = 8;

// How many words a ROM row has.
pub const ROM_WORDS: usize = 8;

// The words of a set row. A word's discriminant is its place in the row.
#[derive(Clone, Copy, Debug, PartialEq, Eq)]
pub enum SetWord {
    DataPointer = 0,
    Size = 1,
    FirstRom = 2,
    RomCount = 3,
    Serve = 4,
    State = 5,
    Config = 6,
    Overrides = 7,
}

// The words of a ROM row. A word's discriminant is its place in the row.
#[derive(Clone, Copy, Debug, PartialEq, Eq)]
pub enum RomWord {
    Type = 0,
    Cs1 = 1,
    Cs2 = 2,
    Cs3 = 3,
    NameOffset = 4,
    NameLength = 5,
    NameReason = 6,
    NameWidth = 7,
}

// A word past the end counts as 0.
fn word_at(words: &[u32], at: usize) -> u32
    ensures { result ≡ get_or words.now at 0 }
{
    words.get(at).copied().unwrap_or(0)
}

impl SetWord {
    // The place in its row.
    fn place(self) -> usize
        ensures { result ≡ set_place self }
    {
        self as usize
    }
}

impl RomWord {
    // The place in its row.
    fn place(self) -> usize
        ensures { result ≡ rom_place self }
    {
        self as usize
    }
}

pub fn has_set_row(set_rows: &[u32], set: u32) -> bool
    ensures { result ≡ has_set_row set_rows.now set }
{
    SET_WORDS * (set as usize) + SET_WORDS <= set_rows.len()
}

pub fn set_word(set_rows: &[u32], set: u32, word: SetWord) -> u32
    ensures { result ≡ set_word set_rows.now set word }
{
    word_at(set_rows, SET_WORDS * (set as usize) + word.place())
}

pub fn has_rom_row(rom_rows: &[u32], row: u32) -> bool
    ensures { result ≡ has_rom_row rom_rows.now row }
{
    ROM_WORDS * (row as usize) + ROM_WORDS <= rom_rows.len()
}

pub fn rom_word(rom_rows: &[u32], row: u32, word: RomWord) -> u32
    ensures { result ≡ rom_word rom_rows.now row word }
{
    word_at(rom_rows, ROM_WORDS * (row as usize) + word.place())
}

// The set rows and the ROM rows of a board, as lent to one call. A call that is lent only one of the two goes by the functions above.
#[derive(Clone, Copy)]
pub struct LentRows<'a> {
    pub set_rows: &'a [u32],
    pub rom_rows: &'a [u32],
}

impl<'a> LentRows<'a> {
    // Whether a set's whole row is among those lent.
    pub fn has_set_row(self, set: u32) -> bool
        ensures { result ≡ has_set_row self.entry.set_rows.now set }
    {
        has_set_row(self.set_rows, set)
    }

    // A word of a set's row; past the end 0.
    pub fn set_word(self, set: u32, word: SetWord) -> u32
        ensures { result ≡ set_word self.entry.set_rows.now set word }
    {
        set_word(self.set_rows, set, word)
    }

    // Whether a whole ROM row is among those lent.
    pub fn has_rom_row(self, row: u32) -> bool
        ensures { result ≡ has_rom_row self.entry.rom_rows.now row }
    {
        has_rom_row(self.rom_rows, row)
    }

    // A word of a ROM row; past the end 0.
    pub fn rom_word(self, row: u32, word: RomWord) -> u32
        ensures { result ≡ rom_word self.entry.rom_rows.now row word }
    {
        rom_word(self.rom_rows, row, word)
    }
}
