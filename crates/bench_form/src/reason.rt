// What the number of a refusal means, in plain words.
use std::fmt;

// By its number, as reports and rows hold it and a script is shown it. The documents' numbers are below 100, the bench's own from there on.
#[derive(Clone, Copy, PartialEq, Eq)]
pub struct Reason(pub u8);

impl Reason {
    pub const EMPTY: Reason = Reason(114);

    pub const NOT_WRITTEN: Reason = Reason(115);

    pub const OTHER_PROGRAM: Reason = Reason(119);

    pub fn is_of_documents(self) -> bool {
        self.0 < 100
    }
}

impl fmt::Display for Reason {
    fn fmt<W: fmt::Write>(&self, f: &mut fmt::Formatter<W>) -> fmt::Result {
        f.write_str(match self.0 {
            0..=39 => opening(self.0),
            40..=69 => sets(self.0),
            70..=99 => reading(self.0),
            _ => bench(self.0),
        })
    }
}

fn opening(number: u8) -> &'static str {
    match number {
        1 => "from its base the dump would reach past address 0xffffffff",
        2 => "not all of it lies within the dump",
        3 => "its address is below the dump's base",
        4 => "a row that is needed is missing, or its type is unknown",
        10 => "no info header (SDRR) at the info offset",
        11 => "the microcontroller line is unknown",
        12 => "the storage code is unknown",
        13 => "the firmware is 0.7.0 or later, which is not known here",
        20 => "no end of the text within 1,024 bytes",
        21 => "the text is not UTF-8",
        30 => "metadata does not start with ONEROM_METADATA",
        31 => "metadata's version is not 1",
        32 => "metadata counts sets, but gives no address",
        _ => "",
    }
}

fn sets(number: u8) -> &'static str {
    match number {
        40 => "a set's serving is unknown",
        41 => "a set's multi-ROM state is unknown",
        42 => "a ROM's type is unknown",
        43 => "a ROM's chip-select state is unknown",
        44 => "more sets than there are rows for (255)",
        45 => "more ROMs than there are rows for (4,096)",
        50 => "a port of the pins is unknown",
        _ => "",
    }
}

fn reading(number: u8) -> &'static str {
    match number {
        70 => "the pins are refused, and this read needs them",
        71 => "the board serves no set",
        72 => "X1 or X2 is not on one of the sixteen pins that are read",
        73 => "X1 or X2 is at a pin that an address line has",
        74 => "the set that governs has no ROM",
        75 => "the governing set's first ROM is of a type that logical reads do not cover",
        76 => "a control pin of the type is not on one of the sixteen pins that are read",
        77 => "the address is above the ROM's last",
        78 => "logical reads do not cover a 28C16",
        79 => "a data pin is at 8 or above",
        80 => "there is no such set",
        81 => "the read goes past the set's size",
        82 => "the count of bytes served would pass 4,294,967,295",
        83 => "there is no such job",
        _ => "",
    }
}

fn bench(number: u8) -> &'static str {
    match number {
        100 => "an argument is too long",
        101 => "no such option; bench help lists them",
        102 => "this option needs a value after it",
        103 => "no such command: it is read, raw, byte or help",
        104 => "it needs a SET, and byte an ADDRESS too",
        105 => "one argument too many",
        106 => "not a number from 0 to 4294967295, decimal or 0x..",
        107 => "not levels, as cs1=1,x2=0 (of cs1 cs2 cs3 x1 x2), or low",
        108 => "there is no such file",
        109 => "it is a directory",
        110 => "it may not be read",
        111 => "it cannot be read",
        112 => "larger than 2 MiB; its start is enough: head -c 2097152",
        114 => "the file is empty",
        115 => "the bytes could not all be written",
        116 => "it needs a FILE in front, or - for standard input",
        117 => "a UF2 file, no dump: unpack it first, as with uf2conv.py",
        118 => "an ELF file, no dump: make one first, as with objcopy -O binary",
        119 => "another program answers this; ./bench runs the right one",
        _ => "",
    }
}
