// The words that are no options: [FILE], or FILE COMMAND SET [ADDRESS] [LEVELS].
use crate::Command;
use crate::levels::Levels;
use crate::reason::{Reason, Refused};
use std::str;

// A number: decimal, or hexadecimal after 0x or 0X. A sign, which the library's call would take, belongs to none.
pub(crate) fn number(at: usize, word: &[u8]) -> Result<u32, Refused> {
    let (digits, radix) = match word {
        [b'0', b'x' | b'X', digits @ ..] => (digits, 16),
        _ => (word, 10),
    };
    match str::from_utf8(digits) {
        Ok(text) if !text.starts_with('+') => u32::from_str_radix(text, radix).ok(),
        _ => None,
    }
    .ok_or(Refused::about(at, Reason::NotANumber))
}

fn levels(at: usize, word: &[u8]) -> Result<Levels, Refused> {
    Levels::parse(word).ok_or(Refused::about(at, Reason::NotLevels))
}

// What the words so far are. A command is kept with the argument that it is.
#[derive(Clone, Copy, Debug, PartialEq, Eq)]
pub(crate) enum Words {
    Nothing,
    File,
    Read(usize),
    ReadSet { set: u32 },
    Raw(usize),
    Byte(usize),
    ByteSet { at: usize, set: u32 },
    ByteAddress { set: u32, address: u32 },
    // nothing may follow it
    Whole(Command),
}

impl Words {
    pub(crate) fn command(at: usize, word: &[u8]) -> Option<Words> {
        match word {
            b"read" => Some(Words::Read(at)),
            b"raw" => Some(Words::Raw(at)),
            b"byte" => Some(Words::Byte(at)),
            b"help" => Some(Words::Whole(Command::Help)),
            _ => None,
        }
    }

    // With a word more. FILE, which may be any word, is not looked for.
    pub(crate) fn with(self, at: usize, word: &[u8]) -> Result<Words, Refused> {
        match self {
            Words::Nothing | Words::File => {
                Words::command(at, word).ok_or(Refused::about(at, Reason::NoSuchCommand))
            }
            Words::Read(_) => Ok(Words::ReadSet {
                set: number(at, word)?,
            }),
            Words::ReadSet { set } => Ok(Words::Whole(Command::Read {
                set,
                levels: levels(at, word)?,
            })),
            Words::Raw(_) => Ok(Words::Whole(Command::Raw {
                set: number(at, word)?,
            })),
            Words::Byte(command) => Ok(Words::ByteSet {
                at: command,
                set: number(at, word)?,
            }),
            Words::ByteSet { set, .. } => Ok(Words::ByteAddress {
                set,
                address: number(at, word)?,
            }),
            Words::ByteAddress { set, address } => Ok(Words::Whole(Command::Byte {
                set,
                address,
                levels: levels(at, word)?,
            })),
            Words::Whole(_) => Err(Refused::about(at, Reason::TooMany)),
        }
    }

    // Whether bytes are asked for.
    pub(crate) fn is_bytes(self) -> bool {
        matches!(
            self,
            Words::Read(_)
                | Words::ReadSet { .. }
                | Words::Raw(_)
                | Words::Whole(Command::Read { .. } | Command::Raw { .. })
        )
    }

    // Whether no command has come.
    pub(crate) fn is_report(self) -> bool {
        matches!(self, Words::Nothing | Words::File)
    }

    // What they ask for; no word that has to follow may be missing.
    pub(crate) fn end(self) -> Result<Command, Refused> {
        let levels = Levels::default();
        match self {
            Words::Nothing | Words::File => Ok(Command::Report),
            Words::Read(at) | Words::Raw(at) | Words::Byte(at) | Words::ByteSet { at, .. } => {
                Err(Refused::about(at, Reason::NoSet))
            }
            Words::ReadSet { set } => Ok(Command::Read { set, levels }),
            Words::ByteAddress { set, address } => Ok(Command::Byte {
                set,
                address,
                levels,
            }),
            Words::Whole(command) => Ok(command),
        }
    }
}
