// The command line of the bench. Options may stand anywhere before --; the words are [FILE] or FILE COMMAND SET [ADDRESS] [LEVELS].
#![tactic(auto)]

pub mod given; // for the library
pub mod levels; // LEVELS
mod options; // options, by their words
pub mod reason; // why it is not understood
mod words; // the words that are no options

use levels::Levels;
use options::{Choice, Flag, Setting, Valued};
use reason::{Reason, Refused};
use std::env::FillError;
use std::rt::Env;
use window::Settings;
use words::Words;

/// What is asked for.
#[derive(Clone, Copy, Debug, PartialEq, Eq)]
pub enum Command {
    Report,
    Read {
        set: u32,
        levels: Levels,
    },
    Raw {
        set: u32,
    },
    Byte {
        set: u32,
        address: u32,
        levels: Levels,
    },
    Help,
}

/// The arguments that name files: FILE, without which it is the sample; the sample that then stands for it; and a link to the file.
#[derive(Clone, Copy, Debug, Default, PartialEq, Eq)]
pub struct FileArguments {
    pub file: Option<usize>,
    pub sample: Option<usize>,
    pub link: Option<usize>,
}

/// What the command line asks for. Where the command is refused, what stands beside it counts too.
#[derive(Clone, Copy)]
pub struct Request {
    pub command: Result<Command, Refused>,
    /// Bytes are asked for: then messages go to standard error.
    pub is_bytes: bool,
    pub machine: bool,
    /// Who calls goes by the exit status alone.
    pub status: bool,
    /// Reads go by set 0's ROMs.
    pub by_set_0: bool,
    pub version: bool,
    pub help: bool,
    pub files: FileArguments,
    pub settings: Settings,
}

// The command line as far as it was read: the words, the option whose value comes next, with its argument, and whether -- was seen.
#[derive(Clone, Copy)]
struct Line {
    request: Request,
    refused: Option<Refused>,
    words: Words,
    waiting: Option<(Valued, usize)>,
    is_ended: bool,
}

impl Line {
    fn new() -> Line {
        Line {
            request: Request {
                command: Ok(Command::Report),
                is_bytes: false,
                machine: false,
                status: false,
                by_set_0: false,
                version: false,
                help: false,
                files: FileArguments::default(),
                settings: Settings {
                    flash_base: 0x08000000,
                    cs0_base: 0x10000000,
                    info_offset: 512,
                },
            },
            refused: None,
            words: Words::Nothing,
            waiting: None,
            is_ended: false,
        }
    }

    fn take_flag(&mut self, flag: Flag) {
        match flag {
            Flag::Machine => self.request.machine = true,
            Flag::Status => self.request.status = true,
            Flag::BySet0 => self.request.by_set_0 = true,
            Flag::Version => self.request.version = true,
            Flag::Help => self.request.help = true,
            Flag::End => self.is_ended = true,
        }
    }

    fn take_setting(&mut self, setting: Setting, at: usize, word: &[u8]) -> Result<(), Refused> {
        let value = words::number(at, word)?;
        self.request.settings = setting.given(self.request.settings, value);
        Ok(())
    }

    fn take_value(&mut self, option: Valued, at: usize, word: &[u8]) -> Result<(), Refused> {
        match option {
            Valued::Setting(setting) => return self.take_setting(setting, at, word),
            Valued::Sample => self.request.files.sample = Some(at),
            Valued::Link => self.request.files.link = Some(at),
        }
        Ok(())
    }

    // Options without a value are seen behind a refusal too: it is answered in that form, and help and version win wherever they stand.
    fn take_option(&mut self, option: Choice, at: usize) -> Result<(), Refused> {
        if let Choice::Flag(flag) = option {
            self.take_flag(flag);
        }
        if self.refused.is_some() {
            return Ok(());
        }
        if let Some((_, before)) = self.waiting {
            return Err(Refused::about(before, Reason::NoValue));
        }
        if let Choice::Valued(valued) = option {
            self.waiting = Some((valued, at));
        }
        Ok(())
    }

    // An option and its number in one argument, as --info-offset=512. Whatever else starts with -- is no option.
    fn take_joined(&mut self, at: usize, word: &[u8]) -> Result<(), Refused> {
        if let Some(end) = word.iter().position(|b| *b == b'=')
            && let Some(setting) = Setting::named(&word[..end])
        {
            return self.take_setting(setting, at, &word[end + 1..]);
        }
        Err(Refused::about(at, Reason::NoSuchOption))
    }

    // A file, or help. Bytes are read from a file that is named, never from the sample.
    fn take_first(&mut self, at: usize, word: &[u8]) -> Result<(), Refused> {
        let Some(words) = Words::command(at, word) else {
            self.request.files.file = Some(at);
            self.words = Words::File;
            return Ok(());
        };
        self.words = words;
        match words {
            Words::Whole(_) => Ok(()),
            _ => Err(Refused::about(at, Reason::NoFile)),
        }
    }

    // Behind a refusal it still counts whether bytes are asked for: then the refusal goes to standard error.
    fn take_refused(&mut self, at: usize, word: &[u8]) {
        if self.words.is_report()
            && let Some(words) = Words::command(at, word)
            && words.is_bytes()
        {
            self.words = words;
        }
    }

    fn take_word(&mut self, at: usize, word: &[u8]) -> Result<(), Refused> {
        if self.words == Words::Nothing {
            return self.take_first(at, word);
        }
        self.words = self.words.with(at, word)?;
        Ok(())
    }

    fn take_other(&mut self, at: usize, word: &[u8]) -> Result<(), Refused> {
        if self.refused.is_some() {
            self.take_refused(at, word);
            return Ok(());
        }
        if let Some((option, _)) = self.waiting.take() {
            return self.take_value(option, at, word);
        }
        if !self.is_ended && word.starts_with(b"--") {
            return self.take_joined(at, word);
        }
        self.take_word(at, word)
    }

    // Behind -- there are no options.
    fn take(&mut self, at: usize, word: &[u8]) -> Result<(), Refused> {
        match Choice::named(word) {
            Some(option) if !self.is_ended => self.take_option(option, at),
            _ => self.take_other(at, word),
        }
    }

    // Nothing may be left out.
    fn command(&self) -> Result<Command, Refused> {
        if let Some(refused) = self.refused {
            return Err(refused);
        }
        if let Some((_, at)) = self.waiting {
            return Err(Refused::about(at, Reason::NoValue));
        }
        self.words.end()
    }

    fn whole(self) -> Request {
        let mut request = self.request;
        request.command = self.command();
        request.is_bytes = self.words.is_bytes();
        request
    }
}

// Argument 0 is the program's name. An argument need not be text: it is taken as bytes, of which 4,096 are enough for any path.
// The first refusal stands.
pub fn parse(rt: &impl Env) -> Request {
    let mut line = Line::new();
    let mut space = [0; 4096];
    for at in 1..usize::MAX {
        let taken = match rt.arg(at, &mut space) {
            Ok(n) => line.take(at, &space[..n]),
            Err(FillError::TooLong) => Err(Refused {
                reason: Reason::TooLong,
                about: None,
            }),
            Err(FillError::NotPresent) => break,
        };
        line.refused = line.refused.or(taken.err());
    }
    line.whole()
}
