// Why there is no answer, and how an answer ends. Each call says the status that the program ends with: 0 for an answer that was written whole,
// 1 for a refusal or an answer that was not, 2 for words that are not understood.
#![tactic(auto)]

use bench_args::Request;
use bench_file::Unread;
use bench_form::Reason;
use bench_out::{FileName, Out, Stream};
use std::fmt;
use std::fmt::Write;

// How the answer is wanted: for a script, as bytes on standard output, by set 0's ROMs; and the argument that names the file (none: the sample).
#[derive(Clone, Copy)]
pub struct Asked {
    pub rt: HostRuntime,
    pub machine: bool,
    pub bytes: bool,
    pub by_set_0: bool,
    pub file: Option<usize>,
}

pub fn how(rt: HostRuntime, request: Request) -> Asked {
    Asked {
        rt,
        machine: request.machine,
        bytes: request.is_bytes,
        by_set_0: request.by_set_0,
        file: request.files.file,
    }
}

fn for_script(rt: HostRuntime, stream: Stream, why: Reason) -> fmt::Result {
    let number = why.0;
    bench_out::say(rt, stream, format_args!("refused {number}\nreason {why}\n"))
}

// For a person: what it is about, if anything, then the words; a number of the documents is shown before them, on the line above.
fn for_person<D: fmt::Display + Drop>(
    rt: HostRuntime,
    why: Reason,
    about: Option<D>,
) -> fmt::Result {
    let number = why.0;
    let mut out = Out::new(rt, Stream::Error, false);
    write!(out, "bench: ")?;
    if let Some(about) = about {
        write!(out, "{about}: ")?;
    }
    if why.is_of_documents() {
        write!(out, "refused with {number}:\n  ")?;
    }
    writeln!(out, "{why}")?;
    out.flush()
}

impl Asked {
    // An output for the answer.
    pub fn output(self) -> Out {
        Out::new(self.rt, Stream::Output, self.machine)
    }

    // The name of the file.
    fn file_name(self) -> FileName {
        FileName {
            rt: self.rt,
            at: self.file,
        }
    }

    // A script's refusal goes to standard error where the standard output is for bytes. That it cannot be written changes no status.
    fn refuse<D: fmt::Display + Drop>(self, why: Reason, about: Option<D>) {
        let _ = if !self.machine {
            for_person(self.rt, why, about)
        } else if self.bytes {
            for_script(self.rt, Stream::Error, why)
        } else {
            for_script(self.rt, Stream::Output, why)
        };
    }

    // Something of the file is refused: `of` says what.
    pub fn part<D: fmt::Display + Drop>(self, number: u8, of: D) -> u8 {
        self.refuse(
            Reason(number),
            Some(format_args!("{}{of}", self.file_name())),
        );
        1
    }

    // The dump does not open. Here 2 is about the header.
    pub fn opening(self, number: u8, image: &[u8]) -> u8 {
        match opening_number(self.machine, number, image) {
            2 => self.part(2, ", info header"),
            n => self.part(n, ""),
        }
    }

    // Ends an answer, of which `of` says what it is about. Where it was not written whole, standard error says so.
    pub fn ended<D: fmt::Display + Drop>(self, written: fmt::Result, of: D) -> u8 {
        if written.is_ok() {
            return 0;
        }
        let why = Reason::NOT_WRITTEN;
        let _ = if self.machine {
            for_script(self.rt, Stream::Error, why)
        } else {
            for_person(self.rt, why, Some(format_args!("{}{of}", self.file_name())))
        };
        1
    }
}

// An empty file is refused by the library with 2; for a person there are clearer words. A file that is no dump but holds one has words of its own.
fn opening_number(machine: bool, number: u8, image: &[u8]) -> u8 {
    if !image.is_empty() {
        return bench_file::form(image).map_or(number, Unread::number);
    }
    if machine { number } else { Reason::EMPTY.0 }
}

// The command line is not understood, by the argument `about`; none where it is too long to be shown.
pub fn arguments(asked: Asked, number: u8, about: Option<usize>) -> u8 {
    let rt = asked.rt;
    asked.refuse(
        Reason(number),
        about.map(|at| FileName { rt, at: Some(at) }),
    );
    2
}

// A page about no file.
pub fn page(rt: HostRuntime, text: &str) -> u8 {
    if bench_out::say(rt, Stream::Output, text).is_ok() {
        return 0;
    }
    let _ = for_person(rt, Reason::NOT_WRITTEN, None::<&str>);
    1
}

// The program has another one's command before it. Who asks for the status is told so by it; to others it is a refusal.
pub fn other_program(rt: HostRuntime, request: Request) -> u8 {
    if request.status {
        return 3;
    }
    how(rt, request).part(Reason::OTHER_PROGRAM.0, "")
}

// Where the caller asks for it, the status is one digit on descriptor 3, the last that is written.
pub fn tell(rt: HostRuntime, request: Request, status: u8) {
    if !request.status {
        return;
    }
    let _ = bench_out::say(rt, Stream::Status, status);
}
