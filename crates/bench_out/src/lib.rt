// What the bench says, on standard output or standard error, and its status: gathered, and written in few calls. Every write's result is looked at;
// who writes hands an error on and writes nothing behind it, so that an output has no hole.
#![tactic(auto)]

mod escape; // text from outside
mod write;

use arrayvec::ArrayString;
pub use escape::{FileName, Shown};
use std::fmt;
use std::fmt::Write;

// Status is descriptor 3.
#[derive(Clone, Copy)]
pub enum Stream {
    Output,
    Error,
    Status,
}

const ROOM: usize = 16384;

// An output, for a person or a script; and what is gathered for it.
#[derive(Drop)]
pub struct Out {
    rt: HostRuntime,
    stream: Stream,
    is_script: bool,
    room: ArrayString<ROOM>,
}

impl Out {
    // An output with nothing in it.
    pub fn new(rt: HostRuntime, stream: Stream, is_script: bool) -> Out {
        Out {
            rt,
            stream,
            is_script,
            room: ArrayString::new(),
        }
    }

    // Whether a script reads it.
    pub fn is_script(&self) -> bool {
        self.is_script
    }

    // Writes what is gathered.
    pub fn flush(&mut self) -> fmt::Result {
        let written = write::whole(self.rt, self.stream, self.room.as_str().as_bytes());
        self.room.clear();
        written
    }

    // Ends a report or a byte. A script's last line is `end`: without it the answer was cut short on its way.
    pub fn end(&mut self) -> fmt::Result {
        if self.is_script {
            writeln!(self, "end")?;
        }
        self.flush()
    }

    // Writes many bytes as they stand, in as few calls as there can be.
    pub fn bytes(&mut self, many: &[u8]) -> fmt::Result {
        self.flush()?;
        write::whole(self.rt, self.stream, many)
    }
}

// Text that there is no room for is written behind what is gathered.
impl fmt::Write for Out {
    fn write_str(&mut self, s: &str) -> fmt::Result {
        if self.room.write_str(s).is_ok() {
            return Ok(());
        }
        self.flush()?;
        if self.room.write_str(s).is_ok() {
            return Ok(());
        }
        write::whole(self.rt, self.stream, s.as_bytes())
    }
}

// Writes one text.
pub fn say<D: fmt::Display + Drop>(rt: HostRuntime, stream: Stream, text: D) -> fmt::Result {
    let mut out = Out::new(rt, stream, false);
    write!(out, "{text}")?;
    out.flush()
}
