// Writing on a stream. Every result is looked at: a short write is continued, an interrupted one is made again.
ghost use Rattle.std.specs.Prelude.{◌≤◌, length, IfOk, IfErr};

use crate::Stream;
use std::fmt;
use std::fs::File;
use std::io::{Error, ErrorKind, Result, Write};

// One write: how many of the bytes it took. One that a signal interrupts is made again, some times.
fn once<W: Write>(to: &mut W, bytes: &[u8]) -> Result<usize>
    ensures { IfOk result (λ n. n ≤ length bytes.now) }
{
    for _ in 0..255 {
        match to.write(bytes) {
            Err(error) if error.kind() == ErrorKind::Interrupted => (),
            written => return written,
        }
    }
    Err(Error::from(ErrorKind::Interrupted))
}

// Where writing stopped: what is still to be written, and why.
#[derive(Drop)]
struct Stopped<'a> {
    rest: &'a [u8],
    error: Error,
}

// Writes the bytes, or stops where a write fails: then no more are still to be written than there were.
fn many<'a, W: Write>(to: &mut W, bytes: &'a [u8]) -> std::result::Result<(), Stopped<'a>>
    ensures within { IfErr result (λ s. length s.rest.now ≤ length bytes.now) }
{
    let mut rest = bytes;
    while !rest.is_empty() {
        match once(to, rest) {
            Ok(0) => return Err(Stopped {
                rest,
                error: Error::from(ErrorKind::WriteZero),
            }),
            Ok(n) => rest = &rest[n..],
            Err(error) => return Err(Stopped { rest, error }),
        }
    }
    Ok(())
}

// The stream, opened anew. Writes on it wait, though those on the stream itself may not.
fn that_waits(rt: HostRuntime, stream: Stream) -> Result<File> {
    let path = match stream {
        Stream::Output => "/proc/self/fd/1",
        Stream::Error => "/proc/self/fd/2",
        Stream::Status => "/proc/self/fd/3",
    };
    File::options().append(true).open(&rt, path)
}

// Writes on the stream itself what a pipe takes now, and the rest where writes wait.
fn patiently<W: Write>(to: &mut W, rt: HostRuntime, stream: Stream, bytes: &[u8]) -> Result<()> {
    match many(to, bytes) {
        Ok(()) => Ok(()),
        Err(stop) if stop.error.kind() == ErrorKind::WouldBlock => {
            that_waits(rt, stream)?.write_all(stop.rest)
        }
        Err(stop) => Err(stop.error),
    }
}

// Writes all of the bytes. What writes text need not know why that failed.
pub(crate) fn whole(rt: HostRuntime, stream: Stream, bytes: &[u8]) -> fmt::Result {
    let written = match stream {
        Stream::Output => patiently(&mut rt.stdout(), rt, stream, bytes),
        Stream::Error => patiently(&mut rt.stderr(), rt, stream, bytes),
        Stream::Status => that_waits(rt, stream).and_then(|mut file| file.write_all(bytes)),
    };
    written.map_err(|_| fmt::Error)
}
