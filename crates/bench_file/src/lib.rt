// The dump: a file or standard input, read whole; and files that hold a dump in a form of their own.
#![tactic(auto)]

ghost use Rattle.std.specs.Prelude.{◌≡◌, ◌≤◌, length, IfOk};
ghost use Rattle.bench_file.specs.Unread.{number_of, form_of};

use bench_args::FileArguments;
use std::fs::File;
use std::io::{ErrorKind, Input, Read};
use std::rt::{Env, Files};
use std::{io, str};

// Room for a dump, 2 MiB: fixed, as there is no heap. The contract gives the length alone, so that no caller's proof computes the list.
pub fn image_space() -> [u8; 2097152]
    ensures { 2097152 ≡ length result }
{
    [0; 2097152]
}

/// Why there is no dump. The discriminant is the number, which a script is shown.
#[derive(Clone, Copy, Debug, PartialEq, Eq)]
pub enum Unread {
    /// There is no such file.
    NotFound = 108,
    /// It is a directory.
    Directory = 109,
    /// Its mode keeps the reader out.
    Forbidden = 110,
    /// It cannot be read, for no reason that has a number of its own.
    Unreadable = 111,
    /// It is larger than the room for it.
    TooLarge = 112,
    /// A UF2 file, which holds a dump in parts.
    Uf2 = 117,
    /// An ELF file, which does so too.
    Elf = 118,
}

impl Unread {
    /// The number.
    pub fn number(self) -> u8
        ensures { result ≡ number_of self }
    {
        self as u8
    }
}

// What a UF2 file begins with.
const UF2: [u8; 4] = *b"UF2\n";

// What an ELF file begins with.
const ELF: [u8; 4] = *b"\x7fELF";

// The system's number for a file whose mode keeps the reader out. ErrorKind::PermissionDenied is wider.
const EACCES: i32 = 13;

impl From<io::Error> for Unread {
    fn from(error: io::Error) -> Unread {
        if error.raw_os_error() == Some(EACCES) {
            return Unread::Forbidden;
        }
        match error.kind() {
            ErrorKind::NotFound => Unread::NotFound,
            ErrorKind::IsADirectory => Unread::Directory,
            _ => Unread::Unreadable,
        }
    }
}

/// Of a file that holds a dump in a form of its own, what it is.
pub fn form(image: &[u8]) -> Option<Unread>
    ensures { result ≡ form_of image.now }
{
    if image.starts_with(&UF2) {
        Some(Unread::Uf2)
    } else if image.starts_with(&ELF) {
        Some(Unread::Elf)
    } else {
        None
    }
}

fn read_all<'a>(from: &mut impl Read, space: &'a mut [u8]) -> Result<&'a [u8], Unread>
    ensures within { IfOk result (λ image. length image.now ≤ length space.old) }
{
    let n = read_full::read_full(from, space)?;
    let image = &space[..n];
    // A dump that fills the room may go on behind it.
    if n == space.len() && from.read(&mut [0])? != 0 {
        return Err(form(image).unwrap_or(Unread::TooLarge));
    }
    Ok(image)
}

fn read_path<'a>(rt: &impl Files, path: &str, space: &'a mut [u8]) -> Result<&'a [u8], Unread>
    ensures within { IfOk result (λ image. length image.now ≤ length space.old) }
{
    read_all(&mut File::open(rt, path)?, space)
}

// An argument as a path; nothing where it is no text, which a path has to be.
fn path_of<'a>(rt: &impl Env, at: usize, space: &'a mut [u8]) -> Option<&'a str> {
    let n = rt.arg(at, space).unwrap_or(0);
    str::from_utf8(&space[..n]).ok()
}

fn read_link<'a, R: Files + Env>(
    rt: &R,
    link: Option<usize>,
    space: &'a mut [u8],
) -> Result<&'a [u8], Unread>
    ensures within { IfOk result (λ image. length image.now ≤ length space.old) }
{
    let at = link.ok_or(Unread::Unreadable)?;
    let mut name = [0; 4096];
    let path = path_of(rt, at, &mut name).ok_or(Unread::Unreadable)?;
    read_path(rt, path, space)
}

/// Reads the file that is named, or the sample where none is; it is looked for from the folder that the program is run in where that has no name
/// either. A name that is no text can't be opened: in its place the link is.
pub fn load<'a, R: Files + Input + Env>(
    rt: &R,
    files: FileArguments,
    space: &'a mut [u8],
) -> Result<&'a [u8], Unread>
    ensures within { IfOk result (λ image. length image.now ≤ length space.old) }
{
    let Some(at) = files.file.or(files.sample) else {
        return read_path(rt, "samples/rp2350.img", space);
    };
    let mut name = [0; 4096];
    match path_of(rt, at, &mut name) {
        None => read_link(rt, files.link, space),
        Some("-") => read_all(&mut rt.reader(), space),
        Some(path) => read_path(rt, path, space),
    }
}
