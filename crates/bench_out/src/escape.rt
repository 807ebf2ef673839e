// Text from the dump or the command line, so that it stays on its line and shows what it is: control characters and backslashes go out as \x and
// two digits, and so does a byte that is no part of UTF-8; marks that are not seen or turn the line's direction as \u and four.
use std::fmt;
use std::rt::Env;

fn escaped<W: fmt::Write>(f: &mut fmt::Formatter<W>, bytes: &[u8]) -> fmt::Result {
    for b in bytes {
        write!(f, "\\x{b:02x}")?;
    }
    Ok(())
}

// Marks that are not seen: of direction, of no width, of a line's end.
fn is_unseen(c: char) -> bool {
    match c {
        '\u{61C}' | '\u{FEFF}' => true,
        '\u{200B}'..='\u{200F}' | '\u{2028}'..='\u{202E}' => true,
        '\u{2060}'..='\u{2064}' | '\u{2066}'..='\u{2069}' => true,
        _ => false,
    }
}

fn character<W: fmt::Write>(f: &mut fmt::Formatter<W>, c: char) -> fmt::Result {
    if c == '\\' || c.is_control() {
        return escaped(f, c.encode_utf8(&mut [0; 4]).as_bytes());
    }
    if is_unseen(c) {
        return write!(f, "\\u{:04x}", c as u32);
    }
    f.write_char(c)
}

fn characters<W: fmt::Write>(f: &mut fmt::Formatter<W>, text: &str) -> fmt::Result {
    for c in text.chars() {
        character(f, c)?;
    }
    Ok(())
}

// Bytes as text.
#[derive(Clone, Copy)]
pub struct Shown<'a>(pub &'a [u8]);

impl fmt::Display for Shown<'_> {
    fn fmt<W: fmt::Write>(&self, f: &mut fmt::Formatter<W>) -> fmt::Result {
        for chunk in self.0.utf8_chunks() {
            characters(f, chunk.valid())?;
            escaped(f, chunk.invalid())?;
        }
        Ok(())
    }
}

// The name of the file: an argument, or the sample where there is none.
#[derive(Clone, Copy)]
pub struct FileName {
    pub rt: HostRuntime,
    pub at: Option<usize>,
}

impl fmt::Display for FileName {
    fn fmt<W: fmt::Write>(&self, f: &mut fmt::Formatter<W>) -> fmt::Result {
        let Some(at) = self.at else {
            return f.write_str("samples/rp2350.img");
        };
        let mut space = [0; 4096];
        let n = self.rt.arg(at, &mut space).unwrap_or(0);
        write!(f, "{}", Shown(&space[..n]))
    }
}
