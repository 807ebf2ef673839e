// A line of the vectors: a letter, numbers of eight hexadecimal digits, bytes in hexadecimal, each behind a space.
ghost use Rattle.std.specs.Prelude.{◌≤◌, ◌<◌, ◌^◌, length};

fn digit(c: u8) -> u8
    ensures { result < 16 }
{
    if c < 48 {
        return 0;
    }
    if c <= 57 {
        return c - 48;
    }
    if c < 97 {
        return 0;
    }
    if c <= 102 {
        return c - 87;
    }
    0
}

// The byte that the two digits at an index stand for.
fn byte_at(line: &[u8], at: u32) -> u8 {
    let i = at as usize;
    digit(le::u8_at(line, i)) * 16 + digit(le::u8_at(line, i + 1))
}

// The number k of the line.
pub(crate) fn number(line: &[u8], k: u8) -> u32 {
    let at = 2 + 9 * (k as u32);
    let a = byte_at(line, at) as u32;
    let b = byte_at(line, at + 2) as u32;
    let c = byte_at(line, at + 4) as u32;
    let d = byte_at(line, at + 6) as u32;
    a * 16777216 + b * 65536 + c * 256 + d
}

// The number k, which fits 16 bits.
pub(crate) fn half(line: &[u8], k: u8) -> u16 {
    (number(line, k) % 65536) as u16
}

// The number k, which fits 8 bits.
pub(crate) fn byte_of(line: &[u8], k: u8) -> u8 {
    (number(line, k) % 256) as u8
}

// Decodes the bytes behind so many numbers, and says how many there are.
pub(crate) fn decode(line: &[u8], numbers: usize, bytes: &mut [u8; 4096]) -> usize
    requires { numbers < 16 }
    ensures { result ≤ 4096 }
{
    let from = 2 + 9 * numbers;
    for n in 0..4096 {
        if line.len() < from + 2 * n + 2 {
            return n;
        }
        bytes[n] = digit(line[from + 2 * n]) * 16 + digit(line[from + 2 * n + 1]);
    }
    4096
}

pub(crate) fn line_end(input: &[u8], from: usize) -> usize
    requires { from ≤ length input.now }
    ensures { (from ≤ result) × (result ≤ length input.now) }
{
    for i in from..input.len() {
        if input[i] == 10 {
            return i;
        }
    }
    input.len()
}
