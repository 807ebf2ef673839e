// Strings of the image, read chunk by chunk (parsing.rs).
#![tactic(auto)]

ghost use Rattle.std.specs.Prelude.{◌≡◌, ◌≤◌, ◌==◌, length, position, IfOk};
ghost use Rattle.prog.specs.Prog.{run};
ghost use Rattle.text.specs.Text.{bytes_of, judged, read_item, text_p};

use refusal::Refusal;
use text::ReadString;
use window::Window;

// A string is read in chunks of 64 bytes, at most 1,024.
pub const CHUNK: usize = 64;

const LONGEST: usize = 1024;

// Where the first NUL stands. A `for`, since `position` takes 1.4 times the instructions over 1,024 bytes with no NUL.
#[tactic(auto, using(std::proofs::lemmas::List::Sums::position_or_len_is))]
fn nul_at(s: &[u8]) -> Option<usize>
    ensures { result ≡ position (λ b. b == 0) s.now }
{
    for (i, &b) in s.iter().enumerate() {
        if b == 0 {
            return Some(i);
        }
    }
    None
}

// A string whose NUL was found, from an offset on.
#[tactic(auto, using(utf8::proofs::Laws::Points::points_length), unfolding(text::specs::Text::judged, utf8::specs::Points::points_of))]
fn judge(offset: u32, part: &[u8]) -> Result<ReadString<'_>, Refusal>
    requires { length part.now ≤ 1024 }
    ensures part { IfOk result (λ s. s.part.now ≡ part.now) }
    ensures item { read_item result ≡ judged offset part.now }
{
    let width = utf8::code_points(part).ok_or(Refusal::NotUtf8)? as u32;
    Ok(ReadString {
        offset,
        part,
        width,
    })
}

// The string at a pointer, chunk by chunk: each must be wholly readable, and the first NUL ends it. It is handed back as that part of the
// image. By itself, so that the quick way for most strings pays nothing for it.
#[inline(never)]
#[tactic(auto, using(crate::proofs::Steps::read))]
pub fn read_string<'a>(w: Window<'a>, ptr: u32) -> Result<ReadString<'a>, Refusal>
    ensures part { IfOk result (λ s. s.part.now ≡ bytes_of w.entry.image.now (run (text_p w.entry.base ptr) w.entry.image.now)) }
    ensures item { read_item result ≡ run (text_p w.entry.base ptr) w.entry.image.now }
{
    if ptr < w.base {
        return Err(Refusal::BelowBase);
    }
    let offset = ptr - w.base;
    let start = offset as usize;
    for n in (0..LONGEST).step_by(CHUNK) {
        if !w.can_read(ptr as u64 + n as u64, CHUNK) {
            return Err(Refusal::Ended);
        }
        let at = start + n;
        if let Some(found) = nul_at(&w.image[at..at + CHUNK]) {
            return judge(offset, &w.image[start..at + found]);
        }
    }
    Err(Refusal::Unterminated)
}
