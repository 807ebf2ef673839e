// The string at a pointer (lib.rs `read_string_at_ptr`), and the quick way for most.
#![tactic(auto)]

ghost use Rattle.std.specs.Prelude.{◌≡◌, ◌==◌, ◌||◌, nat_lt, position, IfSome, Ok};
ghost use Rattle.prog.specs.Prog.{run};
ghost use Rattle.text.specs.Text.{text_item, text_p};
ghost use Rattle.strings.specs.Code.{ShortAscii};

use chunks::CHUNK;
use refusal::Refusal;
use text::TextPart;
use window::Window;

// Where the first byte stands that is NUL or no ASCII.
fn ascii_end(s: &[u8]) -> Option<usize>
    ensures { result ≡ position (λ b. b == 0 || nat_lt 127 b) s.now }
{
    s.iter().position(|&b| b == 0 || 127 < b)
}

// A string that is ASCII and ends in its first chunk, as most do: its length is its width too, and its bytes need no second look.
#[inline(always)]
fn short_ascii(w: Window, ptr: u32) -> Option<TextPart>
    ensures told { IfSome result (λ t. text_item (Ok t) ≡ run (text_p w.entry.base ptr) w.entry.image.now) }
    ensures short { IfSome result (λ t. ShortAscii w.entry.image.now w.entry.base ptr t.length) }
{
    let offset = ptr.checked_sub(w.base)?;
    let from = offset as usize;
    let chunk = w.image.get(from..from + CHUNK)?;
    let n = ascii_end(chunk)?;
    if chunk[n] != 0 {
        return None;
    }
    let length = n as u32;
    Some(TextPart {
        offset,
        length,
        width: length,
    })
}

// The string at a pointer: where its part stands in the image. Joined to its callers, so that the quick way stores no window and no answer.
#[inline(always)]
pub fn read_string_at_ptr(w: Window, ptr: u32) -> Result<TextPart, Refusal>
    ensures { text_item result ≡ run (text_p w.entry.base ptr) w.entry.image.now }
{
    match short_ascii(w, ptr) {
        Some(part) => Ok(part),
        None => {
            let read = chunks::read_string(w, ptr)?;
            let length = read.part.len() as u32;
            Ok(TextPart {
                offset: read.offset,
                length,
                width: read.width,
            })
        },
    }
}
