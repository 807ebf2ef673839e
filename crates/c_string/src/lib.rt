// A string of an image as C and Rust ask for it: its part in lent words.
#![tactic(auto)]

ghost use Rattle.std.specs.Prelude.{◌≡◌};
ghost use Rattle.text.specs.Text.{string_call, part_after, text_item};

use refusal::Refusal;
use text::TextPart;
use window::Window;

#[tactic(auto, unfolding(text::specs::Text::string_call))]
fn string_at(w: Window, pointer: u32) -> Result<TextPart, Refusal>
    ensures { text_item result ≡ string_call w.entry.base pointer w.entry.image.now }
{
    if window::past_window(w.image, w.base) {
        return Err(Refusal::PastWindow);
    }
    strings::read_string_at_ptr(w, pointer)
}

pub fn string_call(image: &[u8], base: u32, pointer: u32, part: &mut [u32; text::PART_WORDS]) -> u32
    ensures reply { result ≡ (string_call base pointer image.now).number }
    ensures part { part.new ≡ part_after (string_call base pointer image.now) part.old }
{
    match string_at(Window { image, base }, pointer) {
        Ok(text) => {
            *part = [text.offset, text.length, text.width];
            0
        }
        Err(refusal) => refusal.number() as u32,
    }
}
