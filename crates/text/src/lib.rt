// Strings of the image (parsing.rs): where they stand in it.
#![tactic(auto)]

ghost use Rattle.std.specs.Prelude.{◌≡◌};
ghost use Rattle.text.specs.Text.{part_of, text_item};

use refusal::Refusal;

// How many words tell an accepted string's part: offset, length, width.
pub const PART_WORDS: usize = 3;

// An accepted string's part of the image, without its NUL, and its width in code points.
#[derive(Clone, Copy, Debug, PartialEq, Eq)]
pub struct TextPart {
    pub offset: u32,
    pub length: u32,
    pub width: u32,
}

// An accepted string as its reader hands it back: where it stands in the image, that part of the image, and its width in code points.
#[derive(Clone, Copy)]
pub struct ReadString<'a> {
    pub offset: u32,
    pub part: &'a [u8],
    pub width: u32,
}

// A string as a report holds it: an accepted one with number 0; or the refusal's number, with offset, length and width 0.
#[derive(Clone, Copy)]
pub struct Text {
    pub number: u8,
    pub offset: u32,
    pub length: u32,
    pub width: u32,
}

// A string's answer as a report holds it.
pub fn text_item(text: Result<TextPart, Refusal>) -> Text
    ensures { result ≡ text_item text }
{
    match text {
        Ok(part) => Text {
            number: 0,
            offset: part.offset,
            length: part.length,
            width: part.width,
        },
        Err(refusal) => Text {
            number: refusal.number(),
            offset: 0,
            length: 0,
            width: 0,
        },
    }
}

// The part of the image that a string's offset and length name; an empty part where that does not lie in the image.
pub fn string_part(image: &[u8], text: Text) -> &[u8]
    ensures { result.now ≡ part_of image.now text }
{
    let from = text.offset as usize;
    let to = from + text.length as usize;
    image.get(from..to).unwrap_or(&[])
}
