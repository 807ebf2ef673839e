// The string test of document 01, "String": UTF-8, as RFC 3629 has it.
#![tactic(auto)]

mod classes;

ghost use Rattle.std.specs.Prelude.{◌≡◌, ◌-◌, Some, None};
ghost use Rattle.base.specs.Choice.{pick};
ghost use Rattle.utf8.specs.Utf8.{class_of, ClassTable, begins, within, low_after, high_after, is_utf8};
ghost use Rattle.utf8.specs.Points.{points_of};

use classes::{ALONE, LEAD_OF_FOUR, UTF8_CLASSES};

// The class of b, looked up. The table is lent, so that it stands in memory once and not anew for each byte.
fn class_of(classes: &[u8; 256], b: u8) -> u8
    requires { ClassTable classes.now }
    ensures { result ≡ class_of b }
{
    classes[b as usize]
}

// How many continuation bytes follow b where it begins a character. The class below ALONE wraps, so that one comparison serves both ends.
fn tails_of(classes: &[u8; 256], b: u8) -> Option<u8>
    requires { ClassTable classes.now }
    ensures { result ≡ pick (begins (class_of b)) (Some (class_of b - 1)) None }
{
    let tails = class_of(classes, b).wrapping_sub(ALONE);
    if tails < LEAD_OF_FOUR {
        Some(tails)
    } else {
        None
    }
}

// Whether b may follow the byte `last` within a character.
#[tactic(auto, unfolding(crate::specs::Utf8::low_after, crate::specs::Utf8::high_after))]
fn continues(last: u8, b: u8) -> bool
    ensures { result ≡ within (low_after last) (high_after last) b }
{
    match last {
        0xE0 => matches!(b, 0xA0..=0xBF),
        0xED => matches!(b, 0x80..=0x9F),
        0xF0 => matches!(b, 0x90..=0xBF),
        0xF4 => matches!(b, 0x80..=0x8F),
        _ => matches!(b, 0x80..=0xBF),
    }
}

// The code points of s, if it is UTF-8: byte by byte, with the number of continuation bytes still lacking and the byte before. A character
// counts at its first byte. By itself, so that its loop holds nothing of its caller's.
#[inline(never)]
#[tactic(auto, using(crate::proofs::Steps::answers))]
fn scan(classes: &[u8; 256], s: &[u8]) -> Option<usize>
    requires { ClassTable classes.now }
    ensures { result ≡ points_of s.now }
{
    let mut lacks = 0;
    let mut last = 0;
    let mut points = 0;
    for &b in s {
        if lacks == 0 {
            lacks = tails_of(classes, b)?;
            points += 1;
        } else if continues(last, b) {
            lacks -= 1;
        } else {
            return None;
        }
        last = b;
    }
    if lacks == 0 { Some(points) } else { None }
}

// The code points of s, if it is UTF-8.
pub fn code_points(s: &[u8]) -> Option<usize>
    ensures { result ≡ points_of s.now }
{
    scan(&UTF8_CLASSES, s)
}

// Whether s is UTF-8.
#[tactic(auto, unfolding(crate::specs::Points::points_of))]
pub fn is_utf8(s: &[u8]) -> bool
    ensures { result ≡ is_utf8 s.now }
{
    code_points(s).is_some()
}
