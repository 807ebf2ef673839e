// Bits of a word on the sixteen pins, as the bits of another word (info.rs `mangle_address`). The map of pins is not made: each bit is put on
// its pin at once, over the bit of an earlier one.
#![tactic(auto)]

ghost use Rattle.std.specs.Prelude.{◌≡◌, map, ◌+◌, ◌*◌, ◌-◌, ◌^◌, ◌≤◌, ◌<◌};
ghost use Rattle.std.specs.Int.{from_bool};
ghost use Rattle.std.specs.Int.Bits.{bit_and};
ghost use Rattle.base_zero.specs.BaseZero.{lowered};
ghost use Rattle.least_pin.specs.Laws.{all_from};
ghost use Rattle.pin_words.specs.Code.{on_pin, step_pin, placed, limit};

use demangle::bit_of;

// The bits of a word on the address pins; and which of the sixteen pins have one.
#[derive(Clone, Copy)]
pub struct Placed {
    pub value: u16,
    pub mapped: u16,
}

// A bit of v at a level: set first, and taken off where the level is low.
fn with_level(v: u16, bit: u16, high: bool) -> u16
    ensures { result ≡ v - bit_and v bit + from_bool high * bit }
{
    (v | bit) ^ if high { 0 } else { bit }
}

// Pin of v at a level; a pin past the sixteen is left out.
pub fn put(v: u16, pin: u8, high: bool) -> u16
    ensures { result ≡ on_pin v pin (from_bool high) }
{
    if pin < 16 {
        with_level(v, 1 << pin, high)
    } else {
        v
    }
}

// A pin below the limit is one of the sixteen once lowered by m; 255 is never below it.
fn limit(m: u8) -> u8
    ensures { result ≡ limit m }
{
    m.saturating_add(16)
}

// The bit of a pin that is one of the sixteen once lowered by m. It comes down from the highest: a right shift of a constant is one operation,
// where a left shift of 1 becomes two slow ones.
fn pin_bit(m: u8, pin: u8) -> u16
    requires { (m ≤ pin) × (pin < m + 16) }
    ensures { result ≡ 2 ^ (pin - m) }
{
    0x8000 >> ((m as u32) + 15 - (pin as u32))
}

// Bit i of the word on a pin, which is lowered by m; with one test of the pin instead of two.
fn one_pin(s: Placed, m: u8, pin: u8, word: u32, i: u8) -> Placed
    requires { (i < 32) × (m ≤ pin) }
    ensures { result ≡ step_pin s (lowered m pin) word i }
{
    if limit(m) <= pin {
        return s;
    }
    let bit = pin_bit(m, pin);
    Placed {
        value: with_level(s.value, bit, bit_of(word, i)),
        mapped: s.mapped | bit,
    }
}

// The word's bits on the address pins, which are lowered by m first.
#[tactic(auto, using(crate::proofs::Steps::rest_step, crate::proofs::Steps::rest_end))]
pub fn address_pins(m: u8, addr: [u8; 16], word: u32) -> Placed
    requires { all_from m addr }
    ensures { result ≡ placed (map (lowered m) addr) word }
{
    let mut s = Placed {
        value: 0,
        mapped: 0,
    };
    for (i, pin) in addr.iter().enumerate() {
        s = one_pin(s, m, *pin, word, i as u8);
    }
    s
}
