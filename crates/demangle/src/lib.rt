// Bits of a word, gathered through a list of pins, by shifts and masks; demangling a byte (info.rs `demangle_byte`).
#![tactic(auto)]

ghost use Rattle.std.specs.Prelude.{◌≡◌, ◌+◌, ◌*◌, ◌≤◌, ◌<◌, ◌^◌, length};
ghost use Rattle.std.specs.Int.{from_bool};
ghost use Rattle.refusal.specs.Refusal.{valued};
ghost use Rattle.demangle.specs.Bits.{taken_bit, gather};
ghost use Rattle.demangle.specs.Demangle.{all_below, demangle};

use refusal::Refusal;

// The bit of the word that an entry takes.
#[tactic(auto, unfolding(crate::specs::Bits::taken_bit, crate::specs::Bits::bit_at))]
pub fn bit_of(x: u32, e: u8) -> bool
    ensures { from_bool result ≡ taken_bit x e }
{
    e < 32 && (x >> e) & 1 == 1
}

// A bit put above lower ones.
#[tactic(auto, using(crate::proofs::Steps::or_high))]
fn with_bit(r: u32, high: bool, i: u8) -> u32
    requires { (i < 31) × (r < 2 ^ i) }
    ensures { result ≡ r + from_bool high * 2 ^ i }
{
    r | ((high as u32) << i)
}

#[tactic(auto, using(crate::specs::Laws::taken_lt))]
fn gathered(entries: &[u8], x: u32) -> u32
    requires { length entries.now ≤ 16 }
    ensures { result ≡ gather entries.now x }
{
    let mut r: u32 = 0;
    for (i, entry) in entries.iter().enumerate() {
        r = with_bit(r, bit_of(x, *entry), i as u8);
    }
    r
}

// The bits of a byte at eight data pins.
#[tactic(auto, using(crate::specs::Laws::gather_lt))]
fn unplace(data: [u8; 8], byte: u8) -> u8
    ensures { result ≡ gather «data» byte }
{
    gathered(&data, byte as u32) as u8
}

#[tactic(auto, using(crate::proofs::Steps::below_on, crate::proofs::Steps::below_off, crate::proofs::Steps::below_end))]
fn all_below(n: u8, pins: &[u8]) -> bool
    ensures { result ≡ all_below n pins.now }
{
    for pin in pins {
        if n <= *pin {
            return false;
        }
    }
    true
}

// The byte as it is served: logic bit i is the byte's bit at data pin i.
#[tactic(auto, unfolding(crate::specs::Demangle::demangle))]
pub fn demangle_core(data: [u8; 8], byte: u8) -> Result<u8, Refusal>
    ensures { valued result ≡ demangle «data» byte }
{
    if !all_below(8, &data) {
        return Err(Refusal::DataPinOff);
    }
    Ok(unplace(data, byte))
}
