// A record as the input packs it. A byte below 128: so many bytes and one more follow as they are; any other byte c: the next one, c - 125 times,
// or from 247 on 128 times, 256 times and so on.
ghost use Rattle.std.specs.Prelude.{◌<◌};

use super::record;

// A byte, where there is room; and the index behind it.
fn put(to: &mut [u8], at: usize, b: u8) -> usize {
    if to.len() <= at {
        return at;
    }
    to[at] = b;
    at + 1
}

// How many packed bytes the step takes that starts with c.
fn packed_bytes(c: u8) -> usize
    ensures { (0 < result) × (result < 130) }
{
    if c < 128 {
        return c as usize + 2;
    }
    2
}

// How long a run is from 247 on.
fn long_run(c: u8) -> u16 {
    match c {
        247 => 128,
        248 => 256,
        249 => 512,
        250 => 1024,
        251 => 2048,
        252 => 4096,
        253 => 8192,
        254 => 16384,
        _ => 32768,
    }
}

// How many bytes the step gives that starts with c.
fn count(c: u8) -> u16 {
    if c < 128 {
        return c as u16 + 1;
    }
    if c < 247 {
        return c as u16 - 125;
    }
    long_run(c)
}

// The byte i of a step.
fn byte(packed: &[u8], c: u8, i: u16) -> u8 {
    if c < 128 {
        return le::u8_at(packed, i as usize + 1);
    }
    le::u8_at(packed, 1)
}

// The bytes of one step.
fn step(to: &mut [u8], at: usize, packed: &[u8]) -> usize {
    let c = le::u8_at(packed, 0);
    let n = count(c);
    let mut end = at;
    for i in 0..n {
        end = put(to, end, byte(packed, c, i));
    }
    end
}

// Unpacks all, and says how many bytes there are.
pub(crate) fn unpack(to: &mut [u8], packed: &[u8]) -> usize {
    let mut end = 0;
    let mut from = 0;
    while from < packed.len() {
        end = step(to, end, record::from(packed, from));
        from += packed_bytes(packed[from]);
    }
    end
}
