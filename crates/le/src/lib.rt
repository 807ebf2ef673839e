// Numbers and flags at an offset of a slice, little-endian. Every record reads its fields through these.
#![tactic(auto)]

ghost use Rattle.std.specs.Prelude.{◌≡◌};
ghost use Rattle.le.specs.Le.{u8_at, u16_at, u32_at, flag_at};

pub fn u8_at(s: &[u8], at: usize) -> u8
    ensures { result ≡ u8_at s.now at }
{
    s.get(at).copied().unwrap_or(0)
}

// The part from at onward has its two bytes at 0 and 1, whatever at is.
pub fn u16_at(s: &[u8], at: usize) -> u16
    ensures { result ≡ u16_at s.now at }
{
    let t = s.get(at..).unwrap_or(&[]);
    u16::from_le_bytes([u8_at(t, 0), u8_at(t, 1)])
}

pub fn u32_at(s: &[u8], at: usize) -> u32
    ensures { result ≡ u32_at s.now at }
{
    let t = s.get(at..).unwrap_or(&[]);
    u32::from_le_bytes([u8_at(t, 0), u8_at(t, 1), u8_at(t, 2), u8_at(t, 3)])
}

pub fn flag_at(s: &[u8], at: usize) -> bool
    ensures { result ≡ flag_at s.now at }
{
    u8_at(s, at) != 0
}
