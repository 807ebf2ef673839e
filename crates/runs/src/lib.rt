// Runs of bytes at an offset of a slice: of any length, and of four, eight and sixteen.
#![tactic(auto)]

ghost use Rattle.std.specs.Prelude.{◌≡◌};
ghost use Rattle.runs.specs.Runs.{bytes_at, four_at, eight_at, sixteen_at};

// N bytes of s from at onward; a byte past the end counts as 0.
pub fn bytes_at<const N: usize>(s: &[u8], at: usize) -> [u8; N]
    ensures { result ≡ bytes_at s.now at N }
{
    let part = s.get(at..).unwrap_or(&[]);
    std::array::from_fn(|i| le::u8_at(part, i))
}

#[tactic(auto, using(crate::specs::Laws::four_is))]
pub fn four_at(s: &[u8], at: usize) -> [u8; 4]
    ensures { result ≡ four_at s.now at }
{
    bytes_at::<4>(s, at)
}

#[tactic(auto, using(crate::specs::Laws::eight_is))]
pub fn eight_at(s: &[u8], at: usize) -> [u8; 8]
    ensures { result ≡ eight_at s.now at }
{
    bytes_at::<8>(s, at)
}

#[tactic(auto, using(crate::specs::Laws::sixteen_is))]
pub fn sixteen_at(s: &[u8], at: usize) -> [u8; 16]
    ensures { result ≡ sixteen_at s.now at }
{
    bytes_at::<16>(s, at)
}
