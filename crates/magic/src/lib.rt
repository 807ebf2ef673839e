// The test for a magic, with which records begin.
#![tactic(auto)]

ghost use Rattle.std.specs.Prelude.{◌≡◌};
ghost use Rattle.magic.specs.Magic.{starts_with};

// Whether s starts with the bytes of m.
pub fn starts_with(s: &[u8], m: &[u8]) -> bool
    ensures { result ≡ starts_with s.now m.now }
{
    m.len() <= s.len() && s.iter().zip(m).all(|(a, b)| a == b)
}
