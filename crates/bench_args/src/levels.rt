// LEVELS: which of CS1, CS2, CS3, X1, X2 are high, as in cs1=1,x1=0.

/// The levels that are given; a line that is not named has none, and is low.
#[derive(Clone, Copy, Debug, Default, PartialEq, Eq)]
pub struct Levels {
    pub cs1: Option<bool>,
    pub cs2: Option<bool>,
    pub cs3: Option<bool>,
    pub x1: Option<bool>,
    pub x2: Option<bool>,
}

impl Levels {
    // Gives one line's level. Each line is named once.
    fn give(&mut self, piece: &[u8]) -> Option<()> {
        let (name, level) = match piece {
            [name @ .., b'=', b'0'] => (name, false),
            [name @ .., b'=', b'1'] => (name, true),
            _ => return None,
        };
        let line = match name {
            b"cs1" => &mut self.cs1,
            b"cs2" => &mut self.cs2,
            b"cs3" => &mut self.cs3,
            b"x1" => &mut self.x1,
            b"x2" => &mut self.x2,
            _ => return None,
        };
        match line.replace(level) {
            None => Some(()),
            Some(_) => None,
        }
    }

    // The word low names no line.
    pub(crate) fn parse(word: &[u8]) -> Option<Levels> {
        let mut levels = Levels::default();
        if word == b"low".as_slice() {
            return Some(levels);
        }
        for piece in word.split(|b| *b == b',') {
            levels.give(piece)?;
        }
        Some(levels)
    }
}
