//! Lines and columns.

ghost use Rattle.std.specs.Prelude.{◌≡◌, ◌+◌, ◌*◌, ◌<◌, ◌≤◌, ◌^◌, length};
ghost use Rattle.qtt_lexer.specs.Place.{place_behind, place_after, span_at};

use qtt_base::Span;

/// A line and a column of a text, from 1.
#[derive(Clone, Copy, Debug, PartialEq, Eq)]
pub struct Place {
    pub line: u32,
    pub col: u32,
}

impl Place {
    /// So many characters from the place on.
    pub fn span(self, len: usize) -> Span
        requires { len < 2 ^ 32 }
        ensures { result ≡ span_at self len }
    {
        Span {
            line: self.line,
            col: self.col,
            len: len as u32,
        }
    }

    fn behind(self, character: char) -> Place
        requires line { self.line + 1 < 2 ^ 32 }
        requires col { self.col + 8 < 2 ^ 32 }
        ensures place { result ≡ place_behind self character }
        ensures line { result.line ≤ self.line + 1 }
        ensures col { result.col ≤ self.col + 8 }
    {
        match character {
            '\n' => Place {
                line: self.line + 1,
                col: 1,
            },
            '\t' => Place {
                line: self.line,
                col: (self.col + 7) / 8 * 8 + 1,
            },
            _ => Place {
                line: self.line,
                col: self.col + 1,
            },
        }
    }

    /// The place behind all of these characters.
    pub fn after(self, characters: &[char]) -> Place
        requires line { self.line + length characters.now < 2 ^ 32 }
        requires col { self.col + 8 * length characters.now < 2 ^ 32 }
        ensures place { result ≡ place_after self characters.now }
        ensures line { result.line ≤ self.line + length characters.now }
        ensures col { result.col ≤ self.col + 8 * length characters.now }
    {
        let mut place = self;
        for character in characters {
            place = place.behind(*character);
        }
        place
    }
}
