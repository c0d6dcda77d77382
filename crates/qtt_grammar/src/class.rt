//! What the grammar asks of a mark or a token.

ghost use Rattle.std.specs.Prelude.{◌≡◌};
ghost use Rattle.qtt_grammar.specs.Classes.{rank, same, is_name, is_simple, is_constructor, is_bname, is_digit, is_natural, is_word, is_pattern_word, starts_atom, starts_binder, starts_pattern, starts_item, opens_statement, opens_pattern};
ghost use Rattle.qtt_grammar.specs.Readers.{statement_starts, starts_equation};

/// The form of a mark or a token, as far as the grammar tells forms apart.
#[derive(Clone, Copy, Debug, PartialEq, Eq)]
pub enum Class {
    /// A block opens.
    Open,
    /// The next part of a block begins.
    Next,
    /// A block closes.
    Close,
    Module,
    Import,
    Data,
    Where,
    Do,
    Let,
    In,
    Partial,
    The,
    /// `Type`
    Universe,
    /// A name of one part that isn't big.
    Small,
    /// A big name of one part.
    Big,
    /// A name of several parts that isn't big.
    SmallPath,
    /// A big name of several parts.
    BigPath,
    /// `_`
    Wildcard,
    /// A number spelled `0`.
    Zero,
    /// A number spelled `1`.
    One,
    /// Any other number that isn't negative.
    Natural,
    Negative,
    Text,
    Hole,
    LeftParen,
    RightParen,
    DotParen,
    Arrow,
    LeftArrow,
    FatArrow,
    Colon,
    Equals,
    Backslash,
    LeftBrace,
    RightBrace,
    /// What stands in no text with its blocks.
    Other,
}

/// Which limits are looked at.
#[derive(Clone, Copy, Debug, PartialEq, Eq)]
pub enum Pass {
    /// Those on items, clauses, constructors, parameters, patterns, statements, the bytes of a
    /// text and the number after `Type`; the one on indices and fields is no part of it.
    Counts,
    /// None of them.
    Free,
}

/// How a statement may stand in its block.
#[derive(Clone, Copy, Debug, PartialEq, Eq)]
pub enum Standing {
    /// Another one follows.
    Before,
    /// Another one may follow.
    Within,
    /// It is the last one.
    Last,
}

impl Class {
    fn rank(self) -> u8
        ensures { result ≡ rank self }
    {
        self as u8
    }

    pub fn same(self, other: Class) -> bool
        ensures { result ≡ same self other }
    {
        self.rank() == other.rank()
    }

    /// Any name.
    pub fn is_name(self) -> bool
        ensures { result ≡ is_name self }
    {
        matches!(
            self,
            Class::Small | Class::Big | Class::SmallPath | Class::BigPath
        )
    }

    /// A name of one part.
    pub fn is_simple(self) -> bool
        ensures { result ≡ is_simple self }
    {
        matches!(self, Class::Small | Class::Big)
    }

    /// Any big name.
    pub fn is_constructor(self) -> bool
        ensures { result ≡ is_constructor self }
    {
        matches!(self, Class::Big | Class::BigPath)
    }

    /// What a binder may bind.
    pub fn is_bname(self) -> bool
        ensures { result ≡ is_bname self }
    {
        matches!(self, Class::Small | Class::Big | Class::Wildcard)
    }

    /// A mark of multiplicity.
    pub fn is_digit(self) -> bool
        ensures { result ≡ is_digit self }
    {
        matches!(self, Class::Zero | Class::One)
    }

    /// A number that isn't negative.
    pub fn is_natural(self) -> bool
        ensures { result ≡ is_natural self }
    {
        matches!(self, Class::Zero | Class::One | Class::Natural)
    }

    /// What is an atom by itself, but for names.
    pub fn is_word(self) -> bool
        ensures { result ≡ is_word self }
    {
        matches!(
            self,
            Class::Zero
                | Class::One
                | Class::Natural
                | Class::Negative
                | Class::Text
                | Class::Universe
        )
    }

    /// What is a pattern by itself, but for constructors.
    pub fn is_pattern_word(self) -> bool
        ensures { result ≡ is_pattern_word self }
    {
        matches!(self, Class::Small | Class::Wildcard)
    }

    /// What begins an atom.
    pub fn starts_atom(self) -> bool
        ensures { result ≡ starts_atom self }
    {
        self.is_name() || self.is_word() || matches!(self, Class::LeftParen)
    }

    /// What begins a binder of a function.
    pub fn starts_binder(self) -> bool
        ensures { result ≡ starts_binder self }
    {
        self.is_bname() || matches!(self, Class::LeftParen)
    }

    /// What begins a pattern.
    pub fn starts_pattern(self) -> bool
        ensures { result ≡ starts_pattern self }
    {
        matches!(
            self,
            Class::Small
                | Class::Wildcard
                | Class::Big
                | Class::BigPath
                | Class::LeftParen
                | Class::DotParen
        )
    }

    /// What begins the patterns and the `=` of a clause.
    pub fn starts_equation(self) -> bool
        ensures { result ≡ starts_equation self }
    {
        matches!(self, Class::Equals) || self.starts_pattern()
    }

    /// What begins an item.
    pub fn starts_item(self) -> bool
        ensures { result ≡ starts_item self }
    {
        matches!(
            self,
            Class::Data | Class::Partial | Class::Zero | Class::Small | Class::Big
        )
    }

    /// What begins a statement only as it opens a nesting level.
    pub fn opens_statement(self) -> bool
        ensures { result ≡ opens_statement self }
    {
        matches!(
            self,
            Class::Backslash | Class::Let | Class::Do | Class::LeftParen
        )
    }

    /// What begins a statement where another level may open, or where none may.
    pub fn starts_statement(self, may: bool, tail: bool) -> bool
        ensures { result ≡ statement_starts may tail self }
    {
        match self {
            Class::Backslash | Class::Let | Class::Do | Class::LeftParen => may,
            Class::Hole => tail,
            Class::The | Class::Wildcard => true,
            _ => self.starts_atom(),
        }
    }

    /// What opens a nesting level before a pattern.
    pub fn opens_pattern(self) -> bool
        ensures { result ≡ opens_pattern self }
    {
        matches!(self, Class::LeftParen | Class::DotParen)
    }
}
