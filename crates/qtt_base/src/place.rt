//! Places in a module's text, and the numbers of modules and of their items.

ghost use Rattle.std.specs.Prelude.{◌≡◌, ◌↔◌, IsTrue};

/// Where a token or a form stands: its line and column, from 1, and its number of characters.
#[derive(Clone, Copy, Debug, PartialEq, Eq, PartialOrd, Ord, Hash)]
pub struct Span {
    pub line: u32,
    pub col: u32,
    pub len: u32,
}

/// The number of a module in a build: 0 is `Prim`, and the others count from 1.
#[derive(Clone, Copy, Debug, PartialEq, Eq, PartialOrd, Ord, Hash)]
pub struct ModuleId(pub u32);

/// A family, a constructor or a definition: its module, and its number there, counted from 0.
#[derive(Clone, Copy, Debug, PartialEq, Eq, PartialOrd, Ord, Hash)]
pub struct GlobalId {
    pub module: ModuleId,
    pub item: u32,
}

impl Span {
    pub fn same(self, other: Span) -> bool
        ensures { IsTrue result ↔ (self ≡ other) }
    {
        self.line == other.line && self.col == other.col && self.len == other.len
    }
}

impl ModuleId {
    pub fn same(self, other: ModuleId) -> bool
        ensures { IsTrue result ↔ (self ≡ other) }
    {
        self.0 == other.0
    }
}

impl GlobalId {
    pub fn same(self, other: GlobalId) -> bool
        ensures { IsTrue result ↔ (self ≡ other) }
    {
        self.module.same(other.module) && self.item == other.item
    }
}
