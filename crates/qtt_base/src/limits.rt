//! The greatest numbers that a build accepts.

ghost use Rattle.std.specs.Prelude.{◌≡◌, ◌↔◌, IsTrue};
ghost use Rattle.qtt_base.specs.Limits.{standard, limit_of, words_of};

/// The limits of a build, one for each quantity.
#[derive(Clone, Copy, Debug, PartialEq, Eq)]
pub struct Limits {
    pub text_bytes: u64,
    pub modules: u64,
    pub items: u64,
    pub constructors: u64,
    pub parts: u64,
    pub clauses: u64,
    pub leaves: u64,
    pub statements: u64,
    pub literal_bytes: u64,
    pub type_number: u64,
    pub blocks: u64,
    pub instructions: u64,
    pub filled_nodes: u64,
}

/// What is counted against a limit.
#[derive(Clone, Copy, Debug, PartialEq, Eq)]
pub enum Quantity {
    TextBytes,
    Modules,
    Items,
    Constructors,
    /// Parameters, indices, fields or patterns of one thing.
    Parts,
    Clauses,
    /// Leaves of a clause tree.
    Leaves,
    /// Statements of one `do`.
    Statements,
    LiteralBytes,
    /// The number after `Type`.
    TypeNumber,
    Blocks,
    Instructions,
    /// Nodes of an item with its implicit arguments filled in.
    FilledNodes,
}

impl Limits {
    pub fn standard() -> Limits
        ensures { result ≡ standard }
    {
        Limits {
            text_bytes: 1_048_576,
            modules: 1_000,
            items: 10_000,
            constructors: 200,
            parts: 100,
            clauses: 1_000,
            leaves: 10_000,
            statements: 500,
            literal_bytes: 65_536,
            type_number: 99,
            blocks: 1_000_000,
            instructions: 10_000_000,
            filled_nodes: 1_000_000,
        }
    }

    /// The greatest number of this quantity.
    pub fn of(self, quantity: Quantity) -> u64
        ensures { result ≡ limit_of self quantity }
    {
        match quantity {
            Quantity::TextBytes => self.text_bytes,
            Quantity::Modules => self.modules,
            Quantity::Items => self.items,
            Quantity::Constructors => self.constructors,
            Quantity::Parts => self.parts,
            Quantity::Clauses => self.clauses,
            Quantity::Leaves => self.leaves,
            Quantity::Statements => self.statements,
            Quantity::LiteralBytes => self.literal_bytes,
            Quantity::TypeNumber => self.type_number,
            Quantity::Blocks => self.blocks,
            Quantity::Instructions => self.instructions,
            Quantity::FilledNodes => self.filled_nodes,
        }
    }
}

impl Quantity {
    /// The words by which a refusal names the quantity.
    pub fn words(self) -> &'static str
        ensures { result.now ≡ words_of self }
    {
        match self {
            Quantity::TextBytes => "bytes of a module text",
            Quantity::Modules => "modules of a build",
            Quantity::Items => "items of a module",
            Quantity::Constructors => "constructors of a family",
            Quantity::Parts => "parameters, indices, fields, or patterns of one thing",
            Quantity::Clauses => "clauses of a definition",
            Quantity::Leaves => "leaves of a clause tree",
            Quantity::Statements => "statements of a do",
            Quantity::LiteralBytes => "bytes of a text literal",
            Quantity::TypeNumber => "number after Type",
            Quantity::Blocks => "blocks of a program",
            Quantity::Instructions => "instructions of a program",
            Quantity::FilledNodes => "nodes of a filled item",
        }
    }

    pub fn same(self, other: Quantity) -> bool
        ensures { IsTrue result ↔ (self ≡ other) }
    {
        self == other
    }
}
