//! What refusals keep.

use qtt_base::{Name, Quantity};
use qtt_syntax::Pattern;
use qtt_term::{Question, Term};
use qtt_usage::mult::Mult;

/// One variant for each kind of refusal, in the order of their numbers. Where terms are kept,
/// `depth` is the number of variables of the context in which they stand.
#[derive(Debug, Drop)]
pub enum Detail {
    NotUtf8,
    BadCharacter {
        character: char,
    },
    OpenText,
    OpenComment,
    NumberTooWide,
    NameTooLong,
    BadIndent,
    Unexpected {
        word: Vec<u8>,
    },
    TooDeep,
    /// The name as the text writes it, as in `Ambiguous` and `Duplicate`.
    Unbound {
        name: Name,
    },
    Ambiguous {
        name: Name,
    },
    Duplicate {
        name: Name,
    },
    /// The field's number is from 0.
    NotPositive {
        constructor: Name,
        field: u32,
    },
    NeedsType,
    NotAFunction {
        depth: u32,
        ty: Term,
    },
    TypeMismatch {
        depth: u32,
        expected: Term,
        found: Term,
    },
    WrongQuantity {
        expected: Mult,
        found: Mult,
    },
    /// The binder's name, where it has one.
    WrongUsage {
        name: Option<Name>,
        declared: Mult,
        used: Mult,
    },
    NotAType {
        depth: u32,
        ty: Term,
    },
    WrongLevel {
        declared: u32,
        found: u32,
    },
    WrongArity {
        expected: u64,
        found: u64,
    },
    NotAFamily {
        depth: u32,
        ty: Term,
    },
    /// The core of the name.
    ErasedUse {
        depth: u32,
        core: Term,
    },
    /// The contractions of one question, and the first question that took more.
    BudgetSpent {
        budget: u64,
        question: Question,
    },
    /// The sides of the equation as they stand where it arises.
    PatternStuck {
        depth: u32,
        left: Term,
        right: Term,
    },
    DotMismatch {
        depth: u32,
        expected: Term,
        found: Term,
    },
    /// The name of the argument in its signature or field, where it has one.
    ErasedMatch {
        name: Option<Name>,
    },
    Missing {
        definition: Name,
        patterns: Vec<Pattern>,
    },
    NoClauses {
        name: Name,
    },
    WrongMain,
    Limit {
        quantity: Quantity,
        count: u64,
    },
    WrongModuleName {
        expected: Name,
        found: Name,
    },
    /// The modules along the imports, from the least in byte order.
    Cycle {
        modules: Vec<Name>,
    },
    /// The name of the binder that is not filled.
    Unsolved {
        binder: Name,
    },
    NotAnAction {
        depth: u32,
        ty: Term,
    },
    Unreachable {
        definition: Name,
    },
    /// The names of the holes, in order.
    HasHoles {
        names: Vec<Name>,
    },
    /// The definition, family or constructor whose core is refused.
    CoreRefused {
        name: Name,
    },
}

impl Detail {
    ghost use Rattle.std.specs.Prelude.{◌≡◌};
    ghost use Rattle.qtt_rules.specs.Kinds.{kind_of};

    /// The number of the kind, from 1 to 38.
    pub fn kind(&self) -> u8
        ensures { result ≡ kind_of self.now }
    {
        match self {
            Detail::NotUtf8 => 1,
            Detail::BadCharacter { .. } => 2,
            Detail::OpenText => 3,
            Detail::OpenComment => 4,
            Detail::NumberTooWide => 5,
            Detail::NameTooLong => 6,
            Detail::BadIndent => 7,
            Detail::Unexpected { .. } => 8,
            Detail::TooDeep => 9,
            Detail::Unbound { .. } => 10,
            Detail::Ambiguous { .. } => 11,
            Detail::Duplicate { .. } => 12,
            Detail::NotPositive { .. } => 13,
            Detail::NeedsType => 14,
            Detail::NotAFunction { .. } => 15,
            Detail::TypeMismatch { .. } => 16,
            Detail::WrongQuantity { .. } => 17,
            Detail::WrongUsage { .. } => 18,
            Detail::NotAType { .. } => 19,
            Detail::WrongLevel { .. } => 20,
            Detail::WrongArity { .. } => 21,
            Detail::NotAFamily { .. } => 22,
            Detail::ErasedUse { .. } => 23,
            Detail::BudgetSpent { .. } => 24,
            Detail::PatternStuck { .. } => 25,
            Detail::DotMismatch { .. } => 26,
            Detail::ErasedMatch { .. } => 27,
            Detail::Missing { .. } => 28,
            Detail::NoClauses { .. } => 29,
            Detail::WrongMain => 30,
            Detail::Limit { .. } => 31,
            Detail::WrongModuleName { .. } => 32,
            Detail::Cycle { .. } => 33,
            Detail::Unsolved { .. } => 34,
            Detail::NotAnAction { .. } => 35,
            Detail::Unreachable { .. } => 36,
            Detail::HasHoles { .. } => 37,
            Detail::CoreRefused { .. } => 38,
        }
    }
}
