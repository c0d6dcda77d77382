//! A declaration of a module.

ghost use Rattle.std.specs.Prelude.{◌<◌, length};

use qtt_syntax::{Clause, FamilyDecl, SignatureDecl};

/// Clauses of one name that stand one after another.
#[derive(Debug, Drop)]
pub struct ClauseGroup {
    pub clauses: Vec<Clause>,
    pub ghost some: { 0 < length clauses.items },
}

/// A family, a signature, or a definition's clauses.
#[derive(Debug, Drop)]
pub enum Declaration {
    Family(FamilyDecl),
    Signature(SignatureDecl),
    Group(ClauseGroup),
}
