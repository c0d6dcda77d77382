//! Chains of function types: the binders of a type, and its end.

ghost use Rattle.std.specs.Prelude.{◌≡◌, ◌++◌, IfOk};
ghost use Rattle.qtt_syntax.specs.View.{tree_of};
ghost use Rattle.qtt_module.specs.Families.{end_of as end_behind, labels as names_of};

use qtt_base::{MemoryError, Name};
use qtt_syntax::Expr;
use std::alloc::Global;

/// What stands behind a chain's binders.
pub fn end_of(chain: &Expr) -> &Expr
    ensures { tree_of result.now ≡ end_behind (tree_of chain.now) }
{
    match chain {
        Expr::Pi { codomain, .. } => end_of(codomain),
        _ => chain,
    }
}

/// The names of a chain's binders, `_` where one has none.
pub fn labels(alloc: Global, chain: &Expr) -> Result<Vec<Name>, MemoryError>
    ensures { IfOk result (λ v. v.items ≡ names_of (tree_of chain.now)) }
{
    with_labels(Vec::new(alloc), chain)
}

/// The same behind other names.
fn with_labels(names: Vec<Name>, chain: &Expr) -> Result<Vec<Name>, MemoryError>
    ensures { IfOk result (λ v. v.items ≡ names.items ++ names_of (tree_of chain.now)) }
{
    match chain {
        Expr::Pi { name, codomain, .. } => {
            let mut names = names;
            names.push(name.copy()?)?;
            with_labels(names, codomain)
        }
        _ => Ok(names),
    }
}
