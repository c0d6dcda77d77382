//! What a module declares, item by item.

ghost use Rattle.std.specs.Prelude.{◌≡◌, ◌∷◌, ◌++◌, [], List, IfOk, map};
ghost use Rattle.qtt_syntax.specs.Tree.{Item as ItemTree};
ghost use Rattle.qtt_syntax.specs.View.{item_of};
ghost use Rattle.qtt_split.specs.Calls.{clause_of};
ghost use Rattle.qtt_module.specs.Declarations.{declarations as declared_by};
ghost use Rattle.qtt_module.specs.Declaring.{declared, all_declared, after_clause, grouped, is_of_group as is_of};

use crate::declaration::{ClauseGroup, Declaration};
use qtt_base::MemoryError;
use qtt_syntax::{Clause, Item};
use std::alloc::Global;

/// Whether a clause is one more of these.
fn is_of_group(clauses: &[Clause], clause: &Clause) -> bool
    ensures { result ≡ is_of clauses.now clause.now }
{
    match clauses.first() {
        Some(first) => first.name.same(&clause.name),
        None => false,
    }
}

/// The group of one clause.
fn group_of(alloc: Global, clause: Clause) -> Result<Declaration, MemoryError>
    ensures { IfOk result (λ d. declared d ≡ grouped (clause ∷ [])) }
{
    let clauses = vec![in alloc; clause]?;
    Ok(Declaration::Group(ClauseGroup { clauses }))
}

/// A clause behind other declarations.
fn with_clause(
    alloc: Global,
    before: Vec<Declaration>,
    clause: Clause,
) -> Result<Vec<Declaration>, MemoryError>
    ensures { IfOk result (λ more. all_declared more.items ≡
        after_clause (all_declared before.items) clause.name (clause_of clause)) }
{
    let mut declared = before;
    match declared.pop() {
        Some(Declaration::Group(group)) => {
            let mut group = group;
            if is_of_group(&group.clauses, &clause) {
                group.clauses.push(clause)?;
                declared.push(Declaration::Group(group))?;
                return Ok(declared);
            }
            declared.push(Declaration::Group(group))?;
            declared.push(group_of(alloc, clause)?)?;
            Ok(declared)
        }
        Some(Declaration::Family(family)) => {
            declared.push(Declaration::Family(family))?;
            declared.push(group_of(alloc, clause)?)?;
            Ok(declared)
        }
        Some(Declaration::Signature(signature)) => {
            declared.push(Declaration::Signature(signature))?;
            declared.push(group_of(alloc, clause)?)?;
            Ok(declared)
        }
        None => {
            declared.push(group_of(alloc, clause)?)?;
            Ok(declared)
        }
    }
}

/// An item behind other declarations.
fn with_item(
    alloc: Global,
    before: Vec<Declaration>,
    item: Item,
) -> Result<Vec<Declaration>, MemoryError>
    ensures { (is : List ItemTree) → all_declared before.items ≡ declared_by is → IfOk result
        (λ more. all_declared more.items ≡ declared_by (is ++ item_of item ∷ [])) }
{
    let mut declared = before;
    match item {
        Item::Family(family) => {
            declared.push(Declaration::Family(family))?;
            Ok(declared)
        }
        Item::Signature(signature) => {
            declared.push(Declaration::Signature(signature))?;
            Ok(declared)
        }
        Item::Clause(clause) => with_clause(alloc, declared, clause),
    }
}

/// What these items declare, in the order of the text.
pub fn declarations(alloc: Global, items: Vec<Item>) -> Result<Vec<Declaration>, MemoryError>
    ensures { IfOk result
        (λ ds. all_declared ds.items ≡ declared_by (map item_of items.items)) }
{
    let mut declared = Vec::with_capacity(alloc, items.len())?;
    for item in items {
        declared = with_item(alloc, declared, item)?;
    }
    Ok(declared)
}
