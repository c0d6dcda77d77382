//! Signatures that were judged.

ghost use Rattle.std.specs.Prelude.{◌≡◌, map, option_map, bytes_eq, cond, true};
ghost use Rattle.qtt_module.specs.GivenBodies.{signed_of};
ghost use Rattle.qtt_module.specs.Module.{first_bare as first_without, signed_as as first_named, with_clauses};

use qtt_base::{GlobalId, Name, Span};

/// A signature that was judged: its definition's id, its name and place, the names of the written
/// binders of its type, whether the definition may miss values, and whether clauses for it came.
#[derive(Debug, Drop)]
pub struct Signed {
    pub id: GlobalId,
    pub name: Name,
    pub place: Span,
    pub labels: Vec<Name>,
    pub may_miss: bool,
    pub has_clauses: bool,
}

fn is_named(one: &Signed, name: &Name) -> bool
    ensures { result ≡ bytes_eq one.now.name name.now }
{
    one.name.same(name)
}

/// The first of this name.
pub fn signed_as<'s>(signed: &'s [Signed], name: &Name) -> Option<&'s Signed>
    ensures { option_map (λ x. signed_of x.now) result ≡
        first_named name.now (map signed_of signed.now) }
{
    for one in signed {
        if is_named(one, name) {
            return Some(one);
        }
    }
    None
}

/// The first for which no clauses came.
pub fn first_bare(signed: &[Signed]) -> Option<&Signed>
    ensures { option_map (λ x. signed_of x.now) result ≡ first_without (map signed_of signed.now) }
{
    for one in signed {
        if !one.has_clauses {
            return Some(one);
        }
    }
    None
}

/// Whether clauses came for one, where they came for those of this name.
fn marked(one: &Signed, name: &Name) -> bool
    ensures { result ≡ cond (bytes_eq name.now one.now.name) true one.now.has_clauses }
{
    name.same(&one.name) || one.has_clauses
}

/// Clauses came for those of this name.
pub fn mark(signed: &mut [Signed], name: &Name)
    ensures { map signed_of signed.new ≡ map (with_clauses name.now) (map signed_of signed.old) }
{
    for one in signed.iter_mut() {
        one.has_clauses = marked(one, name);
    }
}
