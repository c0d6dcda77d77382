//! Good types of fields, and the first that is not.

ghost use Rattle.std.specs.Prelude.{◌≡◌, ◌↔◌, Some, IsOk, IfErr, map};
ghost use Rattle.qtt_term.specs.Items.{family as family_of, field as field_of};
ghost use Rattle.qtt_term.specs.Positivity.{Positive};
ghost use Rattle.qtt_term.specs.View.{term};
ghost use Rattle.qtt_positive.specs.FirstBad.{is_good as good, bad_field as first_field, first_bad, IsFirstBad};

use crate::occurrence::{occurs, occurs_in};
use qtt_base::GlobalId;
use qtt_term::{Family, Term};
use qtt_usage::mult::Mult;

/// The first field whose type is not good, and its constructor, each by its number from 0.
#[derive(Clone, Copy, Debug, PartialEq, Eq)]
pub struct BadField {
    pub constructor: usize,
    pub field: usize,
}

/// Whether the family is strictly positive; if not, where it first is not.
pub fn positive(family: &Family) -> Result<(), BadField>
    ensures ok { IsOk result ↔ Positive family.now.id (family_of family.now) }
    ensures first { IfErr result
        (λ b. first_bad family.now.id (family_of family.now) ≡ Some (b.constructor, b.field)) }
    ensures words { IfErr result
        (λ b. IsFirstBad family.now.id (family_of family.now) b.constructor b.field) }
{
    for (constructor, it) in family.constructors.iter().enumerate() {
        if let Some(field) = bad_field(family.id, &it.fields) {
            return Err(BadField { constructor, field });
        }
    }
    Ok(())
}

/// The first field whose type is not good for a family.
fn bad_field(family: GlobalId, fields: &[(Mult, Term)]) -> Option<usize>
    ensures { result ≡ first_field family 0 (map field_of fields.now) }
{
    for (place, (_mult, ty)) in fields.iter().enumerate() {
        if !is_good(family, ty) {
            return Some(place);
        }
    }
    None
}

/// Whether the type of a field is good for a family.
fn is_good(family: GlobalId, source: &Term) -> bool
    ensures { result ≡ good family (term source.now) }
{
    match source {
        Term::Pi(_, domain, codomain) => !occurs(family, domain) && is_good(family, codomain),
        Term::Fam(_, args) => !occurs_in(family, args),
        _ => !occurs(family, source),
    }
}
