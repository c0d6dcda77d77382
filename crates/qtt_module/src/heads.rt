//! Families without their constructors.

ghost use Rattle.std.specs.Prelude.{◌≡◌, IfOk, IsTrue, map};
ghost use Rattle.qtt_term.specs.Telescopes.{tele};
ghost use Rattle.qtt_term.specs.View.{terms};
ghost use Rattle.qtt_module.specs.FamilyParts.{are_erased};

use crate::names::qualified;
use qtt_base::{GlobalId, MemoryError, Name};
use qtt_term::copying::copy_all;
use qtt_term::{Constructor, Ctx, Family, Term, TermError};
use qtt_usage::mult::Mult;
use std::alloc::Global;

/// What the constructors of a family are judged by: its id, its name in its module, its
/// parameters, the types of its indices and its level.
#[derive(Debug, Drop)]
pub struct FamilyHead {
    pub id: GlobalId,
    pub name: Name,
    pub params: Ctx,
    pub indices: Vec<Term>,
    pub level: u32,
    pub ghost erased: { IsTrue (are_erased (tele params.vars.items)) },
}

/// The types of binders.
fn types_of(alloc: Global, binders: &[(Mult, Term)]) -> Result<Vec<Term>, TermError>
    ensures { IfOk result (λ v. terms v.items ≡ map (λ b. b.1) (tele binders.now)) }
{
    let mut types = Vec::with_capacity(alloc, binders.len())?;
    for (_mult, ty) in binders {
        types.push(ty.copy(alloc)?)?;
    }
    Ok(types)
}

impl FamilyHead {
    ghost use Rattle.qtt_term.specs.Items.{constructor_entry, family_entry};
    ghost use Rattle.qtt_module.specs.Families.{family_with};
    ghost use Rattle.qtt_module.specs.FamilyView.{head_of};

    /// The family of a module of this name, with these constructors.
    pub fn family(
        &self,
        alloc: Global,
        home: &Name,
        constructors: Vec<Constructor>,
    ) -> Result<Family, MemoryError>
        ensures { IfOk result (λ F. family_entry F ≡ family_with (head_of home.now self.now)
            (map constructor_entry constructors.items)) }
    {
        Ok(Family {
            id: self.id,
            name: qualified(alloc, home, &self.name)?,
            params: types_of(alloc, &self.params.vars)?,
            indices: copy_all(alloc, &self.indices)?,
            level: self.level,
            constructors,
        })
    }
}
