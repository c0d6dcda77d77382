//! Families.

ghost use Rattle.std.specs.Prelude.{◌≡◌, ℕ, IfOk, Some, map};
ghost use Rattle.qtt_syntax.specs.View.{tree_of, con_of, param_of};
ghost use Rattle.qtt_term.specs.Items.{constructor_entry, family as family_of, family_entry};
ghost use Rattle.qtt_term.specs.Scope.{scope_of};
ghost use Rattle.qtt_term.specs.Signature.{Env};
ghost use Rattle.qtt_positive.specs.FirstBad.{first_bad};
ghost use Rattle.qtt_bidi.specs.Answers.{Gives};
ghost use Rattle.qtt_bidi.specs.Calls.{Answers, entries_of};
ghost use Rattle.qtt_module.specs.Families.{family_with, level as level_asks, none_bad};
ghost use Rattle.qtt_module.specs.FamilyParts.{head as head_asks, completed};
ghost use Rattle.qtt_module.specs.FamilyView.{head_of};

use crate::accepting::as_sort;
use crate::binders::Indices;
use crate::chains::end_of;
use crate::contexts::{behind_indices, no_context, with_first_names};
use crate::declarer::Declarer;
use crate::heads::FamilyHead;
use qtt_base::{GlobalId, Name};
use qtt_bidi::{Mode, Scope, first_token};
use qtt_positive::{BadField, positive};
use qtt_rules::{Detail, ElabError};
use qtt_syntax::{ConDecl, Expr, Param};
use qtt_term::telescopes::number;
use qtt_term::{Converter, Ctx, Family, Rule, Sigma};

/// The refusal of a field that is not good for a family, at its constructor.
fn refused_bad(declared: &[ConDecl], bad: BadField) -> Result<(), ElabError>
    ensures { (E : Env) (n : ℕ) → Gives E n
        (none_bad (map con_of declared.now) (Some (bad.constructor, bad.field))) (λ u. u) result }
{
    let Some(constructor) = declared.get(bad.constructor) else {
        return Ok(());
    };
    let kept = Detail::NotPositive {
        constructor: constructor.name.copy()?,
        field: number(bad.field)?,
    };
    Err(ElabError::Refused(kept, constructor.span, Rule::Families, 7))
}

/// Each field is good for a family.
fn all_good(family: &Family, declared: &[ConDecl]) -> Result<(), ElabError>
    ensures { (E : Env) (n : ℕ) → Gives E n
        (none_bad (map con_of declared.now) (first_bad family.now.id (family_of family.now)))
        (λ u. u) result }
{
    match positive(family) {
        Ok(()) => Ok(()),
        Err(bad) => refused_bad(declared, bad),
    }
}

impl<'a, C: Converter> Declarer<'a, C> {
    /// The level of a family, at the end of its type.
    fn level(&self, context: &Ctx, end: &Expr) -> Result<u32, ElabError>
        ensures { Answers self.now.elaborator
            (level_asks (entries_of self.now.elaborator) (scope_of context.now) (tree_of end.now))
            (λ l. l) result }
    {
        let scope = Scope::Outer(context);
        let found = self
            .elaborator
            .judge(&scope, Sigma::Erased, Mode::Synth, end)?;
        match as_sort(&found.core) {
            Some(level) => Ok(level),
            None => {
                let kept = Detail::NotAType {
                    depth: number(context.vars.len())?,
                    ty: found.core,
                };
                Err(ElabError::Refused(kept, first_token(end), Rule::Families, 2))
            }
        }
    }

    /// A family without its constructors.
    pub fn family_head(
        &self,
        id: GlobalId,
        name: &Name,
        params: &[Param],
        ty: &Expr,
    ) -> Result<FamilyHead, ElabError>
        ensures { Answers self.now.elaborator
            (head_asks (entries_of self.now.elaborator) id self.now.home.now name.now
            (map param_of params.now) (tree_of ty.now)) (head_of self.now.home.now) result }
    {
        let alloc = self.elaborator.alloc;
        let params = self.parameters(name, no_context(alloc), params)?;
        let count = params.names.len();
        let behind = behind_indices(params, ty)?;
        let level = self.level(&behind, end_of(ty))?;
        let before = Indices {
            types: Vec::new(alloc),
            context: with_first_names(behind, count),
        };
        let Indices { types, context } = self.indices(name, before, ty)?;
        Ok(FamilyHead {
            id,
            name: name.copy()?,
            params: with_first_names(context, count),
            indices: types,
            level,
        })
    }

    /// A family that stands in the environment without its constructors.
    pub fn family(&self, head: &FamilyHead, declared: &[ConDecl]) -> Result<Family, ElabError>
        ensures gives { Answers self.now.elaborator
            (completed (entries_of self.now.elaborator) (head_of self.now.home.now head.now)
            (map con_of declared.now)) family_entry result }
        ensures whole { IfOk result (λ f. family_entry f ≡
            family_with (head_of self.now.home.now head.now)
            (map constructor_entry f.constructors.items)) }
    {
        let alloc = self.elaborator.alloc;
        let constructors = self.constructors(head, Vec::new(alloc), declared)?;
        let family = head.family(alloc, self.home, constructors)?;
        all_good(&family, declared)?;
        Ok(family)
    }
}
