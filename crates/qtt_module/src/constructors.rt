//! Constructors of a family.

ghost use Rattle.std.specs.Prelude.{◌≡◌, ◌+◌, IfOk, Some, None, cond, drop, eqb, length, map, option_map, take};
ghost use Rattle.qtt_syntax.specs.View.{tree_of, con_of};
ghost use Rattle.qtt_term.specs.Forms.{front};
ghost use Rattle.qtt_term.specs.Items.{constructor_entry};
ghost use Rattle.qtt_term.specs.Question.{same, sames};
ghost use Rattle.qtt_term.specs.Scope.{scope_of};
ghost use Rattle.qtt_term.specs.Substitution.{above, shift};
ghost use Rattle.qtt_term.specs.Term.{var, skip};
ghost use Rattle.qtt_term.specs.View.{term, terms, side_by_side};
ghost use Rattle.qtt_bidi.specs.Calls.{Answers, entries_of};
ghost use Rattle.qtt_module.specs.Families.{as_results as results_seen, constructor as constructor_asks, constructors as constructors_ask};
ghost use Rattle.qtt_module.specs.FamilyParts.{results as results_ask};
ghost use Rattle.qtt_module.specs.FamilyView.{head_of};

use crate::chains::{end_of, labels};
use crate::contexts::copied_context;
use crate::declarer::Declarer;
use crate::heads::FamilyHead;
use crate::names::{item_behind, qualified, same_id};
use qtt_base::GlobalId;
use qtt_bidi::{Mode, Scope, first_token};
use qtt_rules::{Detail, ElabError};
use qtt_syntax::{ConDecl, Expr};
use qtt_term::copying::copy_all;
use qtt_term::telescopes::number;
use qtt_term::{Constructor, Converter, Ctx, Rule, Sigma, Term};

/// An index is so far above the newest ones.
fn is_above(index: usize, newest: usize, place: usize) -> bool
    ensures { result ≡ eqb index (newest + place) }
{
    match index.checked_sub(newest) {
        Some(rest) => rest == place,
        None => false,
    }
}

/// A term is the variable so far above the newest ones.
fn is_variable(t: &Term, newest: usize, place: usize) -> bool
    ensures { result ≡ same (term t.now) (var (shift newest place)) }
{
    match t {
        Term::Var(index) => is_above(*index as usize, newest, place),
        _ => false,
    }
}

/// What stands behind a family's parameters, so many, under so many fields; none where the terms
/// do not begin with them.
fn behind_parameters(values: &[Term], params: usize, fields: usize) -> Option<&[Term]>
    ensures { option_map (λ s. side_by_side (terms s.now)) result ≡
        cond (sames (front params (side_by_side (terms values.now))) (above fields params))
        (Some (skip params (side_by_side (terms values.now)))) None }
{
    if params == 0 {
        return Some(values);
    }
    match values {
        [] => None,
        [first, rest @ ..] => {
            if is_variable(first, fields, params - 1) {
                behind_parameters(rest, params - 1, fields)
            } else {
                None
            }
        }
    }
}

/// The indices of a constructor's result.
fn as_results(family: GlobalId, params: usize, fields: usize, core: &Term) -> Option<&[Term]>
    ensures { option_map (λ s. side_by_side (terms s.now)) result ≡
        results_seen family params fields (term core.now) }
{
    match core {
        Term::Fam(found, values) => {
            if same_id(family, *found) {
                behind_parameters(values, params, fields)
            } else {
                None
            }
        }
        _ => None,
    }
}

impl<'a, C: Converter> Declarer<'a, C> {
    /// The indices of the result of a constructor with so many fields in this context.
    fn results(
        &self,
        head: &FamilyHead,
        context: &Ctx,
        fields: usize,
        end: &Expr,
    ) -> Result<Vec<Term>, ElabError>
        ensures { Answers self.now.elaborator
            (results_ask (entries_of self.now.elaborator) head.now.id
            (length head.now.params.vars.items) fields (scope_of context.now) (tree_of end.now))
            (λ v. side_by_side (terms v.items)) result }
    {
        let scope = Scope::Outer(context);
        let found = self
            .elaborator
            .judge(&scope, Sigma::Erased, Mode::Synth, end)?;
        let params = head.params.vars.len();
        if let Some(results) = as_results(head.id, params, fields, &found.core) {
            return Ok(copy_all(self.elaborator.alloc, results)?);
        }
        let kept = Detail::NotAFamily {
            depth: number(context.vars.len())?,
            ty: found.core,
        };
        Err(ElabError::Refused(kept, first_token(end), Rule::Families, 6))
    }

    /// The constructor of this place in a family.
    fn constructor(
        &self,
        head: &FamilyHead,
        place: usize,
        declared: &ConDecl,
    ) -> Result<Constructor, ElabError>
        ensures { Answers self.now.elaborator
            (constructor_asks (entries_of self.now.elaborator)
            (head_of self.now.home.now head.now) place (con_of declared.now)) constructor_entry
            result }
    {
        let alloc = self.elaborator.alloc;
        let params = copied_context(alloc, &head.params)?;
        let count = head.params.vars.len();
        let context = self.fields(&declared.name, head.level, params, &declared.ty)?;
        let fields = context.vars.len() - count;
        let result = self.results(head, &context, fields, end_of(&declared.ty))?;
        let mut vars = context.vars;
        Ok(Constructor {
            id: item_behind(head.id, place)?,
            name: qualified(alloc, self.home, &declared.name)?,
            fields: vars.split_off(count)?,
            labels: labels(alloc, &declared.ty)?,
            result,
        })
    }

    /// The constructors of a family behind its first ones.
    pub fn constructors(
        &self,
        head: &FamilyHead,
        before: Vec<Constructor>,
        declared: &[ConDecl],
    ) -> Result<Vec<Constructor>, ElabError>
        ensures gives { Answers self.now.elaborator
            (constructors_ask (entries_of self.now.elaborator)
            (head_of self.now.home.now head.now) (length before.items) (map con_of declared.now))
            (λ v. drop (length before.items) (map constructor_entry v.items)) result }
        ensures kept { IfOk result (λ v.
            take (length before.items) (map constructor_entry v.items) ≡
            map constructor_entry before.items) }
    {
        match declared {
            [] => Ok(before),
            [first, rest @ ..] => {
                let next = self.constructor(head, before.len(), first)?;
                let mut before = before;
                before.push(next)?;
                self.constructors(head, before, rest)
            }
        }
    }
}
