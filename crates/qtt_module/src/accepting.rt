//! The last judgement of the types of items, which is the core's.

ghost use Rattle.std.specs.Prelude.{◌≡◌};
ghost use Rattle.qtt_term.specs.Forms.{as_sort as sort_seen};
ghost use Rattle.qtt_term.specs.Scope.{depth, scope_of};
ghost use Rattle.qtt_term.specs.View.{term};
ghost use Rattle.qtt_rules.specs.Refusal.{Cause, at};
ghost use Rattle.qtt_bidi.specs.Answers.{Told};
ghost use Rattle.qtt_bidi.specs.Calls.{Answers, entries_of};
ghost use Rattle.qtt_module.specs.Families.{accepted as accepted_asks, is_within as is_so_low};
ghost use Rattle.qtt_module.specs.FamilyParts.{Untyped, core_sort as sort_asks, sort_within as sort_within_asks};

use crate::declarer::Declarer;
use qtt_base::{Name, Span};
use qtt_core_check::{CoreRefusal, infer};
use qtt_rules::{Detail, ElabError};
use qtt_term::telescopes::number;
use qtt_term::{Converter, Ctx, Head, Question, Rule, Sigma, Term};

/// The level of a Sort.
pub fn as_sort(t: &Term) -> Option<u32>
    ensures { result ≡ sort_seen (term t.now) }
{
    match t {
        Term::Sort(level) => Some(*level),
        _ => None,
    }
}

/// A level is at most this one, where there is one.
fn is_within(bound: Option<u32>, level: u32) -> bool
    ensures { result ≡ is_so_low bound level }
{
    match bound {
        Some(bound) => level <= bound,
        None => true,
    }
}

/// The refusal where the core judgement does not accept a type of this item.
fn core_refused(name: &Name, span: Span, rule: Rule, number: u8) -> ElabError
    ensures { Told (Cause.core_refused name.now) (at span rule number) result }
{
    match name.copy() {
        Ok(name) => ElabError::Refused(Detail::CoreRefused { name }, span, rule, number),
        Err(_) => ElabError::Memory,
    }
}

/// The refusal of a type of this item that the core judgement does not accept.
fn untyped(budget: u64, name: &Name, span: Span, refusal: CoreRefusal) -> ElabError
    ensures { Untyped name.now budget span refusal result }
{
    match refusal {
        CoreRefusal::Fails(rule, number) => core_refused(name, span, rule, number),
        CoreRefusal::Spent(question) => {
            let kept = Detail::BudgetSpent { budget, question };
            ElabError::Refused(kept, span, Rule::Conversion, 1)
        }
        CoreRefusal::Memory => ElabError::Memory,
    }
}

impl<'a, C: Converter> Declarer<'a, C> {
    /// The level of a type's type, whose head is a Sort.
    fn core_sort(&self, context: &Ctx, name: &Name, span: Span, ty: &Term) -> Result<u32, ElabError>
        ensures { Answers self.now.elaborator
            (sort_asks name.now span (depth (scope_of context.now)) (term ty.now)) (λ l. l)
            result }
    {
        let elaborator = &self.elaborator;
        let depth = number(context.vars.len())?;
        match elaborator.converter.head(
            elaborator.alloc,
            elaborator.budget,
            elaborator.globals,
            ty,
        )? {
            Head::Done(head, _) => match as_sort(&head) {
                Some(level) => Ok(level),
                None => Err(core_refused(name, span, Rule::Conversion, 2)),
            },
            Head::Spent => {
                let question = Question::Head(depth, ty.copy(elaborator.alloc)?);
                Err(elaborator.spent(question, span, Rule::Conversion, 2))
            }
        }
    }

    /// The type of a type is a Sort, of at most this level.
    fn sort_within(
        &self,
        context: &Ctx,
        name: &Name,
        bound: Option<u32>,
        span: Span,
        ty: &Term,
    ) -> Result<(), ElabError>
        ensures { Answers self.now.elaborator
            (sort_within_asks name.now bound span (depth (scope_of context.now)) (term ty.now))
            (λ u. u) result }
    {
        let level = self.core_sort(context, name, span, ty)?;
        if is_within(bound, level) {
            return Ok(());
        }
        Err(core_refused(name, span, Rule::Conversion, 2))
    }

    /// The core judgement accepts a type of this item, of at most this level.
    pub fn accepted(
        &self,
        context: &Ctx,
        name: &Name,
        bound: Option<u32>,
        span: Span,
        ty: &Term,
    ) -> Result<(), ElabError>
        ensures { Answers self.now.elaborator
            (accepted_asks (entries_of self.now.elaborator) (scope_of context.now) name.now bound
            span (term ty.now)) (λ u. u) result }
    {
        let elaborator = &self.elaborator;
        match infer(
            elaborator.alloc,
            elaborator.converter,
            elaborator.budget,
            elaborator.globals,
            context,
            Sigma::Erased,
            ty,
        ) {
            Ok((found, _)) => self.sort_within(context, name, bound, span, &found),
            Err(refusal) => Err(untyped(elaborator.budget, name, span, refusal)),
        }
    }
}
