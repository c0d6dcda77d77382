//! Heads of types that are looked for.

ghost use Rattle.std.specs.Prelude.{◌≡◌, option_map};
ghost use Rattle.qtt_term.specs.Forms.{as_sort as sort_seen, as_function as function_seen};
ghost use Rattle.qtt_term.specs.View.{term, terms, side_by_side, io};
ghost use Rattle.qtt_rules.specs.Refusal.{at};
ghost use Rattle.qtt_bidi.specs.Answers.{Told};
ghost use Rattle.qtt_bidi.specs.Calls.{Answers};
ghost use Rattle.qtt_bidi.specs.Premises.{sort_of, function_of, family_of, action_of, result_of, as_family as family_seen, as_action as action_seen, as_action_of as result_seen};
ghost use Rattle.qtt_bidi.specs.Seen.{locals, function, action_as, other_form};

use crate::judged::{ActionType, FunctionType};
use crate::premises::{Elaborator, same_id, same_kind};
use crate::scope::Scope;
use qtt_base::{GlobalId, Span};
use qtt_rules::{Detail, ElabError};
use qtt_term::{Converter, Head, IoKind, Question, Rule, Term};
use std::alloc::Global;
use std::mem;

/// The form of a head that is looked for.
#[derive(Clone, Copy, Debug)]
pub enum HeadForm {
    Sort,
    Function,
    Family,
    Action,
}

/// The level of a Sort.
fn as_sort(head: Term) -> Option<u32>
    ensures { result ≡ sort_seen (term head) }
{
    match &head {
        Term::Sort(level) => Some(*level),
        _ => None,
    }
}

/// A function type taken apart.
fn as_function(mut head: Term) -> Option<FunctionType>
    ensures { option_map function result ≡ function_seen (term head) }
{
    match &mut head {
        Term::Pi(mult, domain, codomain) => Some(FunctionType {
            mult: *mult,
            domain: domain.take(),
            codomain: codomain.take(),
        }),
        _ => None,
    }
}

/// What this family is applied to.
fn as_family(alloc: Global, id: GlobalId, mut head: Term) -> Option<Vec<Term>>
    ensures { option_map (λ v. side_by_side (terms v.items)) result ≡ family_seen id (term head) }
{
    match &mut head {
        Term::Fam(found, values) => {
            if same_id(id, *found) {
                Some(mem::replace(values, Vec::new(alloc)))
            } else {
                None
            }
        }
        _ => None,
    }
}

/// A type of actions taken apart.
fn as_action(mut head: Term) -> Option<ActionType>
    ensures { option_map action_as result ≡ action_seen (term head) }
{
    match &mut head {
        Term::IoTy(kind, result) => Some(ActionType {
            kind: *kind,
            result: result.take(),
        }),
        _ => None,
    }
}

/// The type of the result of actions of this kind.
fn as_action_of(kind: IoKind, mut head: Term) -> Option<Term>
    ensures { option_map term result ≡ result_seen (io kind) (term head) }
{
    match &mut head {
        Term::IoTy(found, result) => {
            if same_kind(kind, *found) {
                Some(result.take())
            } else {
                None
            }
        }
        _ => None,
    }
}

impl<'a, C: Converter> Elaborator<'a, C> {
    /// The refusal where the head of a type has another form.
    fn other_form(
        &self,
        form: HeadForm,
        depth: u32,
        ty: &Term,
        span: Span,
        rule: Rule,
        number: u8,
    ) -> ElabError
        ensures { Told (other_form form depth (term ty.now)) (at span rule number) result }
    {
        let Ok(ty) = ty.copy(self.alloc) else {
            return ElabError::Memory;
        };
        let kept = match form {
            HeadForm::Sort => Detail::NotAType { depth, ty },
            HeadForm::Function => Detail::NotAFunction { depth, ty },
            HeadForm::Family => Detail::NotAFamily { depth, ty },
            HeadForm::Action => Detail::NotAnAction { depth, ty },
        };
        ElabError::Refused(kept, span, rule, number)
    }

    /// The level of a type whose head is a Sort.
    pub fn sort(
        &self,
        scope: &Scope<'_>,
        ty: &Term,
        span: Span,
        rule: Rule,
        number: u8,
    ) -> Result<u32, ElabError>
        ensures { Answers self.now
            (sort_of (locals scope.now) (term ty.now) (at span rule number))
            (λ l. l) result }
    {
        let depth = scope.depth()?;
        match self
            .converter
            .head(self.alloc, self.budget, self.globals, ty)?
        {
            Head::Done(head, _) => match as_sort(head) {
                Some(seen) => Ok(seen),
                None => Err(self.other_form(HeadForm::Sort, depth, ty, span, rule, number)),
            },
            Head::Spent => {
                let question = Question::Head(depth, ty.copy(self.alloc)?);
                Err(self.spent(question, span, rule, number))
            }
        }
    }

    /// The head of a type is a function type.
    pub fn function_type(
        &self,
        scope: &Scope<'_>,
        ty: &Term,
        span: Span,
        rule: Rule,
        number: u8,
    ) -> Result<FunctionType, ElabError>
        ensures { Answers self.now
            (function_of (locals scope.now) (term ty.now) (at span rule number))
            function result }
    {
        let depth = scope.depth()?;
        match self
            .converter
            .head(self.alloc, self.budget, self.globals, ty)?
        {
            Head::Done(head, _) => match as_function(head) {
                Some(seen) => Ok(seen),
                None => Err(self.other_form(HeadForm::Function, depth, ty, span, rule, number)),
            },
            Head::Spent => {
                let question = Question::Head(depth, ty.copy(self.alloc)?);
                Err(self.spent(question, span, rule, number))
            }
        }
    }

    /// The head of a type is this family; what it is applied to.
    pub fn family_values(
        &self,
        scope: &Scope<'_>,
        id: GlobalId,
        ty: &Term,
        span: Span,
        rule: Rule,
        number: u8,
    ) -> Result<Vec<Term>, ElabError>
        ensures { Answers self.now
            (family_of id (locals scope.now) (term ty.now) (at span rule number))
            (λ v. side_by_side (terms v.items)) result }
    {
        let depth = scope.depth()?;
        match self
            .converter
            .head(self.alloc, self.budget, self.globals, ty)?
        {
            Head::Done(head, _) => match as_family(self.alloc, id, head) {
                Some(seen) => Ok(seen),
                None => Err(self.other_form(HeadForm::Family, depth, ty, span, rule, number)),
            },
            Head::Spent => {
                let question = Question::Head(depth, ty.copy(self.alloc)?);
                Err(self.spent(question, span, rule, number))
            }
        }
    }

    /// The head of a type is IO or IO1.
    pub fn action_type(
        &self,
        scope: &Scope<'_>,
        ty: &Term,
        span: Span,
        rule: Rule,
        number: u8,
    ) -> Result<ActionType, ElabError>
        ensures { Answers self.now
            (action_of (locals scope.now) (term ty.now) (at span rule number))
            action_as result }
    {
        let depth = scope.depth()?;
        match self
            .converter
            .head(self.alloc, self.budget, self.globals, ty)?
        {
            Head::Done(head, _) => match as_action(head) {
                Some(seen) => Ok(seen),
                None => Err(self.other_form(HeadForm::Action, depth, ty, span, rule, number)),
            },
            Head::Spent => {
                let question = Question::Head(depth, ty.copy(self.alloc)?);
                Err(self.spent(question, span, rule, number))
            }
        }
    }

    /// The head of a type is IO, or IO1, as asked; the type of the result.
    pub fn action_result(
        &self,
        scope: &Scope<'_>,
        kind: IoKind,
        ty: &Term,
        span: Span,
        rule: Rule,
        number: u8,
    ) -> Result<Term, ElabError>
        ensures { Answers self.now
            (result_of (io kind) (locals scope.now) (term ty.now) (at span rule number))
            term result }
    {
        let depth = scope.depth()?;
        match self
            .converter
            .head(self.alloc, self.budget, self.globals, ty)?
        {
            Head::Done(head, _) => match as_action_of(kind, head) {
                Some(seen) => Ok(seen),
                None => Err(self.other_form(HeadForm::Action, depth, ty, span, rule, number)),
            },
            Head::Spent => {
                let question = Question::Head(depth, ty.copy(self.alloc)?);
                Err(self.spent(question, span, rule, number))
            }
        }
    }
}
