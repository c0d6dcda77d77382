//! Premises of the rules.

ghost use Rattle.std.specs.Prelude.{◌≡◌, ◌+◌, ◌<◌, IfOk, IfSome, MatchResult, length, option_map};
ghost use Rattle.qtt_usage.specs.Mult.{same_mult};
ghost use Rattle.qtt_term.specs.View.{term, terms, side_by_side};
ghost use Rattle.qtt_term.specs.Contexts.{part};
ghost use Rattle.qtt_term.specs.Judgement.{under};
ghost use Rattle.qtt_term.specs.Infer.{at, usable, use_at, agree, sort_of, function_of, family_of, as_family as family_seen};
ghost use Rattle.qtt_term.specs.Forms.{as_function as function_seen};
ghost use Rattle.qtt_term.specs.Term.{same_id};
ghost use Rattle.qtt_core_check.specs.Seen.{ctx, function};
ghost use Rattle.qtt_core_check.specs.Calls.{Answers};
ghost use Rattle.qtt_core_check.specs.declared.refusal.CoreRefusal.TheVariants.{Memory};

use crate::refusal::CoreRefusal;
use crate::scope::Scope;
use qtt_base::GlobalId;
use qtt_term::{Answer, Converter, Globals, Head, Question, Rule, Sigma, Term};
use qtt_usage::mult::Mult;
use qtt_usage::usage::{Usage, UsageError};
use std::alloc::Global;
use std::mem;

/// What the judgement is given: an answerer of questions with its contractions for each, and the
/// environment.
#[derive(Drop)]
pub struct Checker<'a, C> {
    pub alloc: Global,
    pub converter: &'a C,
    pub budget: u64,
    pub globals: &'a Globals,
}

/// A function type taken apart.
#[derive(Debug, Drop)]
pub struct FunctionType {
    pub mult: Mult,
    pub domain: Term,
    pub codomain: Term,
}

fn as_function(mut head: Term) -> Option<FunctionType>
    ensures { option_map function result ≡ function_seen (term head) }
{
    match &mut head {
        Term::Pi(mult, domain, codomain) => Some(FunctionType {
            mult: *mult,
            domain: domain.take(),
            codomain: codomain.take(),
        }),
        _ => None,
    }
}

/// The components of this family, where there are so many.
fn as_family(alloc: Global, id: GlobalId, count: usize, mut head: Term) -> Option<Vec<Term>>
    ensures gives { option_map (λ v. side_by_side (terms v.items)) result
        ≡ family_seen id count (term head) }
    ensures len { IfSome result (λ v. length v.items ≡ count) }
{
    match &mut head {
        Term::Fam(found, args) => {
            if same_id(id, *found) && args.len() == count {
                Some(mem::replace(args, Vec::new(alloc)))
            } else {
                None
            }
        }
        _ => None,
    }
}

/// The part of what stands under a multiplicity.
pub fn under(sigma: Sigma, mult: Mult) -> Sigma
    ensures { part result ≡ under (part sigma) mult }
{
    match mult {
        Mult::Zero => Sigma::Erased,
        _ => sigma,
    }
}

/// In the run part what is declared 0 may not be used.
pub fn usable(sigma: Sigma, mult: Mult) -> bool
    ensures { result ≡ usable (part sigma) mult }
{
    match (sigma, mult) {
        (Sigma::Run, Mult::Zero) => false,
        _ => true,
    }
}

pub fn same_mult(one: Mult, other: Mult) -> bool
    ensures { result ≡ same_mult one other }
{
    match (one, other) {
        (Mult::Zero, Mult::Zero) | (Mult::One, Mult::One) | (Mult::Many, Mult::Many) => true,
        _ => false,
    }
}

fn same_id(one: GlobalId, other: GlobalId) -> bool
    ensures { result ≡ same_id one other }
{
    one.module.0 == other.module.0 && one.item == other.item
}

/// The sum of two numbers of components.
pub fn sum(one: usize, other: usize) -> Result<usize, CoreRefusal>
    ensures { MatchResult result (λ n. n ≡ one + other) (λ e. e ≡ Memory) }
{
    match one.checked_add(other) {
        Some(count) => Ok(count),
        None => Err(CoreRefusal::Memory),
    }
}

/// One use of a variable in the run part, and none in the erased part.
pub fn use_at(alloc: Global, sigma: Sigma, depth: u32, index: u32) -> Result<Usage, UsageError>
    requires { index < depth }
    ensures uses { IfOk result (λ u. u ≡ use_at (part sigma) depth index) }
    ensures len { IfOk result (λ u. length u ≡ depth) }
{
    match sigma {
        Sigma::Erased => Usage::zero(alloc, depth as usize),
        Sigma::Run => Usage::unit(alloc, depth as usize, index as usize),
    }
}

impl<'a, C: Converter> Checker<'a, C> {
    /// What was found compares Equal to what is wanted.
    #[tactic(auto, unfolding(qtt_term::specs::Ask::within, qtt_term::specs::Ask::on_answer, qtt_term::specs::Infer::agree))]
    pub fn agree(
        &self,
        scope: &Scope<'_>,
        found: &Term,
        wanted: &Term,
        rule: Rule,
        number: u8,
    ) -> Result<(), CoreRefusal>
        ensures { Answers self.now
            (agree (ctx scope.now) (term found.now) (term wanted.now) (at rule number))
            (λ u. u) result }
    {
        let depth = scope.depth()?;
        match self
            .converter
            .compare(self.alloc, self.budget, self.globals, found, wanted)?
        {
            Answer::Equal => Ok(()),
            Answer::Different(_) => Err(CoreRefusal::Fails(rule, number)),
            Answer::Spent => Err(CoreRefusal::Spent(Question::Compare(
                depth,
                found.copy(self.alloc)?,
                wanted.copy(self.alloc)?,
            ))),
        }
    }

    /// The head of a type is a Sort, of this level.
    #[tactic(auto, unfolding(qtt_term::specs::Ask::within, qtt_term::specs::Ask::on_head, qtt_term::specs::Infer::sort_of))]
    pub fn sort(
        &self,
        scope: &Scope<'_>,
        ty: &Term,
        rule: Rule,
        number: u8,
    ) -> Result<u32, CoreRefusal>
        ensures { Answers self.now (sort_of (ctx scope.now) (term ty.now) (at rule number)) (λ l. l)
            result }
    {
        let depth = scope.depth()?;
        let found = self
            .converter
            .head(self.alloc, self.budget, self.globals, ty)?;
        match &found {
            Head::Done(Term::Sort(level), _) => Ok(*level),
            Head::Done(_, _) => Err(CoreRefusal::Fails(rule, number)),
            Head::Spent => Err(CoreRefusal::Spent(Question::Head(depth, ty.copy(self.alloc)?))),
        }
    }

    /// The head of a type is a function type.
    #[tactic(auto, unfolding(qtt_term::specs::Ask::within, qtt_term::specs::Ask::on_head, qtt_term::specs::Infer::function_of))]
    pub fn function_type(
        &self,
        scope: &Scope<'_>,
        ty: &Term,
        rule: Rule,
        number: u8,
    ) -> Result<FunctionType, CoreRefusal>
        ensures { Answers self.now (function_of (ctx scope.now) (term ty.now) (at rule number))
            function
            result }
    {
        let depth = scope.depth()?;
        match self
            .converter
            .head(self.alloc, self.budget, self.globals, ty)?
        {
            Head::Done(head, _) => match as_function(head) {
                Some(seen) => Ok(seen),
                None => Err(CoreRefusal::Fails(rule, number)),
            },
            Head::Spent => Err(CoreRefusal::Spent(Question::Head(depth, ty.copy(self.alloc)?))),
        }
    }
    /// The head of a type is this family at so many components.
    #[tactic(auto, unfolding(qtt_term::specs::Ask::within, qtt_term::specs::Ask::on_head, qtt_term::specs::Infer::family_of))]
    pub fn family_args(
        &self,
        scope: &Scope<'_>,
        id: GlobalId,
        count: usize,
        ty: &Term,
        premise: (Rule, u8),
    ) -> Result<Vec<Term>, CoreRefusal>
        ensures gives { Answers self.now
            (family_of (ctx scope.now) id count (term ty.now) (at premise.0 premise.1))
            (λ v. side_by_side (terms v.items)) result }
        ensures len { IfOk result (λ v. length v.items ≡ count) }
    {
        let depth = scope.depth()?;
        match self
            .converter
            .head(self.alloc, self.budget, self.globals, ty)?
        {
            Head::Done(head, _) => match as_family(self.alloc, id, count, head) {
                Some(seen) => Ok(seen),
                None => Err(CoreRefusal::Fails(premise.0, premise.1)),
            },
            Head::Spent => Err(CoreRefusal::Spent(Question::Head(depth, ty.copy(self.alloc)?))),
        }
    }
}
