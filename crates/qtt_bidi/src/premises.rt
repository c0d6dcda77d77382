//! Premises of the rules.

ghost use Rattle.std.specs.Prelude.{◌≡◌, ◌<◌, ℕ, eqb, IfOk, option_map, drop, length};
ghost use Rattle.qtt_usage.specs.Mult.{same_mult as same_mults};
ghost use Rattle.qtt_term.specs.Contexts.{part};
ghost use Rattle.qtt_term.specs.Infer.{usable as is_usable, use_at as uses_at};
ghost use Rattle.qtt_term.specs.Judgement.{under as part_under};
ghost use Rattle.qtt_term.specs.Question.{same_io};
ghost use Rattle.qtt_term.specs.Scope.{depth};
ghost use Rattle.qtt_term.specs.Term.{same_id as same_ids};
ghost use Rattle.qtt_term.specs.View.{term, io};
ghost use Rattle.qtt_rules.specs.Asks.{need, agree as agrees};
ghost use Rattle.qtt_rules.specs.Refusal.{Cause, at};
ghost use Rattle.qtt_term.specs.Signature.{Env};
ghost use Rattle.qtt_bidi.specs.Answers.{Gives, Told};
ghost use Rattle.qtt_rules.specs.declared.detail.Detail.TheVariants.{BudgetSpent};
ghost use Rattle.qtt_rules.specs.declared.errors.ElabError.TheVariants.{Refused};
ghost use Rattle.qtt_bidi.specs.Calls.{Answers};
ghost use Rattle.qtt_bidi.specs.Elaboration.{bound_name};
ghost use Rattle.qtt_bidi.specs.Premises.{fit};
ghost use Rattle.qtt_bidi.specs.Seen.{locals, fitting as fits_within};

use crate::scope::Scope;
use qtt_base::{GlobalId, MemoryError, Name, Span};
use qtt_rules::{Detail, ElabError};
use qtt_syntax::Local;
use qtt_term::{Answer, Converter, Globals, IoKind, Question, Rule, Sigma, Term};
use qtt_usage::mult::Mult;
use qtt_usage::usage::{Usage, UsageError};
use std::alloc::Global;

/// What elaboration is given: an answerer of questions with its contractions for each, and the
/// environment.
#[derive(Drop)]
pub struct Elaborator<'a, C> {
    pub alloc: Global,
    pub converter: &'a C,
    pub budget: u64,
    pub globals: &'a Globals,
}

/// The part of what stands under a multiplicity.
pub fn under(sigma: Sigma, mult: Mult) -> Sigma
    ensures { part result ≡ part_under (part sigma) mult }
{
    match mult {
        Mult::Zero => Sigma::Erased,
        _ => sigma,
    }
}

/// In the run part what is declared 0 may not be used.
pub fn usable(sigma: Sigma, mult: Mult) -> bool
    ensures { result ≡ is_usable (part sigma) mult }
{
    match (sigma, mult) {
        (Sigma::Run, Mult::Zero) => false,
        _ => true,
    }
}

pub fn same_mult(one: Mult, other: Mult) -> bool
    ensures { result ≡ same_mults one other }
{
    match (one, other) {
        (Mult::Zero, Mult::Zero) | (Mult::One, Mult::One) | (Mult::Many, Mult::Many) => true,
        _ => false,
    }
}

pub fn same_id(one: GlobalId, other: GlobalId) -> bool
    ensures { result ≡ same_ids one other }
{
    one.module.0 == other.module.0 && one.item == other.item
}

pub fn same_kind(one: IoKind, other: IoKind) -> bool
    ensures { result ≡ same_io (io one) (io other) }
{
    match (one, other) {
        (IoKind::Io, IoKind::Io) | (IoKind::Io1, IoKind::Io1) => true,
        _ => false,
    }
}

/// One use of a variable in the run part, and none in the erased part.
pub fn use_at(alloc: Global, sigma: Sigma, depth: u32, index: u32) -> Result<Usage, UsageError>
    ensures uses { IfOk result (λ u. u ≡ uses_at (part sigma) depth index) }
    ensures len { IfOk result (λ u. length u ≡ depth) }
{
    match sigma {
        Sigma::Erased => Usage::zero(alloc, depth as usize),
        Sigma::Run => {
            if index < depth {
                Usage::unit(alloc, depth as usize, index as usize)
            } else {
                Usage::zero(alloc, depth as usize)
            }
        }
    }
}

/// So many arguments are written.
pub fn exactly(
    expected: usize,
    found: usize,
    span: Span,
    rule: Rule,
    number: u8,
) -> Result<(), ElabError>
    ensures { (E : Env) (n : ℕ) → Gives E n
        (need (eqb expected found) (Cause.wrong_arity expected found) (at span rule number))
        (λ u. u) result }
{
    if expected == found {
        return Ok(());
    }
    let kept = Detail::WrongArity {
        expected: expected as u64,
        found: found as u64,
    };
    Err(ElabError::Refused(kept, span, rule, number))
}

/// The refusal of what a type has to be given for.
pub fn needs_type(span: Span, rule: Rule, number: u8) -> ElabError
    ensures { Told Cause.needs_type (at span rule number) result }
{
    ElabError::Refused(Detail::NeedsType, span, rule, number)
}

/// The name that a binder binds, where it has one.
pub fn written_name(name: Option<&Local>) -> Result<Option<Name>, MemoryError>
    ensures { IfOk result (λ o. o ≡ bound_name (option_map (λ x. x.now) name.entry)) }
{
    let Some(local) = name else {
        return Ok(None);
    };
    if local.name.as_str() == "_" {
        Ok(None)
    } else {
        Ok(Some(local.name.copy()?))
    }
}

/// A use fits a multiplicity, in the run part.
fn fits_within(sigma: Sigma, used: Mult, declared: Mult) -> bool
    ensures { result ≡ fits_within (part sigma) used declared }
{
    match sigma {
        Sigma::Erased => true,
        Sigma::Run => Mult::fits(used, declared),
    }
}

impl<'a, C: Converter> Elaborator<'a, C> {
    /// What was found compares Equal to what is expected.
    #[tactic(auto, unfolding(qtt_term::specs::Ask::within, qtt_term::specs::Ask::on_answer))]
    pub fn agree(
        &self,
        scope: &Scope<'_>,
        found: &Term,
        expected: &Term,
        span: Span,
        rule: Rule,
        number: u8,
    ) -> Result<(), ElabError>
        ensures { Answers self.now
            (agrees (depth (locals scope.now)) (term found.now) (term expected.now)
            (at span rule number)) (λ u. u) result }
    {
        let depth = scope.depth()?;
        match self
            .converter
            .compare(self.alloc, self.budget, self.globals, found, expected)?
        {
            Answer::Equal => Ok(()),
            Answer::Different(_) => {
                let expected = expected.copy(self.alloc)?;
                let found = found.copy(self.alloc)?;
                let kept = Detail::TypeMismatch {
                    depth,
                    expected,
                    found,
                };
                Err(ElabError::Refused(kept, span, rule, number))
            }
            Answer::Spent => {
                let found = found.copy(self.alloc)?;
                let expected = expected.copy(self.alloc)?;
                let question = Question::Compare(depth, found, expected);
                Err(self.spent(question, span, rule, number))
            }
        }
    }

    /// The refusal where a question takes more contractions than there are.
    pub fn spent(&self, question: Question, span: Span, rule: Rule, number: u8) -> ElabError
        ensures { result ≡ Refused (BudgetSpent self.now.budget question) span rule number }
    {
        let budget = self.budget;
        ElabError::Refused(Detail::BudgetSpent { budget, question }, span, rule, number)
    }

    /// What the newest variable is used for fits its multiplicity, in the run part; the uses of
    /// the others.
    pub fn fitting(
        &self,
        sigma: Sigma,
        name: Option<&Local>,
        declared: Mult,
        uses: Usage,
        span: Span,
        rule: Rule,
        number: u8,
    ) -> Result<Usage, ElabError>
        requires { 0 < length uses }
        ensures gives { Answers self.now
            (fit (part sigma) (bound_name (option_map (λ x. x.now) name.entry)) declared uses
            (at span rule number)) (λ u. tt) result }
        ensures rest { IfOk result (λ u. u ≡ drop 1 uses) }
    {
        let mut uses = uses;
        let used = uses.pop();
        if fits_within(sigma, used, declared) {
            return Ok(uses);
        }
        let name = written_name(name)?;
        let kept = Detail::WrongUsage {
            name,
            declared,
            used,
        };
        Err(ElabError::Refused(kept, span, rule, number))
    }
}
