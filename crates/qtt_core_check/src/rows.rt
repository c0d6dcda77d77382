//! Premises and results of single rules.

ghost use Rattle.std.specs.Prelude.{◌≡◌, ◌<◌, ◌+◌, max, IfOk, MatchResult, length};
ghost use Rattle.qtt_usage.specs.Usage.{no_usage, usage_sum, usage_scale};
ghost use Rattle.qtt_term.specs.Term.{var, Sort, Tape};
ghost use Rattle.qtt_term.specs.Substitution.{inst};
ghost use Rattle.qtt_term.specs.View.{term};
ghost use Rattle.qtt_term.specs.Contexts.{part};
ghost use Rattle.qtt_term.specs.Accepted.{is_dead};
ghost use Rattle.qtt_term.specs.Infer.{inferred};
ghost use Rattle.qtt_core_check.specs.Seen.{ctx, judged, fitting, lam_ends};
ghost use Rattle.qtt_core_check.specs.Calls.{Answers, Judges, Counted};
ghost use Rattle.qtt_core_check.specs.declared.refusal.CoreRefusal.TheVariants.{Memory};

use crate::judged::Judged;
use crate::premises::{Checker, FunctionType, usable, use_at};
use crate::refusal::CoreRefusal;
use crate::scope::Scope;
use qtt_term::{Converter, Rule, Sigma, Term};
use qtt_usage::mult::Mult;
use qtt_usage::usage::Usage;

/// Nothing is used by what is dead: a Trap, or a function whose body is dead.
pub fn is_dead(t: &Term) -> bool
    ensures { result ≡ is_dead (term t.now) }
{
    match t {
        Term::Trap(_) => true,
        Term::Lam(_, _, body) => is_dead(body),
        _ => false,
    }
}

impl<'a, C: Converter> Checker<'a, C> {
    /// The rule of variables.
    pub fn var_row(
        &self,
        scope: &Scope<'_>,
        sigma: Sigma,
        index: u32,
    ) -> Result<Judged, CoreRefusal>
        ensures gives { Judges self.now (part sigma) scope.now (var index) result }
        ensures len { IfOk result (λ j. Counted scope.now j.uses) }
    {
        let depth = scope.depth()?;
        let Some((mult, ty)) = scope.entry(index) else {
            return Err(CoreRefusal::Fails(Rule::Var, 1));
        };
        if !usable(sigma, mult) {
            return Err(CoreRefusal::Fails(Rule::Var, 1));
        }
        Ok(Judged {
            ty: ty.shift(self.alloc, 0, index + 1)?,
            uses: use_at(self.alloc, sigma, depth, index)?,
        })
    }

    /// The rule of Sorts. The Sort above the greatest level has none.
    pub fn sort_row(
        &self,
        scope: &Scope<'_>,
        sigma: Sigma,
        level: u32,
    ) -> Result<Judged, CoreRefusal>
        ensures gives { Judges self.now (part sigma) scope.now (Sort level) result }
        ensures len { IfOk result (λ j. Counted scope.now j.uses) }
    {
        if level == u32::MAX {
            return Err(CoreRefusal::Fails(Rule::Sort, 1));
        }
        let depth = scope.depth()?;
        Ok(Judged {
            ty: Term::Sort(level + 1),
            uses: Usage::zero(self.alloc, depth as usize)?,
        })
    }

    /// The rule of file handles.
    pub fn tape_row(
        &self,
        scope: &Scope<'_>,
        sigma: Sigma,
        number: u32,
    ) -> Result<Judged, CoreRefusal>
        ensures gives { Judges self.now (part sigma) scope.now (Tape number) result }
        ensures len { IfOk result (λ j. Counted scope.now j.uses) }
    {
        let depth = scope.depth()?;
        Ok(Judged {
            ty: Term::HandleTy,
            uses: Usage::zero(self.alloc, depth as usize)?,
        })
    }

    /// The result of the rule of function types.
    pub fn pi_end(
        &self,
        scope: &Scope<'_>,
        domain: u32,
        codomain: u32,
    ) -> Result<Judged, CoreRefusal>
        ensures gives { MatchResult result
            (λ j. judged j ≡ inferred (Sort (max domain codomain))
            (no_usage (length (ctx scope.now)))) (λ e. e ≡ Memory) }
        ensures len { IfOk result (λ j. Counted scope.now j.uses) }
    {
        let depth = scope.depth()?;
        let level = if domain > codomain { domain } else { codomain };
        Ok(Judged {
            ty: Term::Sort(level),
            uses: Usage::zero(self.alloc, depth as usize)?,
        })
    }

    /// The last premise and the result of the rule of functions.
    pub fn lam_end(
        &self,
        sigma: Sigma,
        mult: Mult,
        domain: &Term,
        body: &Term,
        inner: Judged,
    ) -> Result<Judged, CoreRefusal>
        requires { 0 < length inner.uses }
        ensures gives { Answers self.now
            (lam_ends (part sigma) mult (term domain.now) (term body.now) (judged inner))
            judged result }
        ensures len { IfOk result (λ j. length j.uses + 1 ≡ length inner.uses) }
    {
        let mut uses = inner.uses;
        let used = uses.pop();
        if !fitting(sigma, body, used, mult) {
            return Err(CoreRefusal::Fails(Rule::Lam, 3));
        }
        let copy = domain.copy(self.alloc)?;
        let ty = Term::pi(self.alloc, mult, copy, inner.ty)?;
        Ok(Judged { ty, uses })
    }

    /// The result of the rule of applications.
    pub fn app_end(
        &self,
        mult: Mult,
        left: Judged,
        pi: FunctionType,
        argument: &Term,
        used: Usage,
    ) -> Result<Judged, CoreRefusal>
        requires { length left.uses ≡ length used }
        ensures gives { MatchResult result
            (λ j. judged j ≡ inferred (inst (term pi.codomain) (term argument.now))
            (usage_sum left.uses (usage_scale mult used))) (λ e. e ≡ Memory) }
        ensures len { IfOk result (λ j. length j.uses ≡ length left.uses) }
    {
        let value = argument.copy(self.alloc)?;
        let values = [value];
        let ty = pi.codomain.subst(self.alloc, &values)?;
        let mut used = used;
        used.scale(mult);
        let mut uses = left.uses;
        uses.add(&used);
        Ok(Judged { ty, uses })
    }
}

/// What a binder is used for fits its multiplicity, in the run part and where the body is not
/// dead.
fn fitting(sigma: Sigma, body: &Term, used: Mult, declared: Mult) -> bool
    ensures { result ≡ fitting (part sigma) (term body.now) used declared }
{
    match sigma {
        Sigma::Erased => true,
        Sigma::Run => is_dead(body) || Mult::fits(used, declared),
    }
}
