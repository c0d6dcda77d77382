//! The last premises of rules, and their results.

ghost use Rattle.std.specs.Prelude.{◌≡◌, ◌<◌, ◌+◌, max, length, option_map, IfOk, MatchResult};
ghost use Rattle.qtt_term.specs.Contexts.{part};
ghost use Rattle.qtt_term.specs.Signature.{mult_of as mult_after};
ghost use Rattle.qtt_term.specs.Term.{Sort, Pi, Action};
ghost use Rattle.qtt_term.specs.View.{term, io, action as action_of};
ghost use Rattle.qtt_rules.specs.Judged.{judged as as_judged};
ghost use Rattle.qtt_rules.specs.declared.errors.ElabError.TheVariants.{Memory};
ghost use Rattle.qtt_bidi.specs.Calls.{Answers, Counted};
ghost use Rattle.qtt_bidi.specs.Elaboration.{unused, bound_place as place_of_bound, let_type as type_of_let};
ghost use Rattle.qtt_bidi.specs.Ends.{applied_to, found_lambda as lambda_found, checked_lambda as lambda_checked, let_ends, bind_ends, bind_term};
ghost use Rattle.qtt_bidi.specs.Seen.{locals, mode_of, judged_as, action_as};
ghost use Rattle.qtt_syntax.specs.View.{binder_of};

use crate::judged::{ActionType, Classified, Judged, Mode};
use crate::places::{binder_name, binder_place};
use crate::premises::Elaborator;
use crate::scope::Scope;
use qtt_base::Span;
use qtt_prims::ActKind;
use qtt_rules::ElabError;
use qtt_syntax::{Binder, Local};
use qtt_term::{Converter, IoKind, Rule, Sigma, Term};
use qtt_usage::mult::Mult;

/// How often the result of an action of this kind may be used.
pub fn mult_after(kind: IoKind) -> Mult
    ensures { result ≡ mult_after (io kind) }
{
    match kind {
        IoKind::Io => Mult::Many,
        IoKind::Io1 => Mult::One,
    }
}

/// The bind from one kind to another.
fn bind_between(from: IoKind, to: IoKind) -> ActKind
    ensures { action_of result ≡ Action.bind (io from) (io to) }
{
    match (from, to) {
        (IoKind::Io, IoKind::Io) => ActKind::BindIoIo,
        (IoKind::Io, IoKind::Io1) => ActKind::BindIoIo1,
        (IoKind::Io1, IoKind::Io) => ActKind::BindIo1Io,
        (IoKind::Io1, IoKind::Io1) => ActKind::BindIo1Io1,
    }
}

/// Where a name that a statement binds is told, or else the statement's expression.
pub fn bound_place(name: Option<&Local>, expression: Span) -> Span
    ensures { result ≡ place_of_bound (option_map (λ x. x.now) name.entry) expression }
{
    match name {
        Some(name) => name.span,
        None => expression,
    }
}

/// The name that a `let` binds, and its multiplicity.
#[derive(Clone, Copy, Debug)]
pub struct Binding<'a> {
    pub mult: Mult,
    pub name: &'a Local,
}

/// An action of a `do`: the name that it binds, the first token of its expression, its type, and
/// that of the block.
#[derive(Drop)]
pub struct Step<'a> {
    pub name: Option<&'a Local>,
    pub place: Span,
    pub found: ActionType,
    pub wanted: ActionType,
}

impl<'a, C: Converter> Elaborator<'a, C> {
    /// The result of the rule of function types.
    pub fn pi_end(
        &self,
        scope: &Scope<'_>,
        mult: Mult,
        domain: Classified,
        codomain: Classified,
    ) -> Result<Judged, ElabError>
        ensures gives { MatchResult result
            (λ j. judged_as j ≡ as_judged (Sort (max domain.level codomain.level))
            (Pi mult (term domain.core) (term codomain.core)) (unused (locals scope.now)))
            (λ e. e ≡ Memory) }
        ensures len { IfOk result (λ j. Counted scope.now j.uses) }
    {
        let level = if domain.level > codomain.level {
            domain.level
        } else {
            codomain.level
        };
        let core = Term::pi(self.alloc, mult, domain.core, codomain.core)?;
        self.plain(scope, Term::Sort(level), core)
    }

    /// The result of the rule of applications, at one argument.
    pub fn app_end(
        &self,
        left: Judged,
        mult: Mult,
        codomain: Term,
        argument: Judged,
    ) -> Result<Judged, ElabError>
        requires { length left.uses ≡ length argument.uses }
        ensures gives { MatchResult result
            (λ j. judged_as j ≡ applied_to (judged_as left) mult (term codomain)
            (judged_as argument)) (λ e. e ≡ Memory) }
        ensures len { IfOk result (λ j. length j.uses ≡ length left.uses) }
    {
        let copy = argument.core.copy(self.alloc)?;
        let values = [copy];
        let ty = codomain.subst(self.alloc, &values)?;
        let core = Term::app(self.alloc, mult, left.core, argument.core)?;
        let mut used = argument.uses;
        used.scale(mult);
        let mut uses = left.uses;
        uses.add(&used);
        Ok(Judged { ty, core, uses })
    }

    /// The last premise and the result of a function whose type is found.
    pub fn found_lambda(
        &self,
        sigma: Sigma,
        mult: Mult,
        name: &Local,
        domain: Term,
        body: Judged,
        span: Span,
    ) -> Result<Judged, ElabError>
        requires { 0 < length body.uses }
        ensures gives { Answers self.now
            (lambda_found (part sigma) mult name.now (term domain) (judged_as body) span) judged_as
            result }
        ensures len { IfOk result (λ j. length j.uses + 1 ≡ length body.uses) }
    {
        let rule = Rule::LamSynth;
        let uses = self.fitting(sigma, Some(name), mult, body.uses, span, rule, 4)?;
        let copy = domain.copy(self.alloc)?;
        let ty = Term::pi(self.alloc, mult, copy, body.ty)?;
        let core = Term::lam(self.alloc, mult, domain, body.core)?;
        Ok(Judged { ty, core, uses })
    }

    /// The last premise and the result of a function of this type.
    pub fn checked_lambda(
        &self,
        sigma: Sigma,
        mult: Mult,
        binder: &Binder,
        domain: Term,
        ty: Term,
        body: Judged,
    ) -> Result<Judged, ElabError>
        requires { 0 < length body.uses }
        ensures gives { Answers self.now
            (lambda_checked (part sigma) mult (binder_of binder.now) (term domain) (term ty)
            (judged_as body)) judged_as result }
        ensures len { IfOk result (λ j. length j.uses + 1 ≡ length body.uses) }
    {
        let name = binder_name(binder);
        let span = binder_place(binder);
        let rule = Rule::LamCheck;
        let uses = self.fitting(sigma, Some(name), mult, body.uses, span, rule, 5)?;
        let core = Term::lam(self.alloc, mult, domain, body.core)?;
        Ok(Judged { ty, core, uses })
    }

    /// The core of an action and of what follows it.
    fn bind_core(
        &self,
        found: ActionType,
        wanted: ActionType,
        action: Term,
        rest: Term,
    ) -> Result<Term, ElabError>
        ensures { MatchResult result
            (λ t. term t ≡ bind_term (action_as found) (action_as wanted) (term action)
            (term rest)) (λ e. e ≡ Memory) }
    {
        let kind = bind_between(found.kind, wanted.kind);
        let copy = found.result.copy(self.alloc)?;
        let next = Term::lam(self.alloc, mult_after(found.kind), copy, rest)?;
        let types = vec![in self.alloc; found.result, wanted.result]?;
        let arguments = vec![in self.alloc; action, next]?;
        Ok(Term::Act(kind, types, arguments))
    }

    /// The last premise and the result of the rule of `let`.
    pub fn let_end(
        &self,
        sigma: Sigma,
        mode: Mode,
        binding: Binding<'_>,
        value: Judged,
        body: Judged,
    ) -> Result<Judged, ElabError>
        requires { length value.uses + 1 ≡ length body.uses }
        ensures gives { Answers self.now
            (let_ends (part sigma) (mode_of mode) binding.entry.mult binding.entry.name.now
            (judged_as value) (judged_as body)) judged_as result }
        ensures len { IfOk result (λ j. length j.uses ≡ length value.uses) }
    {
        let Binding { mult, name } = binding;
        let uses = self.fitting(sigma, Some(name), mult, body.uses, name.span, Rule::Let, 4)?;
        let ty = self.let_type(mode, body.ty, &value.core)?;
        let function = Term::lam(self.alloc, mult, value.ty, body.core)?;
        let core = Term::app(self.alloc, mult, function, value.core)?;
        let mut value_uses = value.uses;
        value_uses.scale(mult);
        let mut uses = uses;
        uses.add(&value_uses);
        Ok(Judged { ty, core, uses })
    }

    /// The type of a `let`: where it is found, the body's with the value in it.
    fn let_type(&self, mode: Mode, body: Term, value: &Term) -> Result<Term, ElabError>
        ensures { MatchResult result
            (λ t. term t ≡ type_of_let (mode_of mode) (term body) (term value.now))
            (λ e. e ≡ Memory) }
    {
        match mode {
            Mode::Synth => {
                let values = [value.copy(self.alloc)?];
                Ok(body.subst(self.alloc, &values)?)
            }
            Mode::Check(ty) => Ok(ty),
        }
    }

    /// The last premise and the result of the rule of binds.
    pub fn bind_end(
        &self,
        sigma: Sigma,
        step: Step<'_>,
        action: Judged,
        ty: Term,
        rest: Judged,
    ) -> Result<Judged, ElabError>
        requires { length action.uses + 1 ≡ length rest.uses }
        ensures gives { Answers self.now
            (bind_ends (part sigma) (option_map (λ x. x.now) step.entry.name) step.entry.place
            (action_as step.entry.found) (action_as step.entry.wanted) (judged_as action) (term ty)
            (judged_as rest)) judged_as result }
        ensures len { IfOk result (λ j. length j.uses ≡ length action.uses) }
    {
        let Step {
            name,
            place,
            found,
            wanted,
        } = step;
        let mult = mult_after(found.kind);
        let span = bound_place(name, place);
        let more = self.fitting(sigma, name, mult, rest.uses, span, Rule::DoBind, 6)?;
        let core = self.bind_core(found, wanted, action.core, rest.core)?;
        let mut uses = action.uses;
        uses.add(&more);
        Ok(Judged { ty, core, uses })
    }
}
