//! Functions whose type is found, and functions of a given type.

ghost use Rattle.std.specs.Prelude.{IfOk};
ghost use Rattle.qtt_syntax.specs.Tree.Binders.{binder_and};
ghost use Rattle.qtt_syntax.specs.Tree.Tree.{lambda as lambda_tree};
ghost use Rattle.qtt_syntax.specs.View.{tree_of, binder_of};
ghost use Rattle.qtt_term.specs.Contexts.{part};
ghost use Rattle.qtt_term.specs.View.{term};
ghost use Rattle.qtt_bidi.specs.Calls.{Answers, Judges, Counted, entries_of};
ghost use Rattle.qtt_bidi.specs.Elaboration.{written_domain as domain_asks};
ghost use Rattle.qtt_bidi.specs.Parts.{binder_trees, FindsLambda, ChecksLambda};
ghost use Rattle.qtt_bidi.specs.Seen.{locals, mode_of, function as function_as};

use crate::judged::{FunctionType, Judged, Mode};
use crate::places::all_typed;
use crate::premises::{Elaborator, needs_type, same_mult};
use crate::scope::Scope;
use qtt_base::Span;
use qtt_rules::{Detail, ElabError};
use qtt_syntax::{Binder, Expr};
use qtt_term::{Converter, Rule, Sigma, Term};

impl<'a, C: Converter> Elaborator<'a, C> {
    /// The rules of functions.
    #[cycle(judge)]
    pub fn lambda_row(
        &self,
        scope: &Scope<'_>,
        sigma: Sigma,
        mode: Mode,
        binders: &[Binder],
        body: &Expr,
        span: Span,
    ) -> Result<Judged, ElabError>
        ensures gives { Judges self.now (part sigma) scope.now (mode_of mode)
            (lambda_tree (binder_trees binders.now) (tree_of body.now) span) result }
        ensures len { IfOk result (λ j. Counted scope.now j.uses) }
    {
        match mode {
            Mode::Synth => {
                if !all_typed(binders) {
                    return Err(needs_type(span, Rule::LamSynth, 1));
                }
                self.found_function(scope, sigma, binders, body)
            }
            Mode::Check(ty) => self.checked_function(scope, sigma, span, ty, binders, body),
        }
    }

    /// Binders and a body, whose type is found.
    #[cycle(judge)]
    fn found_function(
        &self,
        scope: &Scope<'_>,
        sigma: Sigma,
        binders: &[Binder],
        body: &Expr,
    ) -> Result<Judged, ElabError>
        ensures gives { FindsLambda self.now (part sigma) scope.now (binder_trees binders.now)
            (tree_of body.now) result }
        ensures len { IfOk result (λ j. Counted scope.now j.uses) }
    {
        match binders {
            [] => self.judge(scope, sigma, Mode::Synth, body),
            [first, rest @ ..] => self.found_binder(scope, sigma, first, rest, body),
        }
    }

    /// A binder with what follows it, whose type is found.
    #[cycle(judge)]
    fn found_binder(
        &self,
        scope: &Scope<'_>,
        sigma: Sigma,
        binder: &Binder,
        rest: &[Binder],
        body: &Expr,
    ) -> Result<Judged, ElabError>
        ensures gives { FindsLambda self.now (part sigma) scope.now
            (binder_and (binder_of binder.now) (binder_trees rest.now)) (tree_of body.now)
            result }
        ensures len { IfOk result (λ j. Counted scope.now j.uses) }
    {
        match binder {
            Binder::Plain(name) => Err(needs_type(name.span, Rule::LamSynth, 1)),
            Binder::Typed {
                mult,
                name,
                ty,
                span,
            } => {
                let domain = self.is_type(scope, ty, Rule::LamSynth, 2)?.core;
                let inner = Scope::Named(&*scope, *mult, &domain);
                let body = self.found_function(&inner, sigma, rest, body)?;
                self.found_lambda(sigma, *mult, name, domain, body, *span)
            }
        }
    }

    /// Binders and a body of a given type.
    #[cycle(judge)]
    fn checked_function(
        &self,
        scope: &Scope<'_>,
        sigma: Sigma,
        span: Span,
        ty: Term,
        binders: &[Binder],
        body: &Expr,
    ) -> Result<Judged, ElabError>
        ensures gives { ChecksLambda self.now (part sigma) scope.now span (term ty)
            (binder_trees binders.now) (tree_of body.now) result }
        ensures len { IfOk result (λ j. Counted scope.now j.uses) }
    {
        match binders {
            [] => self.judge(scope, sigma, Mode::Check(ty), body),
            [first, rest @ ..] => self.checked_binder(scope, sigma, span, ty, first, rest, body),
        }
    }

    /// A binder with what follows it, of a given type.
    #[cycle(judge)]
    fn checked_binder(
        &self,
        scope: &Scope<'_>,
        sigma: Sigma,
        span: Span,
        ty: Term,
        binder: &Binder,
        rest: &[Binder],
        body: &Expr,
    ) -> Result<Judged, ElabError>
        ensures gives { ChecksLambda self.now (part sigma) scope.now span (term ty)
            (binder_and (binder_of binder.now) (binder_trees rest.now)) (tree_of body.now)
            result }
        ensures len { IfOk result (λ j. Counted scope.now j.uses) }
    {
        let function = self.function_type(scope, &ty, span, Rule::LamCheck, 1)?;
        self.written_domain(scope, span, &function, binder)?;
        let FunctionType {
            mult,
            domain,
            codomain,
        } = function;
        let inner = Scope::Named(&*scope, mult, &domain);
        let body = self.checked_function(&inner, sigma, span, codomain, rest, body)?;
        self.checked_lambda(sigma, mult, binder, domain, ty, body)
    }

    /// What is written of a binder agrees with a function type.
    #[cycle(judge)]
    pub fn written_domain(
        &self,
        scope: &Scope<'_>,
        span: Span,
        function: &FunctionType,
        binder: &Binder,
    ) -> Result<(), ElabError>
        ensures { Answers self.now
            (domain_asks (entries_of self.now) (locals scope.now) span (function_as function.now)
            (binder_of binder.now)) (λ u. u) result }
    {
        match binder {
            Binder::Plain(_) => Ok(()),
            Binder::Typed { mult, ty, .. } => {
                if !same_mult(*mult, function.mult) {
                    let kept = Detail::WrongQuantity {
                        expected: function.mult,
                        found: *mult,
                    };
                    return Err(ElabError::Refused(kept, span, Rule::LamCheck, 2));
                }
                let written = self.is_type(scope, ty, Rule::LamCheck, 3)?;
                self.agree(
                    scope,
                    &written.core,
                    &function.domain,
                    span,
                    Rule::LamCheck,
                    3,
                )
            }
        }
    }
}
