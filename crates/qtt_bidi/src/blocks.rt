//! `let`, and the statements of a `do`.

ghost use Rattle.std.specs.Prelude.{◌≡◌, ◌<◌, ◌+◌, length, suc, option_map, IfOk};
ghost use Rattle.qtt_base.specs.declared.place.Span.{Span as Place};
ghost use Rattle.qtt_syntax.specs.Tree.Statements.{no_statement, statement_and};
ghost use Rattle.qtt_syntax.specs.Tree.Tree.{letting};
ghost use Rattle.qtt_syntax.specs.View.{tree_of, statement_of, written_type};
ghost use Rattle.qtt_term.specs.Contexts.{part};
ghost use Rattle.qtt_term.specs.Scope.{depth};
ghost use Rattle.qtt_term.specs.Signature.{mult_of};
ghost use Rattle.qtt_term.specs.Substitution.{ren};
ghost use Rattle.qtt_term.specs.View.{term, io};
ghost use Rattle.qtt_rules.specs.Judged.Mode.{check};
ghost use Rattle.qtt_bidi.specs.Calls.{Answers, Judges, Counted, entries_of};
ghost use Rattle.qtt_bidi.specs.Elaboration.{judge as judge_asks, valued as value_asks, bound as bound_scope};
ghost use Rattle.qtt_bidi.specs.Ends.{list_place, let_then, bind_then};
ghost use Rattle.qtt_bidi.specs.Parts.{statement_trees, JudgesBlock};
ghost use Rattle.qtt_bidi.specs.Seen.{locals, mode_of, judged_as};

use crate::ends::{Binding, Step, mult_after};
use crate::judged::{ActionType, Judged, Mode};
use crate::places::{first_place, first_token};
use crate::premises::{Elaborator, needs_type, under};
use crate::scope::Scope;
use qtt_base::Span;
use qtt_rules::ElabError;
use qtt_syntax::{Expr, Local, Statement};
use qtt_term::{Converter, Rule, Sigma, Term};

impl<'a, C: Converter> Elaborator<'a, C> {
    /// A value, and its type where one is written.
    #[cycle(judge)]
    pub fn valued(
        &self,
        scope: &Scope<'_>,
        sigma: Sigma,
        ty: &Option<Box<Expr>>,
        value: &Expr,
    ) -> Result<Judged, ElabError>
        ensures gives { Answers self.now
            (value_asks (entries_of self.now) (locals scope.now) (written_type ty.now)
            (λ m. judge_asks (entries_of self.now) (part sigma) (locals scope.now) m
            (tree_of value.now))) judged_as result }
        ensures len { IfOk result (λ j. Counted scope.now j.uses) }
    {
        match ty {
            None => self.judge(scope, sigma, Mode::Synth, value),
            Some(ty) => self.ascribed(scope, sigma, ty, value, Rule::Let),
        }
    }

    /// The rule of `let`.
    #[cycle(judge)]
    pub fn let_row(
        &self,
        scope: &Scope<'_>,
        sigma: Sigma,
        mode: Mode,
        binding: Binding<'_>,
        ty: &Option<Box<Expr>>,
        value: &Expr,
        body: &Expr,
    ) -> Result<Judged, ElabError>
        ensures gives { (s : Place) → Judges self.now (part sigma) scope.now (mode_of mode)
            (letting binding.entry.mult binding.entry.name.now (written_type ty.now)
            (tree_of value.now) (tree_of body.now) s) result }
        ensures len { IfOk result (λ j. Counted scope.now j.uses) }
    {
        let inside = under(sigma, binding.mult);
        let value = self.valued(scope, inside, ty, value)?;
        let inner = Scope::Named(&*scope, binding.mult, &value.ty);
        let lifted = mode.lifted(self.alloc)?;
        let body = self.judge(&inner, sigma, lifted, body)?;
        self.let_end(sigma, mode, binding, value, body)
    }

    /// The statements of a `do`, the first of them at this place. What was read has one, and
    /// its last is an expression.
    #[cycle(judge)]
    pub fn statements(
        &self,
        scope: &Scope<'_>,
        sigma: Sigma,
        mode: Mode,
        span: Span,
        statements: &[Statement],
    ) -> Result<Judged, ElabError>
        ensures gives { JudgesBlock self.now (part sigma) (locals scope.now) (mode_of mode) span
            (statement_trees statements.now) result }
        ensures len { IfOk result (λ j. Counted scope.now j.uses) }
    {
        match statements {
            [] => Err(ElabError::Memory),
            [last] => self.last(scope, sigma, mode, last),
            [first, rest @ ..] => self.statement(scope, sigma, mode, span, first, rest),
        }
    }

    /// The last statement.
    #[cycle(judge)]
    fn last(
        &self,
        scope: &Scope<'_>,
        sigma: Sigma,
        mode: Mode,
        statement: &Statement,
    ) -> Result<Judged, ElabError>
        ensures gives { (s : Place) → JudgesBlock self.now (part sigma) (locals scope.now)
            (mode_of mode) s (statement_and (statement_of statement.now) no_statement) result }
        ensures len { IfOk result (λ j. Counted scope.now j.uses) }
    {
        match statement {
            Statement::Run { value, .. } => self.judge(scope, sigma, mode, value),
            Statement::Bind { .. } | Statement::Let { .. } => Err(ElabError::Memory),
        }
    }

    /// A statement at this place, and those after it.
    #[cycle(judge)]
    fn statement(
        &self,
        scope: &Scope<'_>,
        sigma: Sigma,
        mode: Mode,
        span: Span,
        statement: &Statement,
        rest: &[Statement],
    ) -> Result<Judged, ElabError>
        requires { 0 < length rest.now }
        ensures gives { JudgesBlock self.now (part sigma) (locals scope.now) (mode_of mode) span
            (statement_and (statement_of statement.now) (statement_trees rest.now)) result }
        ensures len { IfOk result (λ j. Counted scope.now j.uses) }
    {
        match statement {
            Statement::Run { value, .. } => {
                self.bind_row(scope, sigma, mode, span, None, value, rest)
            }
            Statement::Bind { name, value } => {
                self.bind_row(scope, sigma, mode, span, Some(name), value, rest)
            }
            Statement::Let {
                mult,
                name,
                ty,
                value,
                ..
            } => {
                let binding = Binding { mult: *mult, name };
                self.let_statement(scope, sigma, mode, binding, ty, value, rest)
            }
        }
    }

    /// A `let` over the statements after it.
    #[cycle(judge)]
    fn let_statement(
        &self,
        scope: &Scope<'_>,
        sigma: Sigma,
        mode: Mode,
        binding: Binding<'_>,
        ty: &Option<Box<Expr>>,
        value: &Expr,
        rest: &[Statement],
    ) -> Result<Judged, ElabError>
        ensures gives { Answers self.now
            (let_then (entries_of self.now) (part sigma) (locals scope.now) (mode_of mode)
            binding.entry.mult binding.entry.name.now (written_type ty.now) (tree_of value.now)
            (statement_trees rest.now)) judged_as result }
        ensures len { IfOk result (λ j. Counted scope.now j.uses) }
    {
        let inside = under(sigma, binding.mult);
        let value = self.valued(scope, inside, ty, value)?;
        let inner = Scope::Named(&*scope, binding.mult, &value.ty);
        let lifted = mode.lifted(self.alloc)?;
        let body = self.statements(&inner, sigma, lifted, first_place(rest), rest)?;
        self.let_end(sigma, mode, binding, value, body)
    }

    /// An action, with the name that it binds, and the statements after it.
    #[cycle(judge)]
    fn bind_row(
        &self,
        scope: &Scope<'_>,
        sigma: Sigma,
        mode: Mode,
        span: Span,
        name: Option<&Local>,
        value: &Expr,
        rest: &[Statement],
    ) -> Result<Judged, ElabError>
        ensures gives { Answers self.now
            (bind_then (entries_of self.now) (part sigma) (locals scope.now) (mode_of mode) span
            (option_map (λ x. x.now) name.entry) (tree_of value.now) (statement_trees rest.now))
            judged_as result }
        ensures len { IfOk result (λ j. Counted scope.now j.uses) }
    {
        match mode {
            Mode::Synth => Err(needs_type(span, Rule::DoBind, 1)),
            Mode::Check(ty) => {
                let wanted = self.action_type(scope, &ty, span, Rule::DoBind, 2)?;
                let action = self.judge(scope, sigma, Mode::Synth, value)?;
                let place = first_token(value);
                let found = self.action_type(scope, &action.ty, place, Rule::DoBind, 4)?;
                let more = self.bound(scope, sigma, &ty, name, &found, rest)?;
                let step = Step {
                    name,
                    place,
                    found,
                    wanted,
                };
                self.bind_end(sigma, step, action, ty, more)
            }
        }
    }

    /// The statements after an action of a block of this type.
    #[cycle(judge)]
    fn bound(
        &self,
        scope: &Scope<'_>,
        sigma: Sigma,
        ty: &Term,
        name: Option<&Local>,
        found: &ActionType,
        rest: &[Statement],
    ) -> Result<Judged, ElabError>
        ensures gives { JudgesBlock self.now (part sigma)
            (bound_scope (option_map (λ x. x.now) name.entry) (mult_of (io found.now.kind))
            (term found.now.result) (locals scope.now)) (check (ren suc (term ty.now)))
            (list_place (statement_trees rest.now)) (statement_trees rest.now) result }
        ensures len { IfOk result (λ j. length j.uses ≡ depth (locals scope.now) + 1) }
    {
        let inner = scope.with(name, mult_after(found.kind), &found.result);
        let lifted = Mode::Check(ty.shift(self.alloc, 0, 1)?);
        self.statements(&inner, sigma, lifted, first_place(rest), rest)
    }
}
