//! The way to a hole, form by form.

ghost use Rattle.std.specs.Prelude.{◌≡◌, ◌<◌, ◌+◌, length, suc, option_map, IfOk};
ghost use Rattle.qtt_base.specs.declared.place.Span.{Span as Place};
ghost use Rattle.qtt_syntax.specs.Tree.Binders.{binder_and};
ghost use Rattle.qtt_syntax.specs.Tree.Statements.{no_statement, statement_and};
ghost use Rattle.qtt_syntax.specs.Tree.Tree.{letting as let_tree};
ghost use Rattle.qtt_syntax.specs.View.{tree_of, binder_of, statement_of, written_type};
ghost use Rattle.qtt_term.specs.Scope.{depth};
ghost use Rattle.qtt_term.specs.Signature.{mult_of};
ghost use Rattle.qtt_term.specs.Substitution.{ren};
ghost use Rattle.qtt_term.specs.View.{term, io};
ghost use Rattle.qtt_bidi.specs.Calls.{Counted};
ghost use Rattle.qtt_bidi.specs.Elaboration.{bound as bound_scope};
ghost use Rattle.qtt_bidi.specs.Ends.{list_place};
ghost use Rattle.qtt_bidi.specs.Parts.{binder_trees, statement_trees};
ghost use Rattle.qtt_bidi.specs.Seen.{locals};
ghost use Rattle.qtt_holes.specs.Calls.{Goes};
ghost use Rattle.qtt_holes.specs.View.{names_of};
ghost use Rattle.qtt_holes.specs.Walk.{bound_names, way as way_asks, statements_way};
ghost use Rattle.qtt_holes.specs.Ways.{function_way, let_then, bind_then};

use crate::sight::Names;
use crate::walker::{Found, Walker};
use qtt_base::Span;
use qtt_bidi::{
    ActionType, Binding, FunctionType, Mode, Scope, binder_name, binder_place, first_place,
    first_token, mult_after, under,
};
use qtt_rules::ElabError;
use qtt_syntax::{Binder, Expr, Local, Statement};
use qtt_term::{Converter, Rule, Term};

impl<'a, C: Converter> Walker<'a, C> {
    /// An expression of this type, which has a hole in tail position.
    #[cycle(way)]
    #[tactic(auto, using(qtt_syntax::proofs::Rows::rows))]
    pub fn way(
        &self,
        scope: &Scope<'_>,
        names: &Names<'_>,
        e: &Expr,
        ty: Term,
    ) -> Result<Found, ElabError>
        ensures gives { Goes self.now (λ G p. way_asks G p (locals scope.now) (names_of names.now)
            (tree_of e.now) (term ty)) result }
        ensures len { IfOk result (λ f. Counted scope.now f.uses) }
    {
        match e {
            Expr::Hole { name, span } => self.at_hole(scope, names, name, *span, ty),
            Expr::Lambda {
                binders,
                body,
                span,
            } => self.function(scope, names, *span, ty, binders, body),
            Expr::Let {
                mult,
                name,
                ty: written,
                value,
                body,
                ..
            } => {
                let binding = Binding { mult: *mult, name };
                self.letting(scope, names, binding, written, value, body, ty)
            }
            Expr::Do { statements, span } => {
                self.statements(scope, names, *span, statements, ty)
            }
            _ => Err(ElabError::Memory),
        }
    }

    /// Binders and a body of a given type.
    #[cycle(way)]
    fn function(
        &self,
        scope: &Scope<'_>,
        names: &Names<'_>,
        span: Span,
        ty: Term,
        binders: &[Binder],
        body: &Expr,
    ) -> Result<Found, ElabError>
        ensures gives { Goes self.now (λ G p. function_way G p (locals scope.now)
            (names_of names.now) span (term ty) (binder_trees binders.now) (tree_of body.now))
            result }
        ensures len { IfOk result (λ f. Counted scope.now f.uses) }
    {
        match binders {
            [] => self.way(scope, names, body, ty),
            [first, rest @ ..] => self.binder(scope, names, span, ty, first, rest, body),
        }
    }

    /// A binder with what follows it, of a given type.
    #[cycle(way)]
    fn binder(
        &self,
        scope: &Scope<'_>,
        names: &Names<'_>,
        span: Span,
        ty: Term,
        binder: &Binder,
        rest: &[Binder],
        body: &Expr,
    ) -> Result<Found, ElabError>
        ensures gives { Goes self.now (λ G p. function_way G p (locals scope.now)
            (names_of names.now) span (term ty)
            (binder_and (binder_of binder.now) (binder_trees rest.now)) (tree_of body.now))
            result }
        ensures len { IfOk result (λ f. Counted scope.now f.uses) }
    {
        let elaborator = &self.elaborator;
        let function = elaborator.function_type(scope, &ty, span, Rule::LamCheck, 1)?;
        elaborator.written_domain(scope, span, &function, binder)?;
        let FunctionType {
            mult,
            domain,
            codomain,
        } = function;
        let name = binder_name(binder);
        let inner = Scope::Named(&*scope, mult, &domain);
        let inside = Names::Inner(&*names, &name.name);
        let found = self.function(&inner, &inside, span, codomain, rest, body)?;
        let place = binder_place(binder);
        self.passed(Some(name), mult, found, place, Rule::LamCheck, 5)
    }

    /// A `let` over its body.
    #[cycle(way)]
    fn letting(
        &self,
        scope: &Scope<'_>,
        names: &Names<'_>,
        binding: Binding<'_>,
        written: &Option<Box<Expr>>,
        value: &Expr,
        body: &Expr,
        ty: Term,
    ) -> Result<Found, ElabError>
        ensures gives { (s : Place) → Goes self.now (λ G p. way_asks G p (locals scope.now)
            (names_of names.now) (let_tree binding.entry.mult binding.entry.name.now
            (written_type written.now) (tree_of value.now) (tree_of body.now) s) (term ty)) result }
        ensures len { IfOk result (λ f. Counted scope.now f.uses) }
    {
        let elaborator = &self.elaborator;
        let part = under(self.sigma, binding.mult);
        let value = elaborator.valued(scope, part, written, value)?;
        let inner = Scope::Named(&*scope, binding.mult, &value.ty);
        let inside = Names::Inner(&*names, &binding.name.name);
        let lifted = ty.shift(elaborator.alloc, 0, 1)?;
        let found = self.way(&inner, &inside, body, lifted)?;
        self.let_end(binding, value, found)
    }

    /// The statements of a `do`, the first of them at this place. What was read has one, and its
    /// last is an expression.
    #[cycle(way)]
    fn statements(
        &self,
        scope: &Scope<'_>,
        names: &Names<'_>,
        span: Span,
        statements: &[Statement],
        ty: Term,
    ) -> Result<Found, ElabError>
        ensures gives { Goes self.now (λ G p. statements_way G p (locals scope.now)
            (names_of names.now) span (statement_trees statements.now) (term ty)) result }
        ensures len { IfOk result (λ f. Counted scope.now f.uses) }
    {
        match statements {
            [] => Err(ElabError::Memory),
            [last] => self.last(scope, names, last, ty),
            [first, rest @ ..] => self.statement(scope, names, span, first, rest, ty),
        }
    }

    /// The last statement.
    #[cycle(way)]
    fn last(
        &self,
        scope: &Scope<'_>,
        names: &Names<'_>,
        statement: &Statement,
        ty: Term,
    ) -> Result<Found, ElabError>
        ensures gives { (s : Place) → Goes self.now (λ G p. statements_way G p (locals scope.now)
            (names_of names.now) s (statement_and (statement_of statement.now) no_statement)
            (term ty)) result }
        ensures len { IfOk result (λ f. Counted scope.now f.uses) }
    {
        match statement {
            Statement::Run { value, .. } => self.way(scope, names, value, ty),
            Statement::Bind { .. } | Statement::Let { .. } => Err(ElabError::Memory),
        }
    }

    /// A statement at this place, and those after it.
    #[cycle(way)]
    fn statement(
        &self,
        scope: &Scope<'_>,
        names: &Names<'_>,
        span: Span,
        statement: &Statement,
        rest: &[Statement],
        ty: Term,
    ) -> Result<Found, ElabError>
        requires { 0 < length rest.now }
        ensures gives { Goes self.now (λ G p. statements_way G p (locals scope.now)
            (names_of names.now) span
            (statement_and (statement_of statement.now) (statement_trees rest.now)) (term ty))
            result }
        ensures len { IfOk result (λ f. Counted scope.now f.uses) }
    {
        match statement {
            Statement::Run { value, .. } => {
                self.action(scope, names, span, None, value, rest, ty)
            }
            Statement::Bind { name, value } => {
                self.action(scope, names, span, Some(name), value, rest, ty)
            }
            Statement::Let {
                mult,
                name,
                ty: written,
                value,
                ..
            } => {
                let binding = Binding { mult: *mult, name };
                self.let_statement(scope, names, binding, written, value, rest, ty)
            }
        }
    }

    /// A `let` over the statements after it.
    #[cycle(way)]
    fn let_statement(
        &self,
        scope: &Scope<'_>,
        names: &Names<'_>,
        binding: Binding<'_>,
        written: &Option<Box<Expr>>,
        value: &Expr,
        rest: &[Statement],
        ty: Term,
    ) -> Result<Found, ElabError>
        ensures gives { Goes self.now (λ G p. let_then G p (locals scope.now) (names_of names.now)
            binding.entry.mult binding.entry.name.now (written_type written.now)
            (tree_of value.now) (statement_trees rest.now) (term ty)) result }
        ensures len { IfOk result (λ f. Counted scope.now f.uses) }
    {
        let elaborator = &self.elaborator;
        let part = under(self.sigma, binding.mult);
        let value = elaborator.valued(scope, part, written, value)?;
        let inner = Scope::Named(&*scope, binding.mult, &value.ty);
        let inside = Names::Inner(&*names, &binding.name.name);
        let lifted = ty.shift(elaborator.alloc, 0, 1)?;
        let found = self.statements(&inner, &inside, first_place(rest), rest, lifted)?;
        self.let_end(binding, value, found)
    }

    /// An action, with the name that it binds, and the statements after it.
    #[cycle(way)]
    fn action(
        &self,
        scope: &Scope<'_>,
        names: &Names<'_>,
        span: Span,
        name: Option<&Local>,
        value: &Expr,
        rest: &[Statement],
        ty: Term,
    ) -> Result<Found, ElabError>
        ensures gives { Goes self.now (λ G p. bind_then G p (locals scope.now) (names_of names.now)
            span (option_map (λ x. x.now) name.entry) (tree_of value.now)
            (statement_trees rest.now) (term ty)) result }
        ensures len { IfOk result (λ f. Counted scope.now f.uses) }
    {
        let elaborator = &self.elaborator;
        elaborator.action_type(scope, &ty, span, Rule::DoBind, 2)?;
        let action = elaborator.judge(scope, self.sigma, Mode::Synth, value)?;
        let place = first_token(value);
        let result = elaborator.action_type(scope, &action.ty, place, Rule::DoBind, 4)?;
        let found = self.bound(scope, names, name, &result, rest, &ty)?;
        self.bind_end(name, place, mult_after(result.kind), action, found)
    }

    /// The statements after an action of a block of this type.
    #[cycle(way)]
    fn bound(
        &self,
        scope: &Scope<'_>,
        names: &Names<'_>,
        name: Option<&Local>,
        action: &ActionType,
        rest: &[Statement],
        ty: &Term,
    ) -> Result<Found, ElabError>
        ensures gives { Goes self.now (λ G p. statements_way G p
            (bound_scope (option_map (λ x. x.now) name.entry) (mult_of (io action.now.kind))
            (term action.now.result) (locals scope.now))
            (bound_names (option_map (λ x. x.now) name.entry) (names_of names.now))
            (list_place (statement_trees rest.now)) (statement_trees rest.now)
            (ren suc (term ty.now))) result }
        ensures len { IfOk result (λ f. length f.uses ≡ depth (locals scope.now) + 1) }
    {
        let lifted = ty.shift(self.elaborator.alloc, 0, 1)?;
        let inner = (&*scope).with(name, mult_after(action.kind), &action.result);
        let inside = (&*names).with(name);
        self.statements(&inner, &inside, first_place(rest), rest, lifted)
    }
}
