//! Names with arguments, and applications.

ghost use Rattle.std.specs.Prelude.{IfOk};
ghost use Rattle.qtt_syntax.specs.Tree.Tree.{apply as apply_tree};
ghost use Rattle.qtt_syntax.specs.View.{tree_of, argument_of};
ghost use Rattle.qtt_term.specs.Contexts.{part};
ghost use Rattle.qtt_term.specs.Judgement.{under as part_under};
ghost use Rattle.qtt_term.specs.Substitution.{sub};
ghost use Rattle.qtt_term.specs.Telescopes.{tele, filled};
ghost use Rattle.qtt_term.specs.View.{term, io};
ghost use Rattle.qtt_rules.specs.Judged.Mode.{synth, check};
ghost use Rattle.qtt_bidi.specs.Calls.{Answers, Judges, Counted, Fills, entries_of};
ghost use Rattle.qtt_bidi.specs.Elaboration.{switched, arguments as arguments_ask, applied as applied_asks};
ghost use Rattle.qtt_bidi.specs.Ends.{expression as expression_of};
ghost use Rattle.qtt_bidi.specs.Listed.{meaning_of, listed_as};
ghost use Rattle.qtt_bidi.specs.Made.{IsMade};
ghost use Rattle.qtt_bidi.specs.Meaning.Meaning.{constructor as constructor_name, pure as pure_name};
ghost use Rattle.qtt_bidi.specs.Parts.{argument_trees, application as application_asks, JudgesName};
ghost use Rattle.qtt_bidi.specs.Seen.{locals, mode_of, judged_as};

use crate::ends::mult_after;
use crate::judged::{FunctionType, Judged, Mode};
use crate::meaning::{Listed, Meaning, exact};
use crate::places::expression;
use crate::premises::{Elaborator, exactly, needs_type, under};
use crate::scope::Scope;
use crate::signatures::Made;
use qtt_base::Span;
use qtt_rules::ElabError;
use qtt_syntax::{Argument, Expr};
use qtt_term::{ConId, Converter, IoKind, Rule, Sigma, Term};
use qtt_usage::mult::Mult;
use qtt_usage::usage::Usage;

impl<'a, C: Converter> Elaborator<'a, C> {
    /// A global name with the arguments that are written.
    #[cycle(judge)]
    pub fn global_row(
        &self,
        scope: &Scope<'_>,
        sigma: Sigma,
        mode: Mode,
        span: Span,
        meaning: Meaning,
        arguments: &[Argument],
    ) -> Result<Judged, ElabError>
        ensures gives { JudgesName self.now (part sigma) scope.now (mode_of mode) span
            (meaning_of meaning) (argument_trees arguments.now) result }
        ensures len { IfOk result (λ j. Counted scope.now j.uses) }
    {
        match meaning {
            Meaning::Definition(id) => self.definition_name(scope, sigma, mode, span, id),
            Meaning::Listed(listed) => self.listed(scope, sigma, mode, span, listed, arguments),
            Meaning::Constructor(con) => {
                self.constructor(scope, sigma, mode, span, con, arguments)
            }
            Meaning::Pure(kind) => self.pure(scope, sigma, mode, span, kind, arguments),
        }
    }

    /// The rule of what takes exactly its arguments.
    #[cycle(judge)]
    fn listed(
        &self,
        scope: &Scope<'_>,
        sigma: Sigma,
        mode: Mode,
        span: Span,
        listed: Listed,
        arguments: &[Argument],
    ) -> Result<Judged, ElabError>
        ensures gives { JudgesName self.now (part sigma) scope.now (mode_of mode) span
            (listed_as listed) (argument_trees arguments.now) result }
        ensures len { IfOk result (λ j. Counted scope.now j.uses) }
    {
        let signature = self.signature(listed)?;
        let binders = &signature.arguments;
        exactly(binders.len(), arguments.len(), span, listed.rule(), 1)?;
        let mut values = Vec::new(self.alloc);
        let uses = self.arguments(scope, sigma, binders, arguments, &mut values)?;
        let found = self.listed_end(listed, &signature.ty, values, uses)?;
        self.switch(scope, mode, span, found)
    }

    /// The rules of constructors.
    #[cycle(judge)]
    fn constructor(
        &self,
        scope: &Scope<'_>,
        sigma: Sigma,
        mode: Mode,
        span: Span,
        con: ConId,
        arguments: &[Argument],
    ) -> Result<Judged, ElabError>
        ensures gives { JudgesName self.now (part sigma) scope.now (mode_of mode) span
            (constructor_name con) (argument_trees arguments.now) result }
        ensures len { IfOk result (λ j. Counted scope.now j.uses) }
    {
        let made = self.made(con)?;
        match mode {
            Mode::Synth => self.found_constructor(scope, sigma, span, con, made, arguments),
            Mode::Check(ty) => {
                self.checked_constructor(scope, sigma, span, con, made, ty, arguments)
            }
        }
    }

    /// A constructor whose type is found.
    #[cycle(judge)]
    fn found_constructor(
        &self,
        scope: &Scope<'_>,
        sigma: Sigma,
        span: Span,
        con: ConId,
        made: Made,
        arguments: &[Argument],
    ) -> Result<Judged, ElabError>
        requires { IsMade (entries_of self.now) con made }
        ensures gives { JudgesName self.now (part sigma) scope.now synth span
            (constructor_name con) (argument_trees arguments.now) result }
        ensures len { IfOk result (λ j. Counted scope.now j.uses) }
    {
        if made.params != 0 {
            return Err(needs_type(span, Rule::ConSynth, 1));
        }
        let fields = &made.fields;
        exactly(fields.len(), arguments.len(), span, Rule::ConSynth, 2)?;
        let mut values = Vec::new(self.alloc);
        let uses = self.arguments(scope, sigma, fields, arguments, &mut values)?;
        let ty = made.ty.fill(self.alloc, &values)?;
        let core = self.con_core(con, 0, values)?;
        Ok(Judged { ty, core, uses })
    }

    /// A constructor of a given type.
    #[cycle(judge)]
    fn checked_constructor(
        &self,
        scope: &Scope<'_>,
        sigma: Sigma,
        span: Span,
        con: ConId,
        made: Made,
        ty: Term,
        arguments: &[Argument],
    ) -> Result<Judged, ElabError>
        requires { IsMade (entries_of self.now) con made }
        ensures gives { JudgesName self.now (part sigma) scope.now (check (term ty)) span
            (constructor_name con) (argument_trees arguments.now) result }
        ensures len { IfOk result (λ j. Counted scope.now j.uses) }
    {
        let rule = Rule::ConCheck;
        let mut values = self.family_values(scope, con.family, &ty, span, rule, 1)?;
        values.truncate(made.params);
        let fields = &made.fields;
        exactly(fields.len(), arguments.len(), span, rule, 2)?;
        let uses = self.arguments(scope, sigma, fields, arguments, &mut values)?;
        let found = made.ty.fill(self.alloc, &values)?;
        self.agree(scope, &found, &ty, span, rule, 4)?;
        let core = self.con_core(con, made.params, values)?;
        Ok(Judged { ty, core, uses })
    }

    /// The rule of pure actions.
    #[cycle(judge)]
    fn pure(
        &self,
        scope: &Scope<'_>,
        sigma: Sigma,
        mode: Mode,
        span: Span,
        kind: IoKind,
        arguments: &[Argument],
    ) -> Result<Judged, ElabError>
        ensures gives { JudgesName self.now (part sigma) scope.now (mode_of mode) span
            (pure_name (io kind)) (argument_trees arguments.now) result }
        ensures len { IfOk result (λ j. Counted scope.now j.uses) }
    {
        match mode {
            Mode::Synth => Err(needs_type(span, Rule::Pure, 1)),
            Mode::Check(ty) => {
                let of = self.action_result(scope, kind, &ty, span, Rule::Pure, 2)?;
                exactly(1, arguments.len(), span, Rule::Pure, 3)?;
                let binders = [(mult_after(kind), Term::Var(0))];
                let mut values = vec![in self.alloc; of]?;
                let uses = self.arguments(scope, sigma, &binders, arguments, &mut values)?;
                let core = self.pure_core(kind, values)?;
                Ok(Judged { ty, core, uses })
            }
        }
    }

    /// The uses of arguments, whose cores are put behind the values for the binders before
    /// theirs.
    #[cycle(judge)]
    fn arguments(
        &self,
        scope: &Scope<'_>,
        sigma: Sigma,
        binders: &[(Mult, Term)],
        arguments: &[Argument],
        values: &mut Vec<Term>,
    ) -> Result<Usage, ElabError>
        ensures gives { Fills self.now
            (arguments_ask (entries_of self.now) (part sigma) (locals scope.now) (tele binders.now)
            (filled values.old.items) (argument_trees arguments.now)) values.old.items
            values.new.items result }
        ensures len { IfOk result (λ us. Counted scope.now us) }
    {
        match binders {
            [] => self.unused(scope),
            [binder, behind @ ..] => match arguments {
                [] => self.unused(scope),
                [first, rest @ ..] => {
                    let found = self.argument(scope, sigma, binder, first, values)?;
                    values.push(found.core)?;
                    let more = self.arguments(scope, sigma, behind, rest, values)?;
                    let mut uses = found.uses;
                    uses.scale(binder.0);
                    uses.add(&more);
                    Ok(uses)
                }
            },
        }
    }

    /// An argument for a binder behind these values.
    #[cycle(judge)]
    fn argument(
        &self,
        scope: &Scope<'_>,
        sigma: Sigma,
        binder: &(Mult, Term),
        argument: &Argument,
        values: &[Term],
    ) -> Result<Judged, ElabError>
        ensures gives { Judges self.now (part_under (part sigma) binder.now.0) scope.now
            (check (sub (filled values.now) (term binder.now.1)))
            (expression_of (argument_of argument.now)) result }
        ensures len { IfOk result (λ j. Counted scope.now j.uses) }
    {
        let ty = binder.1.fill(self.alloc, values)?;
        self.judge(
            scope,
            under(sigma, binder.0),
            Mode::Check(ty),
            expression(argument),
        )
    }

    /// The rules of applications.
    #[cycle(judge)]
    pub fn apply_row(
        &self,
        scope: &Scope<'_>,
        sigma: Sigma,
        mode: Mode,
        function: &Expr,
        arguments: &[Argument],
        span: Span,
    ) -> Result<Judged, ElabError>
        ensures gives { Judges self.now (part sigma) scope.now (mode_of mode)
            (apply_tree (tree_of function.now) (argument_trees arguments.now) span) result }
        ensures len { IfOk result (λ j. Counted scope.now j.uses) }
    {
        match exact(self.globals, function) {
            Some(meaning) => self.global_row(scope, sigma, mode, span, meaning, arguments),
            None => self.application(scope, sigma, mode, function, arguments, span),
        }
    }

    /// A function that is no such name, and its arguments.
    #[cycle(judge)]
    fn application(
        &self,
        scope: &Scope<'_>,
        sigma: Sigma,
        mode: Mode,
        function: &Expr,
        arguments: &[Argument],
        span: Span,
    ) -> Result<Judged, ElabError>
        ensures gives { Answers self.now
            (switched (locals scope.now) (mode_of mode) span
            (application_asks (entries_of self.now) (part sigma) (locals scope.now) span
            (tree_of function.now) (argument_trees arguments.now))) judged_as result }
        ensures len { IfOk result (λ j. Counted scope.now j.uses) }
    {
        let left = self.judge(scope, sigma, Mode::Synth, function)?;
        let found = self.applied(scope, sigma, span, left, arguments)?;
        self.switch(scope, mode, span, found)
    }

    /// A function, and one argument after another.
    #[cycle(judge)]
    fn applied(
        &self,
        scope: &Scope<'_>,
        sigma: Sigma,
        span: Span,
        left: Judged,
        arguments: &[Argument],
    ) -> Result<Judged, ElabError>
        requires { Counted scope.now left.uses }
        ensures gives { Answers self.now
            (applied_asks (entries_of self.now) (part sigma) (locals scope.now) span
            (judged_as left) (argument_trees arguments.now)) judged_as result }
        ensures len { IfOk result (λ j. Counted scope.now j.uses) }
    {
        match arguments {
            [] => Ok(left),
            [first, rest @ ..] => {
                let function = self.function_type(scope, &left.ty, span, Rule::App, 2)?;
                let FunctionType {
                    mult,
                    domain,
                    codomain,
                } = function;
                let inside = under(sigma, mult);
                let wanted = Mode::Check(domain);
                let used = self.judge(scope, inside, wanted, expression(first))?;
                let next = self.app_end(left, mult, codomain, used)?;
                self.applied(scope, sigma, span, next, rest)
            }
        }
    }
}
