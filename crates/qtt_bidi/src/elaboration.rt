//! Elaboration of expressions: each form by its rule.

ghost use Rattle.std.specs.Prelude.{ℕ, List, IfOk};
ghost use Rattle.qtt_syntax.specs.declared.expr.Mark.{Mark as MarkKind};
ghost use Rattle.qtt_syntax.specs.Tree.Tree.{name as name_tree, pi as pi_tree, the as the_tree};
ghost use Rattle.qtt_syntax.specs.View.{tree_of};
ghost use Rattle.qtt_term.specs.Contexts.{part};
ghost use Rattle.qtt_term.specs.Judgement.{Part};
ghost use Rattle.qtt_rules.specs.Judged.Mode.{synth};
ghost use Rattle.qtt_rules.specs.Refusal.{at};
ghost use Rattle.qtt_bidi.specs.Calls.{Answers, Judges, Counted, entries_of};
ghost use Rattle.qtt_bidi.specs.Elaboration.{place, is_type as type_asks, judge as judge_asks};
ghost use Rattle.qtt_bidi.specs.Parts.{ascribed as ascribed_asks};
ghost use Rattle.qtt_bidi.specs.Seen.{locals, mode_of, judged_as, classified};

use crate::ends::Binding;
use crate::judged::{Classified, Judged, Mode};
use crate::meaning::global_meaning;
use crate::places::first_token;
use crate::premises::Elaborator;
use crate::scope::Scope;
use qtt_base::Span;
use qtt_rules::ElabError;
use qtt_syntax::{Expr, Named, Target};
use qtt_term::{Converter, Rule, Sigma};
use qtt_usage::mult::Mult;

impl<'a, C: Converter> Elaborator<'a, C> {
    /// An expression, by the rule of its form.
    #[cycle(judge)]
    #[tactic(auto, using(qtt_syntax::proofs::Rows::rows))]
    pub fn judge(
        &self,
        scope: &Scope<'_>,
        sigma: Sigma,
        mode: Mode,
        e: &Expr,
    ) -> Result<Judged, ElabError>
        ensures gives { Judges self.now (part sigma) scope.now (mode_of mode) (tree_of e.now)
            result }
        ensures len { IfOk result (λ j. Counted scope.now j.uses) }
    {
        match e {
            Expr::Name(named) => self.name_row(scope, sigma, mode, named),
            Expr::Number { value, span } => self.number_row(scope, mode, *value, *span),
            Expr::Text { value, span } => self.text_row(scope, mode, value, *span),
            Expr::Type { level, span, .. } => self.universe_row(scope, mode, *level, *span),
            Expr::Hole { .. } => Err(ElabError::Memory),
            Expr::The { ty, value, span } => self.ascription_row(
                scope, sigma, mode, ty, value, *span,
            ),
            Expr::Apply {
                function,
                arguments,
                span,
            } => self.apply_row(scope, sigma, mode, function, arguments, *span),
            Expr::Pi {
                mult,
                domain,
                codomain,
                span,
                ..
            } => self.pi_row(scope, mode, *mult, domain, codomain, *span),
            Expr::Lambda {
                binders,
                body,
                span,
            } => self.lambda_row(scope, sigma, mode, binders, body, *span),
            Expr::Let {
                mult,
                name,
                ty,
                value,
                body,
                ..
            } => {
                let binding = Binding { mult: *mult, name };
                self.let_row(scope, sigma, mode, binding, ty, value, body)
            }
            Expr::Do { statements, span } => {
                self.statements(scope, sigma, mode, *span, statements)
            }
        }
    }

    /// The rule of a name without arguments. What was read has a target.
    #[cycle(judge)]
    fn name_row(
        &self,
        scope: &Scope<'_>,
        sigma: Sigma,
        mode: Mode,
        named: &Named,
    ) -> Result<Judged, ElabError>
        ensures gives { Judges self.now (part sigma) scope.now (mode_of mode)
            (name_tree named.now) result }
        ensures len { IfOk result (λ j. Counted scope.now j.uses) }
    {
        match named.target {
            Target::Unknown => Err(ElabError::Memory),
            Target::Local(index) => self.local_name(scope, sigma, mode, named.span, index),
            Target::Global(id) => {
                let meaning = global_meaning(self.globals, id);
                self.global_row(scope, sigma, mode, named.span, meaning, &[])
            }
        }
    }

    /// A type, and its level.
    #[cycle(judge)]
    pub fn is_type(
        &self,
        scope: &Scope<'_>,
        e: &Expr,
        rule: Rule,
        number: u8,
    ) -> Result<Classified, ElabError>
        ensures { Answers self.now
            (type_asks (locals scope.now)
            (judge_asks (entries_of self.now) Part.erased (locals scope.now) synth (tree_of e.now))
            (at (place (tree_of e.now)) rule number)) classified result }
    {
        let found = self.judge(scope, Sigma::Erased, Mode::Synth, e)?;
        let level = self.sort(scope, &found.ty, first_token(e), rule, number)?;
        Ok(Classified {
            core: found.core,
            level,
        })
    }

    /// The rule of function types.
    #[cycle(judge)]
    fn pi_row(
        &self,
        scope: &Scope<'_>,
        mode: Mode,
        mult: Mult,
        domain: &Expr,
        codomain: &Expr,
        span: Span,
    ) -> Result<Judged, ElabError>
        ensures gives { (p : Part) (k : MarkKind) (x : List ℕ) → Judges self.now p scope.now
            (mode_of mode) (pi_tree k mult x (tree_of domain.now) (tree_of codomain.now) span)
            result }
        ensures len { IfOk result (λ j. Counted scope.now j.uses) }
    {
        let first = self.is_type(scope, domain, Rule::Pi, 1)?;
        let inner = Scope::Named(&*scope, mult, &first.core);
        let second = self.is_type(&inner, codomain, Rule::Pi, 2)?;
        let found = self.pi_end(scope, mult, first, second)?;
        self.switch(scope, mode, span, found)
    }

    /// An expression of a written type.
    #[cycle(judge)]
    pub fn ascribed(
        &self,
        scope: &Scope<'_>,
        sigma: Sigma,
        ty: &Expr,
        value: &Expr,
        rule: Rule,
    ) -> Result<Judged, ElabError>
        ensures gives { Answers self.now
            (ascribed_asks (entries_of self.now) (part sigma) (locals scope.now) rule
            (tree_of ty.now) (tree_of value.now)) judged_as result }
        ensures len { IfOk result (λ j. Counted scope.now j.uses) }
    {
        let domain = self.is_type(scope, ty, rule, 1)?;
        self.judge(scope, sigma, Mode::Check(domain.core), value)
    }

    /// The rule of `the`.
    #[cycle(judge)]
    fn ascription_row(
        &self,
        scope: &Scope<'_>,
        sigma: Sigma,
        mode: Mode,
        ty: &Expr,
        value: &Expr,
        span: Span,
    ) -> Result<Judged, ElabError>
        ensures gives { Judges self.now (part sigma) scope.now (mode_of mode)
            (the_tree (tree_of ty.now) (tree_of value.now) span) result }
        ensures len { IfOk result (λ j. Counted scope.now j.uses) }
    {
        let found = self.ascribed(scope, sigma, ty, value, Rule::The)?;
        self.switch(scope, mode, span, found)
    }
}
