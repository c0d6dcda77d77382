//! Expressions without parts: names, literals and universes.

ghost use Rattle.std.specs.Prelude.{◌≡◌, length, slice_get, IfOk, IfErr, MatchOption, MatchResult};
ghost use Rattle.qtt_base.specs.declared.place.Span.{Span as Place};
ghost use Rattle.qtt_syntax.specs.Tree.Tree.{number as number_tree, text as text_tree, universe as universe_tree};
ghost use Rattle.qtt_term.specs.Entries.{env};
ghost use Rattle.qtt_term.specs.Signature.{definition_at};
ghost use Rattle.qtt_term.specs.Contexts.{part};
ghost use Rattle.qtt_term.specs.Judgement.{Part};
ghost use Rattle.qtt_term.specs.Ask.{Ask};
ghost use Rattle.qtt_term.specs.Term.{var};
ghost use Rattle.qtt_term.specs.View.{term};
ghost use Rattle.qtt_rules.specs.Judged.{judged as as_judged};
ghost use Rattle.qtt_rules.specs.declared.errors.ElabError.TheVariants.{Memory};
ghost use Rattle.qtt_bidi.specs.Calls.{Answers, Judges, Counted, entries_of};
ghost use Rattle.qtt_bidi.specs.Elaboration.{switched, stands_for, local_row as asks_local, definition_row as asks_definition, unused};
ghost use Rattle.qtt_bidi.specs.Ends.{IsForm, accepted_as};
ghost use Rattle.qtt_bidi.specs.Seen.{not_accepted};
ghost use Rattle.qtt_bidi.specs.Seen.{locals, mode_of, judged_as};

use crate::judged::{Judged, Mode};
use crate::premises::{Elaborator, usable, use_at};
use crate::scope::Scope;
use qtt_base::{GlobalId, Span};
use qtt_core_check::{CoreRefusal, infer};
use qtt_prims::{Lit, Text};
use qtt_rules::{Detail, ElabError};
use qtt_term::{Converter, Ctx, Rule, Sigma, Term};
use qtt_usage::mult::Mult;
use qtt_usage::usage::Usage;

impl<'a, C: Converter> Elaborator<'a, C> {
    /// No use of any variable.
    pub fn unused(&self, scope: &Scope<'_>) -> Result<Usage, ElabError>
        ensures gives { MatchResult result (λ u. u ≡ unused (locals scope.now)) (λ e. e ≡ Memory) }
        ensures len { IfOk result (λ u. Counted scope.now u) }
    {
        let depth = scope.depth()?;
        Ok(Usage::zero(self.alloc, depth as usize)?)
    }

    /// A core term of this type that uses nothing.
    pub fn plain(&self, scope: &Scope<'_>, ty: Term, core: Term) -> Result<Judged, ElabError>
        ensures gives { MatchResult result
            (λ j. judged_as j ≡ as_judged (term ty) (term core) (unused (locals scope.now)))
            (λ e. e ≡ Memory) }
        ensures len { IfOk result (λ j. Counted scope.now j.uses) }
    {
        let uses = self.unused(scope)?;
        Ok(Judged { ty, core, uses })
    }

    /// What is found answers where a type is found; where one is given they compare Equal.
    pub fn switch(
        &self,
        scope: &Scope<'_>,
        mode: Mode,
        span: Span,
        found: Judged,
    ) -> Result<Judged, ElabError>
        ensures gives { Answers self.now
            (switched (locals scope.now) (mode_of mode) span (Ask.done (judged_as found)))
            judged_as result }
        ensures len { IfOk result (λ j. length j.uses ≡ length found.uses) }
    {
        match mode {
            Mode::Synth => Ok(found),
            Mode::Check(ty) => {
                self.agree(scope, &found.ty, &ty, span, Rule::Switch, 2)?;
                Ok(Judged {
                    ty,
                    core: found.core,
                    uses: found.uses,
                })
            }
        }
    }

    /// The rule of local names.
    pub fn local_row(
        &self,
        scope: &Scope<'_>,
        sigma: Sigma,
        span: Span,
        index: u32,
    ) -> Result<Judged, ElabError>
        ensures gives { Answers self.now
            (asks_local (entries_of self.now) (part sigma) (locals scope.now) span
            (slice_get (locals scope.now).names index)) judged_as result }
        ensures len { IfOk result (λ j. Counted scope.now j.uses) }
    {
        let Some((stands, ty)) = scope.name(self.alloc, index, 0)? else {
            return Err(ElabError::Memory);
        };
        match as_variable(&stands) {
            Some(variable) => self.variable(scope, sigma, span, variable, ty),
            None => self.standing(scope, sigma, span, stands, ty),
        }
    }

    /// A local name, where a type is found or one is given.
    pub fn local_name(
        &self,
        scope: &Scope<'_>,
        sigma: Sigma,
        mode: Mode,
        span: Span,
        index: u32,
    ) -> Result<Judged, ElabError>
        ensures gives { Answers self.now
            (switched (locals scope.now) (mode_of mode) span
            (asks_local (entries_of self.now) (part sigma) (locals scope.now) span
            (slice_get (locals scope.now).names index))) judged_as result }
        ensures len { IfOk result (λ j. Counted scope.now j.uses) }
    {
        let found = self.local_row(scope, sigma, span, index)?;
        self.switch(scope, mode, span, found)
    }

    /// A name that stands for a variable.
    fn variable(
        &self,
        scope: &Scope<'_>,
        sigma: Sigma,
        span: Span,
        index: u32,
        ty: Term,
    ) -> Result<Judged, ElabError>
        ensures gives { Answers self.now
            (stands_for (entries_of self.now) (part sigma) (locals scope.now) span (var index)
            (term ty)) judged_as result }
        ensures len { IfOk result (λ j. Counted scope.now j.uses) }
    {
        let depth = scope.depth()?;
        let core = Term::Var(index);
        if !usable(sigma, scope.mult(index)) {
            let kept = Detail::ErasedUse { depth, core };
            return Err(ElabError::Refused(kept, span, Rule::Var, 1));
        }
        let uses = use_at(self.alloc, sigma, depth, index)?;
        Ok(Judged { ty, core, uses })
    }

    /// A name that stands for a term that is no variable.
    fn standing(
        &self,
        scope: &Scope<'_>,
        sigma: Sigma,
        span: Span,
        stands: Term,
        ty: Term,
    ) -> Result<Judged, ElabError>
        requires { IsForm (term stands) }
        ensures gives { Answers self.now
            (stands_for (entries_of self.now) (part sigma) (locals scope.now) span (term stands)
            (term ty)) judged_as result }
        ensures len { IfOk result (λ j. Counted scope.now j.uses) }
    {
        match sigma {
            Sigma::Erased => self.plain(scope, ty, stands),
            Sigma::Run => self.accepted(scope, span, stands, ty),
        }
    }

    /// A term that the core judgement accepts in the run part.
    fn accepted(
        &self,
        scope: &Scope<'_>,
        span: Span,
        stands: Term,
        ty: Term,
    ) -> Result<Judged, ElabError>
        ensures gives { Answers self.now
            (accepted_as (entries_of self.now) (locals scope.now) span (term stands) (term ty))
            judged_as result }
        ensures len { IfOk result (λ j. Counted scope.now j.uses) }
    {
        let depth = scope.depth()?;
        let context = Ctx {
            vars: scope.variables(self.alloc)?,
            names: Vec::new(self.alloc),
        };
        let run = Sigma::Run;
        let budget = self.budget;
        match infer(
            self.alloc,
            self.converter,
            budget,
            self.globals,
            &context,
            run,
            &stands,
        ) {
            Ok((_, uses)) => Ok(Judged {
                ty,
                core: stands,
                uses,
            }),
            Err(refusal) => Err(not_accepted(budget, depth, span, stands, refusal)),
        }
    }

    /// A core term of this type that uses nothing, where a type is found or one is given.
    pub fn plain_row(
        &self,
        scope: &Scope<'_>,
        mode: Mode,
        span: Span,
        ty: Term,
        core: Term,
    ) -> Result<Judged, ElabError>
        ensures gives { Answers self.now
            (switched (locals scope.now) (mode_of mode) span
            (Ask.done (as_judged (term ty) (term core) (unused (locals scope.now))))) judged_as
            result }
        ensures len { IfOk result (λ j. Counted scope.now j.uses) }
    {
        let found = self.plain(scope, ty, core)?;
        self.switch(scope, mode, span, found)
    }

    /// The rule of numbers.
    pub fn number_row(
        &self,
        scope: &Scope<'_>,
        mode: Mode,
        value: i64,
        span: Span,
    ) -> Result<Judged, ElabError>
        ensures gives { (p : Part) → Judges self.now p scope.now (mode_of mode)
            (number_tree value span) result }
        ensures len { IfOk result (λ j. Counted scope.now j.uses) }
    {
        self.plain_row(scope, mode, span, Term::IntTy, Term::Lit(Lit::Int(value)))
    }

    /// The rule of universes. What was read has a small level.
    pub fn universe_row(
        &self,
        scope: &Scope<'_>,
        mode: Mode,
        level: u64,
        span: Span,
    ) -> Result<Judged, ElabError>
        ensures gives { (p : Part) (s : Place) → Judges self.now p scope.now (mode_of mode)
            (universe_tree level s span) result }
        ensures len { IfOk result (λ j. Counted scope.now j.uses) }
    {
        let Ok(level) = u32::try_from(level) else {
            return Err(ElabError::Memory);
        };
        let Some(above) = level.checked_add(1) else {
            return Err(ElabError::Memory);
        };
        self.plain_row(scope, mode, span, Term::Sort(above), Term::Sort(level))
    }

    /// The rule of texts. What was read is UTF-8.
    pub fn text_row(
        &self,
        scope: &Scope<'_>,
        mode: Mode,
        value: &[u8],
        span: Span,
    ) -> Result<Judged, ElabError>
        ensures gives { (p : Part) → Judges self.now p scope.now (mode_of mode)
            (text_tree value.now span) result }
        ensures len { IfOk result (λ j. Counted scope.now j.uses) }
    {
        let Ok(value) = str::from_utf8(value) else {
            return Err(ElabError::Memory);
        };
        let core = Term::Lit(Lit::Text(Text::from_str(self.alloc, value)?));
        self.plain_row(scope, mode, span, Term::StringTy, core)
    }

    /// The multiplicity and the type of a definition. What is no definition is as one of 0.
    fn declared(&self, id: GlobalId) -> Result<Declared, ElabError>
        ensures mult { IfOk result
            (λ d. d.mult ≡ (definition_at (env (entries_of self.now)) id).mult) }
        ensures ty { IfOk result
            (λ d. term d.ty ≡ (definition_at (env (entries_of self.now)) id).type) }
        ensures memory { IfErr result (λ e. e ≡ Memory) }
    {
        match self.globals.definition(id) {
            Some(definition) => Ok(Declared {
                mult: definition.mult,
                ty: definition.ty.copy(self.alloc)?,
            }),
            None => Ok(Declared {
                mult: Mult::Zero,
                ty: Term::Sort(0),
            }),
        }
    }

    /// The rule of definitions.
    pub fn definition_row(
        &self,
        scope: &Scope<'_>,
        sigma: Sigma,
        span: Span,
        id: GlobalId,
    ) -> Result<Judged, ElabError>
        ensures gives { Answers self.now
            (asks_definition (entries_of self.now) (part sigma) (locals scope.now) span id)
            judged_as result }
        ensures len { IfOk result (λ j. Counted scope.now j.uses) }
    {
        let declared = self.declared(id)?;
        let core = Term::Def(id);
        if !usable(sigma, declared.mult) {
            let depth = scope.depth()?;
            let kept = Detail::ErasedUse { depth, core };
            return Err(ElabError::Refused(kept, span, Rule::Global, 1));
        }
        self.plain(scope, declared.ty, core)
    }

    /// A definition's name, where a type is found or one is given.
    pub fn definition_name(
        &self,
        scope: &Scope<'_>,
        sigma: Sigma,
        mode: Mode,
        span: Span,
        id: GlobalId,
    ) -> Result<Judged, ElabError>
        ensures gives { Answers self.now
            (switched (locals scope.now) (mode_of mode) span
            (asks_definition (entries_of self.now) (part sigma) (locals scope.now) span id))
            judged_as result }
        ensures len { IfOk result (λ j. Counted scope.now j.uses) }
    {
        let found = self.definition_row(scope, sigma, span, id)?;
        self.switch(scope, mode, span, found)
    }
}

/// A definition without its body.
#[derive(Debug, Drop)]
struct Declared {
    mult: Mult,
    ty: Term,
}

/// What is told where the core judgement does not accept the term of a name.
fn not_accepted(budget: u64, depth: u32, span: Span, core: Term, refusal: CoreRefusal) -> ElabError
    ensures { result ≡ not_accepted budget depth span core refusal }
{
    match refusal {
        CoreRefusal::Fails(_, _) => {
            let kept = Detail::ErasedUse { depth, core };
            ElabError::Refused(kept, span, Rule::Stands, 1)
        }
        CoreRefusal::Spent(question) => {
            let kept = Detail::BudgetSpent { budget, question };
            ElabError::Refused(kept, span, Rule::Stands, 1)
        }
        CoreRefusal::Memory => ElabError::Memory,
    }
}

/// The index of a variable.
fn as_variable(t: &Term) -> Option<u32>
    ensures { MatchOption result (IsForm (term t.now)) (λ i. term t.now ≡ var i) }
{
    match t {
        Term::Var(index) => Some(*index),
        _ => None,
    }
}
