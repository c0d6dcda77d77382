//! What goes the way to a hole, what it finds, and how a rule on the way ends.

ghost use Rattle.std.specs.Prelude.{◌≡◌, ◌<◌, ◌+◌, ◌∷◌, List, length, option_map, MatchResult, IfOk};
ghost use Rattle.qtt_usage.specs.declared.mult.Mult.{Mult as Multiplicity};
ghost use Rattle.qtt_usage.specs.Usage.{usage_scale};
ghost use Rattle.qtt_term.specs.Contexts.{part};
ghost use Rattle.qtt_term.specs.Scope.{name_of};
ghost use Rattle.qtt_term.specs.View.{term};
ghost use Rattle.qtt_term.specs.declared.rule.Rule.TheVariants as rules;
ghost use Rattle.qtt_rules.specs.Refusal.{at};
ghost use Rattle.qtt_rules.specs.declared.errors.ElabError.TheVariants.{Memory};
ghost use Rattle.qtt_bidi.specs.Calls.{Answers, Counted};
ghost use Rattle.qtt_bidi.specs.Elaboration.{bound_name, bound_place as place_of_bound};
ghost use Rattle.qtt_bidi.specs.Seen.{locals};
ghost use Rattle.qtt_holes.specs.Calls.{Stands, IsHole, fitting_before};
ghost use Rattle.qtt_holes.specs.View.{names_of};
ghost use Rattle.qtt_holes.specs.Walk.{Walked, found_hole, passed as passed_so, used_too as used_too_so, fit_before as fits_asks};

use crate::hole::{Hole, Seen};
use crate::remains::{Remains, fits_before, left_of};
use crate::sight::{Names, in_sight};
use qtt_base::{Name, Span};
use qtt_bidi::{Binding, Elaborator, Judged, Scope, bound_place, written_name};
use qtt_rules::{Detail, ElabError};
use qtt_syntax::Local;
use qtt_term::{Converter, Rule, Sigma, Term};
use qtt_usage::mult::Mult;
use qtt_usage::usage::Usage;

/// What goes the way to a hole, in a part.
#[derive(Drop)]
pub struct Walker<'a, C> {
    pub elaborator: Elaborator<'a, C>,
    pub sigma: Sigma,
}

/// What a walk has found: the hole, with the names in sight, of which it is not yet told what is
/// left; the uses before it of the variables where the walk began; and what is left of those that
/// were bound on the way, the newest first.
#[derive(Debug, Drop)]
pub struct Found {
    pub name: Name,
    pub span: Span,
    pub goal: Term,
    pub depth: u32,
    pub seen: Vec<Seen>,
    pub uses: Usage,
    pub left: Vec<Mult>,
}

/// A use fits a multiplicity before a hole, in the run part.
fn fits_within(sigma: Sigma, used: Mult, declared: Mult) -> bool
    ensures { result ≡ fitting_before (part sigma) used declared }
{
    match sigma {
        Sigma::Erased => true,
        Sigma::Run => fits_before(used, declared),
    }
}

/// With these uses besides.
fn used_too(uses: Usage, found: Found) -> Found
    requires { length uses ≡ length found.uses }
    ensures stands { (w : Walked) → Stands w found → Stands (used_too_so uses w) result }
    ensures len { length result.uses ≡ length uses }
{
    let mut uses = uses;
    uses.add(&found.uses);
    let mut found = found;
    found.uses = uses;
    found
}

impl<'a, C: Converter> Walker<'a, C> {
    /// At the hole.
    pub fn at_hole(
        &self,
        scope: &Scope<'_>,
        names: &Names<'_>,
        name: &Name,
        span: Span,
        goal: Term,
    ) -> Result<Found, ElabError>
        ensures gives { MatchResult result
            (λ f. Stands
            (found_hole (locals scope.now) (names_of names.now) name.now span (term goal)) f)
            (λ e. e ≡ Memory) }
        ensures len { IfOk result (λ f. Counted scope.now f.uses) }
    {
        let alloc = self.elaborator.alloc;
        let depth = scope.depth()?;
        let name = name.copy()?;
        let seen = in_sight(alloc, scope, names, 0)?;
        let uses = Usage::zero(alloc, depth as usize)?;
        Ok(Found {
            name,
            span,
            goal,
            depth,
            seen,
            uses,
            left: Vec::new(alloc),
        })
    }

    /// In the run part what the newest variable was used for before the hole fits.
    fn fit_before(
        &self,
        name: Option<&Local>,
        declared: Mult,
        used: Mult,
        span: Span,
        rule: Rule,
        number: u8,
    ) -> Result<(), ElabError>
        ensures { (us : List Multiplicity) → Answers self.now.elaborator
            (fits_asks (part self.now.sigma) (bound_name (option_map (λ x. x.now) name.entry))
            declared (used ∷ us) (at span rule number)) (λ u. u) result }
    {
        if fits_within(self.sigma, used, declared) {
            return Ok(());
        }
        let name = written_name(name)?;
        let kept = Detail::WrongUsage {
            name,
            declared,
            used,
        };
        Err(ElabError::Refused(kept, span, rule, number))
    }

    /// Behind a binder: what the newest variable was used for before the hole fits, and it is kept
    /// what is left of it.
    pub fn passed(
        &self,
        name: Option<&Local>,
        declared: Mult,
        found: Found,
        span: Span,
        rule: Rule,
        number: u8,
    ) -> Result<Found, ElabError>
        requires { 0 < length found.uses }
        ensures gives { Answers self.now.elaborator
            (fits_asks (part self.now.sigma) (bound_name (option_map (λ x. x.now) name.entry))
            declared found.uses (at span rule number)) (λ f. tt) result }
        ensures stands { (w : Walked) → Stands w found →
            IfOk result (λ f. Stands (passed_so (part self.now.sigma) declared w) f) }
        ensures len { IfOk result (λ f. length f.uses + 1 ≡ length found.uses) }
    {
        let mut found = found;
        let used = found.uses.pop();
        self.fit_before(name, declared, used, span, rule, number)?;
        found.left.push(left_of(self.sigma, declared, used))?;
        Ok(found)
    }

    /// The last premise and the result of the rule of `let`.
    pub fn let_end(
        &self,
        binding: Binding<'_>,
        value: Judged,
        found: Found,
    ) -> Result<Found, ElabError>
        requires { length value.uses + 1 ≡ length found.uses }
        ensures gives { Answers self.now.elaborator
            (fits_asks (part self.now.sigma) (name_of binding.entry.name.now.name)
            binding.entry.mult found.uses (at binding.entry.name.now.span rules.Let 4))
            (λ f. tt) result }
        ensures stands { (w : Walked) → Stands w found → IfOk result
            (λ f. Stands (used_too_so (usage_scale binding.entry.mult value.uses)
            (passed_so (part self.now.sigma) binding.entry.mult w)) f) }
        ensures len { IfOk result (λ f. length f.uses ≡ length value.uses) }
    {
        let Binding { mult, name } = binding;
        let passed = self.passed(Some(name), mult, found, name.span, Rule::Let, 4)?;
        let mut uses = value.uses;
        uses.scale(mult);
        Ok(used_too(uses, passed))
    }

    /// The last premise and the result of the rule of binds, of an action at this place.
    pub fn bind_end(
        &self,
        name: Option<&Local>,
        place: Span,
        mult: Mult,
        action: Judged,
        found: Found,
    ) -> Result<Found, ElabError>
        requires { length action.uses + 1 ≡ length found.uses }
        ensures gives { Answers self.now.elaborator
            (fits_asks (part self.now.sigma) (bound_name (option_map (λ x. x.now) name.entry))
            mult found.uses
            (at (place_of_bound (option_map (λ x. x.now) name.entry) place) rules.DoBind 6))
            (λ f. tt) result }
        ensures stands { (w : Walked) → Stands w found → IfOk result
            (λ f. Stands (used_too_so action.uses (passed_so (part self.now.sigma) mult w)) f) }
        ensures len { IfOk result (λ f. length f.uses ≡ length action.uses) }
    {
        let span = bound_place(name, place);
        let passed = self.passed(name, mult, found, span, Rule::DoBind, 6)?;
        Ok(used_too(action.uses, passed))
    }

    /// The hole that a walk from this scope found.
    pub fn hole(&self, scope: &Scope<'_>, found: Found) -> Hole
        ensures { (w : Walked) → Stands w found →
            IsHole (part self.now.sigma) (locals scope.now) w result }
    {
        let Found {
            name,
            span,
            goal,
            depth,
            seen,
            uses,
            left,
        } = found;
        let mut seen = seen;
        let remains = Remains {
            sigma: self.sigma,
            scope,
            uses: &uses,
            left: &left,
        };
        remains.tell(&mut seen);
        Hole {
            name,
            span,
            goal,
            depth,
            seen,
        }
    }
}
