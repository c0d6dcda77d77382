//! Premises and results of the rule of matches.

ghost use Rattle.std.specs.Prelude.{◌≡◌, ◌+◌, ◌<◌, ◌≤◌, ◌&&◌, Some, IfOk, MatchResult, map, length, slice_get, eqb};
ghost use Rattle.qtt_term.specs.Signature.{ConSig, fam_at};
ghost use Rattle.qtt_term.specs.Judgement.{branch_type as type_of_branch};
ghost use Rattle.qtt_usage.specs.Usage.{usage_sum, usage_scale};
ghost use Rattle.qtt_term.specs.Term.{var, ε, ◌▸◌, ◌+++◌};
ghost use Rattle.qtt_term.specs.Substitution.{sub, push};
ghost use Rattle.qtt_term.specs.Question.{same_counts};
ghost use Rattle.qtt_term.specs.Items.{family as family_of};
ghost use Rattle.qtt_term.specs.View.{term, terms, branch as branch_of, branches as branches_of, side_by_side};
ghost use Rattle.qtt_term.specs.Contexts.{part};
ghost use Rattle.qtt_term.specs.Infer.{at, is_there, usable, unbound, with_branch, joined_use};
ghost use Rattle.qtt_term.specs.Premises.{need};
ghost use Rattle.qtt_term.specs.Telescopes.{tele};
ghost use Rattle.qtt_core_check.specs.Seen.{ctx, judged};
ghost use Rattle.qtt_core_check.specs.Cases.{case_of, motive_of, params_of, shaped, scrutinee_asks, fit_newest, fits_within};
ghost use Rattle.qtt_core_check.specs.Calls.{Answers, Counted, env_of};
ghost use Rattle.qtt_core_check.specs.declared.refusal.CoreRefusal.TheVariants.{Memory};

use crate::judged::Judged;
use crate::premises::{Checker, sum, usable};
use crate::refusal::CoreRefusal;
use crate::rows::is_dead;
use crate::scope::Scope;
use qtt_base::GlobalId;
use qtt_term::copying::copy_all;
use qtt_term::telescopes::{branch_type, joined, number, self_type};
use qtt_term::{Branch, ConId, Constructor, Converter, Family, Rule, Sigma, Term};
use qtt_usage::mult::Mult;
use qtt_usage::usage::Usage;

/// A Case whose numbers of components are its family's: the family at these parameters, and the
/// motive.
#[derive(Drop)]
pub struct Matching<'a> {
    pub mult: Mult,
    pub id: GlobalId,
    pub family: &'a Family,
    pub params: &'a [Term],
    pub motive: &'a Term,
}

/// Each branch stands under as many binders as its constructor has fields, and there is one for
/// each.
fn same_counts(branches: &[Branch], constructors: &[Constructor]) -> bool
    ensures { result ≡ same_counts (map (λ b. b.0) (branches_of branches.now))
        (map (λ c. length c.fields.items) constructors.now) }
{
    if branches.len() != constructors.len() {
        return false;
    }
    for (place, branch) in branches.iter().enumerate() {
        if fields(branch) != constructors[place].fields.len() {
            return false;
        }
    }
    true
}

/// How many fields a branch stands under.
fn fields(branch: &Branch) -> usize
    ensures { result ≡ (branch_of branch.now).0 }
{
    branch.fields as usize
}

/// The numbers of parameters, indices and branches with fields are the family's.
fn shaped(family: &Family, params: usize, indices: u32, branches: &[Branch]) -> bool
    ensures { result ≡
        (eqb params (length family.now.params.items) &&
        (eqb indices (length family.now.indices.items) && same_counts
        (map (λ b. b.0) (branches_of branches.now))
        (map (λ c. length c.fields.items) family.now.constructors.items))) }
{
    let counted = both(
        indices as usize == family.indices.len(),
        same_counts(branches, &family.constructors),
    );
    both(params == family.params.len(), counted)
}

/// What the binders of a component are used for fits, in the run part and where the component is
/// not dead.
fn fits_within(sigma: Sigma, body: &Term, fit: bool) -> bool
    ensures { result ≡ fits_within (part sigma) (term body.now) fit }
{
    match sigma {
        Sigma::Erased => true,
        Sigma::Run => is_dead(body) || fit,
    }
}

fn both(one: bool, other: bool) -> bool
    ensures { result ≡ (one && other) }
{
    one && other
}

/// Whether the uses of the newest binders fit, and the uses of the others.
fn fit_binders(binders: &[(Mult, Term)], uses: Usage) -> (bool, Usage)
    requires { length binders.now ≤ length uses }
    ensures { result ≡ fit_newest (tele binders.now) uses }
{
    let mut uses = uses;
    let mut fit = true;
    for place in 0..binders.len() {
        let (mult, _) = &binders[binders.len() - 1 - place];
        let used = uses.pop();
        fit = both(fit, Mult::fits(used, *mult));
    }
    (fit, uses)
}

/// The join with a further branch; one that is dead changes nothing.
pub fn with_branch(body: &Term, used: Usage, joined: Option<Usage>) -> Option<Usage>
    requires { length (joined_use (length used) joined) ≡ length used }
    ensures { result ≡ with_branch (term body.now) used joined }
{
    if is_dead(body) {
        return joined;
    }
    match joined {
        None => Some(used),
        Some(before) => {
            let mut before = before;
            before.join(&used);
            Some(before)
        }
    }
}

impl<'a, C: Converter> Checker<'a, C> {
    /// The family of a Case which has its numbers of components, and whose scrutinee may be
    /// used.
    pub fn case_family(
        &self,
        sigma: Sigma,
        mult: Mult,
        id: GlobalId,
        params: usize,
        indices: u32,
        branches: &[Branch],
    ) -> Result<&'a Family, CoreRefusal>
        ensures gives { Answers self.now
            (need
            (is_there ((env_of self.now).family id) &&
            (usable (part sigma) mult && shaped (fam_at (env_of self.now) id)
            params (indices + 1) (map (λ b. b.0) (branches_of branches.now))))
            (at Rule.Case 1)) (λ F. tt) result }
        ensures found { IfOk result (λ F. (env_of self.now).family id ≡ Some (family_of F.now)) }
        ensures params { IfOk result (λ F. length F.now.params.items ≡ params) }
        ensures branches { IfOk result
            (λ F. length branches.now ≡ length F.now.constructors.items) }
    {
        let Some(family) = self.globals.family(id) else {
            return Err(CoreRefusal::Fails(Rule::Case, 1));
        };
        if !usable(sigma, mult) {
            return Err(CoreRefusal::Fails(Rule::Case, 1));
        }
        if !shaped(family, params, indices, branches) {
            return Err(CoreRefusal::Fails(Rule::Case, 1));
        }
        Ok(family)
    }

    /// The type of the branch of a constructor, under its fields.
    pub fn branch_type(&self, matching: &Matching<'_>, place: usize) -> Result<Term, CoreRefusal>
        requires { place < length matching.now.family.now.constructors.items }
        ensures { (d : ConSig) → slice_get (case_of matching.now).family.constructors place ≡
            Some d →
            MatchResult result
            (λ t. term t ≡ type_of_branch (params_of matching.now) d (motive_of matching.now))
            (λ e. e ≡ Memory) }
    {
        let family = matching.family;
        let con = ConId {
            family: matching.id,
            place: number(place)?,
        };
        Ok(branch_type(
            self.alloc,
            con,
            family.params.len(),
            &family.constructors[place],
            matching.params,
            matching.motive,
        )?)
    }

    /// The uses of a branch without its fields, which fit.
    pub fn branch_end(
        &self,
        sigma: Sigma,
        binders: &[(Mult, Term)],
        body: &Term,
        uses: Usage,
    ) -> Result<Usage, CoreRefusal>
        requires { length binders.now ≤ length uses }
        ensures gives { Answers self.now
            (unbound (part sigma) (tele binders.now) (term body.now) uses (at Rule.Case 5))
            (λ u. u) result }
        ensures len { IfOk result (λ u. length u + length binders.now ≡ length uses) }
    {
        let (fit, uses) = fit_binders(binders, uses);
        if !fits_within(sigma, body, fit) {
            return Err(CoreRefusal::Fails(Rule::Case, 5));
        }
        Ok(uses)
    }

    /// The family of a match at its parameters and these indices.
    fn scrutinee_type(&self, matching: &Matching<'_>, indices: &[Term]) -> Result<Term, CoreRefusal>
        ensures { MatchResult result
            (λ t. term t ≡ sub
            (push (side_by_side (terms indices.now)) (params_of matching.now))
            (case_of matching.now).family.self) (λ e. e ≡ Memory) }
    {
        let params = copy_all(self.alloc, matching.params)?;
        let values = joined(params, copy_all(self.alloc, indices)?)?;
        let family = self_type(self.alloc, matching.id, matching.family)?;
        Ok(family.fill(self.alloc, &values)?)
    }

    /// The motive at these indices and the scrutinee.
    fn result_type(
        &self,
        matching: &Matching<'_>,
        indices: Vec<Term>,
        scrutinee: &Term,
    ) -> Result<Term, CoreRefusal>
        ensures { MatchResult result
            (λ t. term t ≡ sub
            (push (side_by_side (terms indices.items) +++ (term scrutinee.now ▸ ε)) var)
            (motive_of matching.now)) (λ e. e ≡ Memory) }
    {
        let mut indices = indices;
        indices.push(scrutinee.copy(self.alloc)?)?;
        Ok(matching.motive.subst(self.alloc, &indices)?)
    }

    /// The last premise and the result of the rule of matches.
    pub fn case_end(
        &self,
        scope: &Scope<'_>,
        matching: &Matching<'_>,
        scrutinee: &Term,
        found: Judged,
        joined: Option<Usage>,
    ) -> Result<Judged, CoreRefusal>
        requires found { length found.uses ≡ length (ctx scope.now) }
        requires joined { length (joined_use (length (ctx scope.now)) joined) ≡ length
            (ctx scope.now) }
        ensures gives { Answers self.now
            (scrutinee_asks (ctx scope.now) (case_of matching.now) (params_of matching.now)
            (motive_of matching.now) (term scrutinee.now) joined (judged found)) judged
            result }
        ensures len { IfOk result (λ j. Counted scope.now j.uses) }
    {
        let count = matching.family.params.len();
        let whole = sum(count, matching.family.indices.len())?;
        let args = self.family_args(scope, matching.id, whole, &found.ty, (Rule::Case, 6))?;
        let (_, indices) = args.split_at(count);
        let indices = copy_all(self.alloc, indices)?;
        let wanted = self.scrutinee_type(matching, &indices)?;
        self.agree(scope, &found.ty, &wanted, Rule::Case, 6)?;
        Ok(Judged {
            ty: self.result_type(matching, indices, scrutinee)?,
            uses: match_uses(matching.mult, found.uses, joined),
        })
    }
}

/// The uses of a match, whose scrutinee is used so often.
fn match_uses(mult: Mult, scrutinee: Usage, joined: Option<Usage>) -> Usage
    requires { length (joined_use (length scrutinee) joined) ≡ length scrutinee }
    ensures uses { result ≡ usage_sum (usage_scale mult scrutinee)
        (joined_use (length scrutinee) joined) }
    ensures len { length result ≡ length scrutinee }
{
    let mut uses = scrutinee;
    uses.scale(mult);
    match joined {
        None => uses,
        Some(branches) => {
            uses.add(&branches);
            uses
        }
    }
}
