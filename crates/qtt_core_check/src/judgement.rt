//! The core judgement of terms.

ghost use Rattle.std.specs.Prelude.{◌≡◌, ◌<◌, ◌++◌, None, Some, IfOk, OnOk, map, length, slice_get};
ghost use Rattle.qtt_term.specs.Term.{Io, Pi, Lam, App, Fam, Call, Trap};
ghost use Rattle.qtt_term.specs.Signature.{ConSig, IoTy};
ghost use Rattle.qtt_term.specs.View.{action, term, terms, branches as branches_of, case as case_term, delete as delete_term, side_by_side};
ghost use Rattle.qtt_term.specs.Contexts.{part};
ghost use Rattle.qtt_term.specs.Judgement.{Part};
ghost use Rattle.qtt_term.specs.Infer.{at, wanted, has, type_of, infer, arguments, joined_use};
ghost use Rattle.qtt_term.specs.Telescopes.{tele, filled};
ghost use Rattle.qtt_core_check.specs.Seen.{ctx, judged};
ghost use Rattle.qtt_core_check.specs.Signatures.{applied_to};
ghost use Rattle.qtt_core_check.specs.TwoLists.{con_parts, act_parts};
ghost use Rattle.qtt_core_check.specs.Cases.{case_of, motive_of, params_of, branch_asks, branches_ask};
ghost use Rattle.qtt_core_check.specs.Calls.{Answers, Judges, Counted, env_of};

use crate::judged::Judged;
use crate::matching::{Matching, with_branch};
use crate::named_rows::io_end;
use crate::premises::{Checker, same_mult, under, usable};
use crate::refusal::CoreRefusal;
use crate::scope::Scope;
use qtt_base::GlobalId;
use qtt_prims::{ActKind, Primitive};
use qtt_term::signatures::Signature;
use qtt_term::telescopes::{filled_binders, motive_binders, parameter_binders};
use qtt_term::{Branch, Case, ConId, Converter, Delete, Rule, Sigma, Term};
use qtt_usage::mult::Mult;
use qtt_usage::usage::Usage;

impl<'a, C: Converter> Checker<'a, C> {
    /// The type and the uses of a term.
    #[cycle(judge)]
    pub fn judge(&self, scope: &Scope<'_>, sigma: Sigma, t: &Term) -> Result<Judged, CoreRefusal>
        ensures gives { Judges self.now (part sigma) scope.now (term t.now) result }
        ensures len { IfOk result (λ j. Counted scope.now j.uses) }
    {
        match t {
            Term::Var(index) => self.var_row(scope, sigma, *index),
            Term::Sort(level) => self.sort_row(scope, sigma, *level),
            Term::Pi(mult, domain, codomain) => self.pi_row(scope, *mult, domain, codomain),
            Term::Lam(mult, domain, body) => self.lam_row(scope, sigma, *mult, domain, body),
            Term::App(mult, function, argument) => {
                self.app_row(scope, sigma, *mult, function, argument)
            }
            Term::Fam(id, args) => self.family_row(scope, sigma, *id, args),
            Term::Con(con, params, fields) => {
                self.constructor_row(scope, sigma, *con, params, fields)
            }
            Term::Case(case) => self.case(scope, sigma, case),
            Term::Delete(delete) => self.delete(scope, sigma, delete),
            Term::Def(id) => self.def_row(scope, sigma, *id),
            Term::Lit(lit) => self.lit_row(scope, lit),
            Term::IntTy => self.plain_row(scope, Term::Sort(0)),
            Term::StringTy => self.plain_row(scope, Term::Sort(0)),
            Term::HandleTy => self.plain_row(scope, Term::Sort(0)),
            Term::IoTy(_, of) => self.io_row(scope, of),
            Term::Prim(prim, args) => self.primitive_row(scope, sigma, *prim, args),
            Term::Act(kind, types, args) => self.action_row(scope, sigma, *kind, types, args),
            Term::Trap(of) => self.trap_row(scope, of),
            Term::Tape(number) => self.tape_row(scope, sigma, *number),
        }
    }

    /// The rule of function types.
    #[cycle(judge)]
    fn pi_row(
        &self,
        scope: &Scope<'_>,
        mult: Mult,
        domain: &Term,
        codomain: &Term,
    ) -> Result<Judged, CoreRefusal>
        ensures gives { (p : Part) → Judges self.now p scope.now
            (Pi mult (term domain.now) (term codomain.now)) result }
        ensures len { IfOk result (λ j. Counted scope.now j.uses) }
    {
        let first = self.type_of(scope, domain, Rule::Pi, 1)?;
        let inner = Scope::Bound(&*scope, mult, domain);
        let second = self.type_of(&inner, codomain, Rule::Pi, 2)?;
        self.pi_end(scope, first, second)
    }

    /// The rule of functions.
    #[cycle(judge)]
    fn lam_row(
        &self,
        scope: &Scope<'_>,
        sigma: Sigma,
        mult: Mult,
        domain: &Term,
        body: &Term,
    ) -> Result<Judged, CoreRefusal>
        ensures gives { Judges self.now (part sigma) scope.now
            (Lam mult (term domain.now) (term body.now))
            result }
        ensures len { IfOk result (λ j. Counted scope.now j.uses) }
    {
        self.type_of(scope, domain, Rule::Lam, 1)?;
        let inner = Scope::Bound(&*scope, mult, domain);
        let found = self.judge(&inner, sigma, body)?;
        self.lam_end(sigma, mult, domain, body, found)
    }

    /// The rule of applications.
    #[cycle(judge)]
    fn app_row(
        &self,
        scope: &Scope<'_>,
        sigma: Sigma,
        mult: Mult,
        function: &Term,
        argument: &Term,
    ) -> Result<Judged, CoreRefusal>
        ensures gives { Judges self.now (part sigma) scope.now
            (App mult (term function.now) (term argument.now)) result }
        ensures len { IfOk result (λ j. Counted scope.now j.uses) }
    {
        let left = self.judge(scope, sigma, function)?;
        let pi = self.function_type(scope, &left.ty, Rule::App, 1)?;
        if !same_mult(mult, pi.mult) {
            return Err(CoreRefusal::Fails(Rule::App, 1));
        }
        let inside = under(sigma, mult);
        let used = self.has(scope, inside, argument, &pi.domain, Rule::App, 2)?;
        self.app_end(mult, left, pi, argument, used)
    }

    /// The rule of families.
    #[cycle(judge)]
    fn family_row(
        &self,
        scope: &Scope<'_>,
        sigma: Sigma,
        id: GlobalId,
        args: &[Term],
    ) -> Result<Judged, CoreRefusal>
        ensures gives { Judges self.now (part sigma) scope.now
            (Fam id (side_by_side (terms args.now))) result }
        ensures len { IfOk result (λ j. Counted scope.now j.uses) }
    {
        let signature = self.family_signature(id, args.len())?;
        self.signature_row(scope, sigma, &signature, (Rule::Fam, 1), args)
    }

    /// The rule of constructors.
    #[cycle(judge)]
    fn constructor_row(
        &self,
        scope: &Scope<'_>,
        sigma: Sigma,
        con: ConId,
        params: &[Term],
        fields: &[Term],
    ) -> Result<Judged, CoreRefusal>
        ensures gives { Judges self.now (part sigma) scope.now
            (con_parts con.family con.place params.now fields.now) result }
        ensures len { IfOk result (λ j. Counted scope.now j.uses) }
    {
        let made = self.constructor(con, params.len(), fields.len())?;
        let mut values = Vec::new(self.alloc);
        let front = &made.params;
        let premise = (Rule::Con, 1);
        let mut used = self.arguments(scope, sigma, front, premise, params, &mut values)?;
        let back = &made.fields;
        let premise = (Rule::Con, 2);
        let more = self.arguments(scope, sigma, back, premise, fields, &mut values)?;
        used.add(&more);
        self.applied(&made.ty, &values, used)
    }

    /// The rule of `IO`, of either kind.
    #[cycle(judge)]
    fn io_row(&self, scope: &Scope<'_>, of: &Term) -> Result<Judged, CoreRefusal>
        ensures gives { (p : Part) (m : Io) →
            Judges self.now p scope.now (IoTy m (term of.now)) result }
        ensures len { IfOk result (λ j. Counted scope.now j.uses) }
    {
        let used = self.has(scope, Sigma::Erased, of, &Term::Sort(0), Rule::PrimTy, 1)?;
        Ok(io_end(used))
    }

    /// The rule of primitives.
    #[cycle(judge)]
    fn primitive_row(
        &self,
        scope: &Scope<'_>,
        sigma: Sigma,
        prim: Primitive,
        args: &[Term],
    ) -> Result<Judged, CoreRefusal>
        ensures gives { Judges self.now (part sigma) scope.now
            (Call prim (side_by_side (terms args.now)))
            result }
        ensures len { IfOk result (λ j. Counted scope.now j.uses) }
    {
        let signature = self.prim_signature(prim, args.len())?;
        self.signature_row(scope, sigma, &signature, (Rule::Prim, 1), args)
    }

    /// The rule of a form whose components are the arguments of a signature.
    #[cycle(judge)]
    fn signature_row(
        &self,
        scope: &Scope<'_>,
        sigma: Sigma,
        signature: &Signature,
        premise: (Rule, u8),
        args: &[Term],
    ) -> Result<Judged, CoreRefusal>
        requires { length signature.now.arguments.items ≡ length args.now }
        ensures gives { Answers self.now
            (applied_to (env_of self.now) (part sigma) (ctx scope.now)
            (at premise.0 premise.1) signature.now args.now) judged result }
        ensures len { IfOk result (λ j. Counted scope.now j.uses) }
    {
        let binders = &signature.arguments;
        let mut values = Vec::new(self.alloc);
        let used = self.arguments(scope, sigma, binders, premise, args, &mut values)?;
        self.applied(&signature.ty, &values, used)
    }

    /// The rule of actions.
    #[cycle(judge)]
    fn action_row(
        &self,
        scope: &Scope<'_>,
        sigma: Sigma,
        kind: ActKind,
        types: &[Term],
        args: &[Term],
    ) -> Result<Judged, CoreRefusal>
        ensures gives { Judges self.now (part sigma) scope.now
            (act_parts (action kind) types.now args.now)
            result }
        ensures len { IfOk result (λ j. Counted scope.now j.uses) }
    {
        let signature = self.act_signature(kind, types.len(), args.len())?;
        let (front, back) = signature.arguments.split_at(types.len());
        let mut values = Vec::new(self.alloc);
        let premise = (Rule::Act, 1);
        let mut used = self.arguments(scope, sigma, front, premise, types, &mut values)?;
        let more = self.arguments(scope, sigma, back, premise, args, &mut values)?;
        used.add(&more);
        self.applied(&signature.ty, &values, used)
    }

    /// The rule of missing clauses.
    #[cycle(judge)]
    fn trap_row(&self, scope: &Scope<'_>, of: &Term) -> Result<Judged, CoreRefusal>
        ensures gives { (p : Part) → Judges self.now p scope.now (Trap (term of.now)) result }
        ensures len { IfOk result (λ j. Counted scope.now j.uses) }
    {
        self.type_of(scope, of, Rule::Trap, 1)?;
        self.plain_row(scope, of.copy(self.alloc)?)
    }

    /// The uses of a term that has this type.
    #[cycle(judge)]
    fn has(
        &self,
        scope: &Scope<'_>,
        sigma: Sigma,
        t: &Term,
        ty: &Term,
        rule: Rule,
        premise: u8,
    ) -> Result<Usage, CoreRefusal>
        ensures gives { Answers self.now
            (has (ctx scope.now)
            (infer (env_of self.now) (part sigma) (ctx scope.now) (term t.now))
            (term ty.now) (at rule premise)) (λ u. u) result }
        ensures len { IfOk result (λ u. Counted scope.now u) }
    {
        let found = self.judge(scope, sigma, t)?;
        self.agree(scope, &found.ty, ty, rule, premise)?;
        Ok(found.uses)
    }

    /// The level of a term that is a type.
    #[cycle(judge)]
    fn type_of(
        &self,
        scope: &Scope<'_>,
        t: &Term,
        rule: Rule,
        premise: u8,
    ) -> Result<u32, CoreRefusal>
        ensures { Answers self.now
            (type_of (ctx scope.now)
            (infer (env_of self.now) Part.erased (ctx scope.now) (term t.now))
            (at rule premise)) (λ l. l) result }
    {
        let found = self.judge(scope, Sigma::Erased, t)?;
        self.sort(scope, &found.ty, rule, premise)
    }

    /// The uses of arguments, which are put behind the values for the binders before theirs.
    #[cycle(judge)]
    fn arguments(
        &self,
        scope: &Scope<'_>,
        sigma: Sigma,
        binders: &[(Mult, Term)],
        premise: (Rule, u8),
        args: &[Term],
        values: &mut Vec<Term>,
    ) -> Result<Usage, CoreRefusal>
        requires { length binders.now ≡ length args.now }
        ensures gives { Answers self.now
            (arguments (env_of self.now) (part sigma) (ctx scope.now)
            (wanted (at premise.0 premise.1) (tele binders.now))
            (filled values.old.items) (side_by_side (terms args.now))) (λ u. u) result }
        ensures values { OnOk result
            (terms values.new.items ≡ terms values.old.items ++ terms args.now) }
        ensures len { IfOk result (λ u. Counted scope.now u) }
    {
        let depth = scope.depth()?;
        let mut uses = Usage::zero(self.alloc, depth as usize)?;
        for (place, arg) in args.iter().enumerate() {
            let (mult, ty) = &binders[place];
            let ty = ty.fill(self.alloc, values)?;
            let inside = under(sigma, *mult);
            let mut used = self.has(scope, inside, arg, &ty, premise.0, premise.1)?;
            used.scale(*mult);
            uses.add(&used);
            values.push(arg.copy(self.alloc)?)?;
        }
        Ok(uses)
    }

    /// The rule of matches.
    #[cycle(judge)]
    fn case(&self, scope: &Scope<'_>, sigma: Sigma, case: &Case) -> Result<Judged, CoreRefusal>
        ensures gives { Judges self.now (part sigma) scope.now (case_term case.now) result }
        ensures len { IfOk result (λ j. Counted scope.now j.uses) }
    {
        let family = self.case_family(
            sigma,
            case.mult,
            case.family,
            case.params.len(),
            case.indices,
            &case.branches,
        )?;
        let binders = parameter_binders(self.alloc, family)?;
        let mut params = Vec::new(self.alloc);
        let premise = (Rule::Case, 2);
        self.arguments(
            scope,
            Sigma::Erased,
            &binders,
            premise,
            &case.params,
            &mut params,
        )?;
        let matching = Matching {
            mult: case.mult,
            id: case.family,
            family,
            params: &params,
            motive: &case.motive,
        };
        let binders = motive_binders(self.alloc, case.family, family, &params)?;
        let inner = Scope::Several(&*scope, &binders);
        self.type_of(&inner, &case.motive, Rule::Case, 3)?;
        let joined = self.branches(scope, sigma, &matching, &case.branches)?;
        let found = self.judge(scope, under(sigma, case.mult), &case.scrutinee)?;
        self.case_end(scope, &matching, &case.scrutinee, found, joined)
    }

    /// The join of the uses of a match's branches, none where each is dead.
    #[cycle(judge)]
    fn branches(
        &self,
        scope: &Scope<'_>,
        sigma: Sigma,
        matching: &Matching<'_>,
        branches: &[Branch],
    ) -> Result<Option<Usage>, CoreRefusal>
        requires { length branches.now ≡ length matching.now.family.now.constructors.items }
        ensures gives { Answers self.now
            (branches_ask (env_of self.now) (part sigma) (ctx scope.now)
            (case_of matching.now) (params_of matching.now) (motive_of matching.now)
            (case_of matching.now).family.constructors
            (map (λ b. b.1) (branches_of branches.now)) None) (λ u. u) result }
        ensures len { IfOk result
            (λ u. length (joined_use (length (ctx scope.now)) u) ≡ length (ctx scope.now)) }
    {
        let mut joined = None;
        for (place, branch) in branches.iter().enumerate() {
            let used = self.branch(scope, sigma, matching, place, &branch.body)?;
            joined = with_branch(&branch.body, used, joined);
        }
        Ok(joined)
    }

    /// The uses of a branch without its fields.
    #[cycle(judge)]
    fn branch(
        &self,
        scope: &Scope<'_>,
        sigma: Sigma,
        matching: &Matching<'_>,
        place: usize,
        body: &Term,
    ) -> Result<Usage, CoreRefusal>
        requires { place < length matching.now.family.now.constructors.items }
        ensures gives { (d : ConSig) →
            slice_get (case_of matching.now).family.constructors place ≡ Some d →
            Answers self.now
            (branch_asks (env_of self.now) (part sigma) (ctx scope.now)
            (case_of matching.now) (params_of matching.now) (motive_of matching.now) d
            (term body.now)) (λ u. u) result }
        ensures len { IfOk result (λ u. Counted scope.now u) }
    {
        let constructor = &matching.family.constructors[place];
        let binders = filled_binders(
            self.alloc,
            matching.mult,
            &constructor.fields,
            matching.params,
        )?;
        let inner = Scope::Several(&*scope, &binders);
        let found = self.judge(&inner, sigma, body)?;
        let wanted = self.branch_type(matching, place)?;
        self.agree(&inner, &found.ty, &wanted, Rule::Case, 4)?;
        self.branch_end(sigma, &binders, body, found.uses)
    }

    /// The rule of deletions.
    #[cycle(judge)]
    fn delete(
        &self,
        scope: &Scope<'_>,
        sigma: Sigma,
        delete: &Delete,
    ) -> Result<Judged, CoreRefusal>
        ensures gives { Judges self.now (part sigma) scope.now (delete_term delete.now) result }
        ensures len { IfOk result (λ j. Counted scope.now j.uses) }
    {
        if !usable(sigma, delete.mult) {
            return Err(CoreRefusal::Fails(Rule::Delete, 1));
        }
        let erased = Sigma::Erased;
        self.has(scope, erased, &delete.ty, &Term::Sort(0), Rule::Delete, 2)?;
        self.has(scope, erased, &delete.point, &delete.ty, Rule::Delete, 3)?;
        let equality = self.equality(&delete.ty, &delete.point)?;
        let inner = Scope::Bound(&*scope, delete.mult, &equality);
        self.type_of(&inner, &delete.motive, Rule::Delete, 4)?;
        let wanted = self.at_refl(&delete.ty, &delete.point, &delete.motive)?;
        let branch = self.has(scope, sigma, &delete.branch, &wanted, Rule::Delete, 5)?;
        let inside = under(sigma, delete.mult);
        let used = self.has(scope, inside, &delete.scrutinee, &equality, Rule::Delete, 6)?;
        self.delete_end(delete.mult, &delete.motive, &delete.scrutinee, branch, used)
    }
}
