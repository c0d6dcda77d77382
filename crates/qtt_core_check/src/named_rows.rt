//! The rules of forms with arguments: their signatures, and their results.

ghost use Rattle.std.specs.Prelude.{◌≡◌, ◌+◌, ◌&&◌, ◌++◌, Some, IfOk, MatchResult, length, eqb};
ghost use Rattle.qtt_usage.specs.Mult.{𝟘};
ghost use Rattle.qtt_usage.specs.Usage.{no_usage, usage_sum, usage_scale};
ghost use Rattle.qtt_term.specs.Term.{Sort, Def};
ghost use Rattle.qtt_term.specs.Substitution.{sub, inst};
ghost use Rattle.qtt_term.specs.Signature.{fam_at, prim_signature, act_signature, EqTy, Refl};
ghost use Rattle.qtt_term.specs.Judgement.{erase_binds};
ghost use Rattle.qtt_term.specs.View.{term, action};
ghost use Rattle.qtt_term.specs.Contexts.{part};
ghost use Rattle.qtt_term.specs.Infer.{at, is_there, inferred, family_wants};
ghost use Rattle.qtt_term.specs.Premises.{need};
ghost use Rattle.qtt_term.specs.Telescopes.{tele, filled, signature};
ghost use Rattle.qtt_core_check.specs.Signatures.{lit_type};
ghost use Rattle.qtt_core_check.specs.Constructors.{made_shaped, IsMade};
ghost use Rattle.qtt_core_check.specs.TwoLists.{act_shaped};
ghost use Rattle.qtt_core_check.specs.Seen.{ctx, judged};
ghost use Rattle.qtt_core_check.specs.Calls.{Answers, Judges, Counted, env_of};
ghost use Rattle.qtt_core_check.specs.declared.refusal.CoreRefusal.TheVariants.{Memory};

use crate::judged::Judged;
use crate::premises::{Checker, sum, usable};
use crate::refusal::CoreRefusal;
use crate::scope::Scope;
use qtt_base::{GlobalId, ModuleId};
use qtt_prims::{ActKind, Lit, Primitive};
use qtt_term::signatures::{Signature, action_signature, primitive_signature, type_arguments};
use qtt_term::telescopes::{copied_binders, family_binders, parameter_binders, result_type};
use qtt_term::{ConId, Converter, Rule, Sigma, Term};
use qtt_usage::mult::Mult;
use qtt_usage::usage::Usage;

/// What is asked of a constructor's components, and its type under them.
#[derive(Debug, Drop)]
pub struct Made {
    pub params: Vec<(Mult, Term)>,
    pub fields: Vec<(Mult, Term)>,
    pub ty: Term,
}

/// The result of the rule of `IO`, whose argument is erased.
pub fn io_end(used: Usage) -> Judged
    ensures gives { judged result ≡ inferred (Sort 0) (usage_scale 𝟘 used) }
    ensures len { length result.uses ≡ length used }
{
    let mut uses = used;
    uses.scale(Mult::Zero);
    Judged {
        ty: Term::Sort(0),
        uses,
    }
}

impl<'a, C: Converter> Checker<'a, C> {
    /// A term of this type that uses nothing.
    pub fn plain_row(&self, scope: &Scope<'_>, ty: Term) -> Result<Judged, CoreRefusal>
        ensures gives { MatchResult result
            (λ j. judged j ≡ inferred (term ty) (no_usage (length (ctx scope.now))))
            (λ e. e ≡ Memory) }
        ensures len { IfOk result (λ j. Counted scope.now j.uses) }
    {
        let depth = scope.depth()?;
        Ok(Judged {
            ty,
            uses: Usage::zero(self.alloc, depth as usize)?,
        })
    }

    /// The rule of definitions.
    pub fn def_row(
        &self,
        scope: &Scope<'_>,
        sigma: Sigma,
        id: GlobalId,
    ) -> Result<Judged, CoreRefusal>
        ensures gives { Judges self.now (part sigma) scope.now (Def id) result }
        ensures len { IfOk result (λ j. Counted scope.now j.uses) }
    {
        let Some(definition) = self.globals.definition(id) else {
            return Err(CoreRefusal::Fails(Rule::Def, 1));
        };
        if !usable(sigma, definition.mult) {
            return Err(CoreRefusal::Fails(Rule::Def, 1));
        }
        let ty = definition.ty.fill(self.alloc, &[])?;
        self.plain_row(scope, ty)
    }

    /// The rule of literals.
    pub fn lit_row(&self, scope: &Scope<'_>, lit: &Lit) -> Result<Judged, CoreRefusal>
        ensures gives { MatchResult result
            (λ j. judged j ≡ inferred (lit_type lit.now) (no_usage (length (ctx scope.now))))
            (λ e. e ≡ Memory) }
        ensures len { IfOk result (λ j. Counted scope.now j.uses) }
    {
        match lit {
            Lit::Int(_) => self.plain_row(scope, Term::IntTy),
            Lit::Text(_) => self.plain_row(scope, Term::StringTy),
        }
    }

    /// The type at these values, and the uses of the arguments.
    pub fn applied(&self, ty: &Term, values: &[Term], uses: Usage) -> Result<Judged, CoreRefusal>
        ensures gives { MatchResult result
            (λ j. judged j ≡ inferred (sub (filled values.now) (term ty.now)) uses)
            (λ e. e ≡ Memory) }
        ensures len { IfOk result (λ j. length j.uses ≡ length uses) }
    {
        Ok(Judged {
            ty: ty.fill(self.alloc, values)?,
            uses,
        })
    }

    /// The signature of a family that is there, of so many parameters and indices.
    pub fn family_signature(&self, id: GlobalId, count: usize) -> Result<Signature, CoreRefusal>
        ensures gives { Answers self.now
            (need
            (is_there ((env_of self.now).family id) && eqb count
            (length (family_wants (fam_at (env_of self.now) id)))) (at Rule.Fam 1))
            (λ s. tt) result }
        ensures arguments { IfOk result
            (λ s. tele s.arguments.items ≡ erase_binds
            ((fam_at (env_of self.now) id).params ++
            (fam_at (env_of self.now) id).indices)) }
        ensures ty { IfOk result (λ s. term s.ty ≡ Sort (fam_at (env_of self.now) id).level) }
        ensures len { IfOk result (λ s. length s.arguments.items ≡ count) }
    {
        let Some(family) = self.globals.family(id) else {
            return Err(CoreRefusal::Fails(Rule::Fam, 1));
        };
        let arguments = family_binders(self.alloc, family)?;
        if arguments.len() != count {
            return Err(CoreRefusal::Fails(Rule::Fam, 1));
        }
        let ty = Term::Sort(family.level);
        Ok(Signature { arguments, ty })
    }

    /// What a constructor that is there asks, of so many parameters and fields.
    pub fn constructor(&self, con: ConId, params: usize, fields: usize) -> Result<Made, CoreRefusal>
        ensures gives { Answers self.now
            (need
            (made_shaped (fam_at (env_of self.now) con.family) con.place params
            (params + fields)) (at Rule.Con 1)) (λ m. tt) result }
        ensures made { IfOk result (λ m. IsMade (fam_at (env_of self.now) con.family) con.place m) }
        ensures params { IfOk result (λ m. length m.params.items ≡ params) }
        ensures fields { IfOk result (λ m. length m.fields.items ≡ fields) }
    {
        let Some(family) = self.globals.family(con.family) else {
            return Err(CoreRefusal::Fails(Rule::Con, 1));
        };
        let Some(constructor) = family.constructors.get(con.place as usize) else {
            return Err(CoreRefusal::Fails(Rule::Con, 1));
        };
        if params != family.params.len() {
            return Err(CoreRefusal::Fails(Rule::Con, 1));
        }
        if fields != constructor.fields.len() {
            return Err(CoreRefusal::Fails(Rule::Con, 1));
        }
        Ok(Made {
            params: parameter_binders(self.alloc, family)?,
            fields: copied_binders(self.alloc, &constructor.fields)?,
            ty: result_type(self.alloc, con.family, params, constructor)?,
        })
    }

    /// The signature of a primitive of so many arguments.
    pub fn prim_signature(&self, prim: Primitive, count: usize) -> Result<Signature, CoreRefusal>
        ensures gives { Answers self.now
            (need (eqb count (length (prim_signature prim).arguments)) (at Rule.Prim 1))
            (λ s. tt) result }
        ensures signature { IfOk result (λ s. signature s ≡ prim_signature prim) }
        ensures len { IfOk result (λ s. length s.arguments.items ≡ count) }
    {
        let signature = primitive_signature(self.alloc, prim)?;
        if signature.arguments.len() != count {
            return Err(CoreRefusal::Fails(Rule::Prim, 1));
        }
        Ok(signature)
    }

    /// The signature of an action of so many type arguments and arguments.
    pub fn act_signature(
        &self,
        kind: ActKind,
        types: usize,
        args: usize,
    ) -> Result<Signature, CoreRefusal>
        ensures gives { Answers self.now
            (need (act_shaped (action kind) types (types + args)) (at Rule.Act 1))
            (λ s. tt) result }
        ensures signature { IfOk result (λ s. signature s ≡ act_signature (action kind)) }
        ensures len { IfOk result (λ s. length s.arguments.items ≡ types + args) }
    {
        let count = sum(types, args)?;
        let signature = action_signature(self.alloc, kind)?;
        if types != type_arguments(kind) || signature.arguments.len() != count {
            return Err(CoreRefusal::Fails(Rule::Act, 1));
        }
        Ok(signature)
    }

    /// The type of proofs that a point equals itself.
    pub fn equality(&self, ty: &Term, point: &Term) -> Result<Term, CoreRefusal>
        ensures { MatchResult result
            (λ t. term t ≡ EqTy (term ty.now) (term point.now) (term point.now))
            (λ e. e ≡ Memory) }
    {
        let id = GlobalId {
            module: ModuleId(0),
            item: 13,
        };
        let ty = ty.copy(self.alloc)?;
        let left = point.copy(self.alloc)?;
        let right = point.copy(self.alloc)?;
        Ok(Term::Fam(id, vec![in self.alloc; ty, left, right]?))
    }

    /// The proof by reflexivity that a point equals itself.
    fn reflexivity(&self, ty: &Term, point: &Term) -> Result<Term, CoreRefusal>
        ensures { MatchResult result (λ t. term t ≡ Refl (term ty.now) (term point.now))
            (λ e. e ≡ Memory) }
    {
        let con = ConId {
            family: GlobalId {
                module: ModuleId(0),
                item: 13,
            },
            place: 0,
        };
        let ty = ty.copy(self.alloc)?;
        let point = point.copy(self.alloc)?;
        let params = vec![in self.alloc; ty, point]?;
        Ok(Term::Con(con, params, Vec::new(self.alloc)))
    }

    /// The motive of a deletion at the proof by reflexivity.
    pub fn at_refl(&self, ty: &Term, point: &Term, motive: &Term) -> Result<Term, CoreRefusal>
        ensures { MatchResult result
            (λ t. term t ≡ inst (term motive.now) (Refl (term ty.now) (term point.now)))
            (λ e. e ≡ Memory) }
    {
        let proof = [self.reflexivity(ty, point)?];
        Ok(motive.subst(self.alloc, &proof)?)
    }

    /// The result of the rule of deletions.
    pub fn delete_end(
        &self,
        mult: Mult,
        motive: &Term,
        scrutinee: &Term,
        branch: Usage,
        used: Usage,
    ) -> Result<Judged, CoreRefusal>
        requires { length branch ≡ length used }
        ensures gives { MatchResult result
            (λ j. judged j ≡ inferred (inst (term motive.now) (term scrutinee.now))
            (usage_sum (usage_scale mult used) branch)) (λ e. e ≡ Memory) }
        ensures len { IfOk result (λ j. length j.uses ≡ length used) }
    {
        let value = [scrutinee.copy(self.alloc)?];
        let ty = motive.subst(self.alloc, &value)?;
        let mut uses = used;
        uses.scale(mult);
        uses.add(&branch);
        Ok(Judged { ty, uses })
    }
}
