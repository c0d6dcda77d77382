//! What takes exactly its arguments: signatures, and the results at these.

ghost use Rattle.std.specs.Prelude.{◌≡◌, ◌++◌, [], length, IfOk, IfErr, MatchResult};
ghost use Rattle.qtt_term.specs.Signature.{Env, fam_at, signature as signature_at, type_arguments as types_of};
ghost use Rattle.qtt_term.specs.Substitution.{sub};
ghost use Rattle.qtt_term.specs.Term.{Named, Form, node, Action, Act, Sort};
ghost use Rattle.qtt_term.specs.Entries.{env};
ghost use Rattle.qtt_term.specs.Telescopes.{tele, filled};
ghost use Rattle.qtt_term.specs.View.{term, terms, side_by_side, io, action as action_of};
ghost use Rattle.qtt_rules.specs.Judged.{judged as as_judged};
ghost use Rattle.qtt_rules.specs.declared.errors.ElabError.TheVariants.{Memory};
ghost use Rattle.qtt_bidi.specs.Calls.{entries_of};
ghost use Rattle.qtt_bidi.specs.Elaboration.{family_telescope};
ghost use Rattle.qtt_bidi.specs.Listed.{prim_type, form_of, arguments_of, type_of};
ghost use Rattle.qtt_bidi.specs.Made.{IsMade};
ghost use Rattle.qtt_bidi.specs.Seen.{judged_as};

use crate::judged::Judged;
use crate::meaning::{Listed, TypeName};
use crate::premises::Elaborator;
use qtt_base::GlobalId;
use qtt_prims::ActKind;
use qtt_rules::ElabError;
use qtt_term::signatures::{Signature, action_signature, primitive_signature, type_arguments};
use qtt_term::telescopes::{copied_binders, family_binders, result_type};
use qtt_term::{ConId, Converter, IoKind, Term};
use qtt_usage::mult::Mult;
use qtt_usage::usage::Usage;
use std::alloc::Global;

/// What is asked of a constructor's fields, and its type under its family's parameters and
/// these.
#[derive(Debug, Drop)]
pub struct Made {
    pub params: usize,
    pub fields: Vec<(Mult, Term)>,
    pub ty: Term,
}

/// The signature of a type of Prim.
fn type_signature(alloc: Global, name: TypeName) -> Result<Signature, ElabError>
    ensures arguments { (E : Env) → IfOk result
        (λ s. tele s.arguments.items ≡
        (signature_at E (Named.prim_ty (prim_type name))).arguments) }
    ensures ty { (E : Env) → IfOk result
        (λ s. term s.ty ≡ (signature_at E (Named.prim_ty (prim_type name))).type) }
    ensures memory { IfErr result (λ e. e ≡ Memory) }
{
    let arguments = match name {
        TypeName::Int | TypeName::Text | TypeName::Handle => Vec::new(alloc),
        TypeName::Io(_) => vec![in alloc; (Mult::Zero, Term::Sort(0))]?,
    };
    Ok(Signature {
        arguments,
        ty: Term::Sort(0),
    })
}

impl<'a, C: Converter> Elaborator<'a, C> {
    /// The signature of what takes exactly its arguments. A family that is not there takes none.
    pub fn signature(&self, listed: Listed) -> Result<Signature, ElabError>
        ensures arguments { IfOk result
            (λ s. tele s.arguments.items ≡ arguments_of (entries_of self.now) listed) }
        ensures ty { IfOk result (λ s. term s.ty ≡ type_of (entries_of self.now) listed) }
        ensures memory { IfErr result (λ e. e ≡ Memory) }
    {
        match listed {
            Listed::Family(id) => self.family_signature(id),
            Listed::Type(name) => type_signature(self.alloc, name),
            Listed::Primitive(prim) => Ok(primitive_signature(self.alloc, prim)?),
            Listed::Action(kind) => Ok(action_signature(self.alloc, kind)?),
        }
    }

    fn family_signature(&self, id: GlobalId) -> Result<Signature, ElabError>
        ensures arguments { IfOk result
            (λ s. tele s.arguments.items ≡ family_telescope (entries_of self.now) id) }
        ensures ty { IfOk result
            (λ s. term s.ty ≡ Sort (fam_at (env (entries_of self.now)) id).level) }
        ensures memory { IfErr result (λ e. e ≡ Memory) }
    {
        match self.globals.family(id) {
            Some(family) => Ok(Signature {
                arguments: family_binders(self.alloc, family)?,
                ty: Term::Sort(family.level),
            }),
            None => Ok(Signature {
                arguments: Vec::new(self.alloc),
                ty: Term::Sort(0),
            }),
        }
    }

    /// What is asked of a constructor's fields. One that is not there stands in no text that
    /// was read.
    pub fn made(&self, con: ConId) -> Result<Made, ElabError>
        ensures { MatchResult result
            (λ m. IsMade (entries_of self.now) con m)
            (λ e. e ≡ Memory) }
    {
        let Some(family) = self.globals.family(con.family) else {
            return Err(ElabError::Memory);
        };
        let Some(constructor) = family.constructors.get(con.place as usize) else {
            return Err(ElabError::Memory);
        };
        let params = family.params.len();
        Ok(Made {
            params,
            fields: copied_binders(self.alloc, &constructor.fields)?,
            ty: result_type(self.alloc, con.family, params, constructor)?,
        })
    }

    /// The core of what takes exactly its arguments, at these.
    fn listed_core(&self, listed: Listed, values: Vec<Term>) -> Result<Term, ElabError>
        ensures { MatchResult result
            (λ t. term t ≡ node (form_of listed) (side_by_side (terms values.items)))
            (λ e. e ≡ Memory) }
    {
        match listed {
            Listed::Family(id) => Ok(Term::Fam(id, values)),
            Listed::Type(name) => type_core(self.alloc, name, values),
            Listed::Primitive(prim) => Ok(Term::Prim(prim, values)),
            Listed::Action(kind) => action_core(kind, values),
        }
    }

    /// The result of a rule of what takes exactly its arguments.
    pub fn listed_end(
        &self,
        listed: Listed,
        ty: &Term,
        values: Vec<Term>,
        uses: Usage,
    ) -> Result<Judged, ElabError>
        ensures gives { MatchResult result
            (λ j. judged_as j ≡ as_judged (sub (filled values.items) (term ty.now))
            (node (form_of listed) (side_by_side (terms values.items))) uses)
            (λ e. e ≡ Memory) }
        ensures len { IfOk result (λ j. length j.uses ≡ length uses) }
    {
        let ty = ty.fill(self.alloc, &values)?;
        let core = self.listed_core(listed, values)?;
        Ok(Judged { ty, core, uses })
    }

    /// The core of a constructor at so many parameters, and fields behind them.
    #[tactic(auto, using(crate::proofs::Parted::joined))]
    pub fn con_core(&self, con: ConId, params: usize, values: Vec<Term>) -> Result<Term, ElabError>
        ensures { MatchResult result
            (λ t. term t ≡ node (Form.con con.family con.place params)
            (side_by_side (terms values.items))) (λ e. e ≡ Memory) }
    {
        let (params, fields) = parted(values, params)?;
        Ok(Term::Con(con, params, fields))
    }

    /// The core of a pure action of one type, at its argument.
    #[tactic(auto, using(crate::proofs::Parted::joined))]
    pub fn pure_core(&self, kind: IoKind, values: Vec<Term>) -> Result<Term, ElabError>
        ensures { MatchResult result
            (λ t. term t ≡ Act (Action.pure (io kind)) 1 (side_by_side (terms values.items)))
            (λ e. e ≡ Memory) }
    {
        let (types, arguments) = parted(values, 1)?;
        Ok(Term::Act(pure_of(kind), types, arguments))
    }
}

/// So many values, and those behind them. An expected type in an environment in shape has as
/// many parameters as its family.
fn parted(values: Vec<Term>, count: usize) -> Result<(Vec<Term>, Vec<Term>), ElabError>
    ensures { MatchResult result
        (λ r. (length r.0.items ≡ count) × (r.0.items ++ r.1.items ≡ values.items))
        (λ e. e ≡ Memory) }
{
    let mut front = values;
    if front.len() < count {
        return Err(ElabError::Memory);
    }
    let back = front.split_off(count)?;
    Ok((front, back))
}

/// A type of Prim at its arguments.
fn type_core(alloc: Global, name: TypeName, values: Vec<Term>) -> Result<Term, ElabError>
    ensures { MatchResult result
        (λ t. term t ≡ node (Form.named (Named.prim_ty (prim_type name)))
        (side_by_side (terms values.items))) (λ e. e ≡ Memory) }
{
    match name {
        TypeName::Int => without_arguments(Term::IntTy, values),
        TypeName::Text => without_arguments(Term::StringTy, values),
        TypeName::Handle => without_arguments(Term::HandleTy, values),
        TypeName::Io(kind) => {
            let mut values = values;
            let Some(of) = values.pop() else {
                return Err(ElabError::Memory);
            };
            without_arguments(Term::IoTy(kind, Box::new(alloc, of)?), values)
        }
    }
}

/// This, where no arguments are left.
fn without_arguments(core: Term, values: Vec<Term>) -> Result<Term, ElabError>
    ensures { MatchResult result (λ t. (t ≡ core) × (values.items ≡ [])) (λ e. e ≡ Memory) }
{
    if values.is_empty() {
        Ok(core)
    } else {
        Err(ElabError::Memory)
    }
}

/// An action at its type arguments and its arguments.
#[tactic(auto, using(crate::proofs::Parted::joined))]
fn action_core(kind: ActKind, values: Vec<Term>) -> Result<Term, ElabError>
    ensures { MatchResult result
        (λ t. term t ≡ Act (action_of kind) (types_of (action_of kind))
        (side_by_side (terms values.items))) (λ e. e ≡ Memory) }
{
    let (types, arguments) = parted(values, type_arguments(kind))?;
    Ok(Term::Act(kind, types, arguments))
}

fn pure_of(kind: IoKind) -> ActKind
    ensures { action_of result ≡ Action.pure (io kind) }
{
    match kind {
        IoKind::Io => ActKind::Pure,
        IoKind::Io1 => ActKind::Pure1,
    }
}
