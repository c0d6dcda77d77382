//! What is in shape over an environment: ids name its items, and lists have their tables'
//! lengths.

ghost use Rattle.std.specs.Prelude.{◌≡◌, ◌↔◌, ◌+◌, ◌&&◌, IsTrue, map, length, eqb};
ghost use Rattle.std.specs.List.{list_all};
ghost use Rattle.qtt_term.specs.Globals.{env as env_of};
ghost use Rattle.qtt_term.specs.Question.{same_counts};
ghost use Rattle.qtt_term.specs.Shape.{InShape, ctx_in_shape, form_in_shape, in_shape as shape_of, all_in_shape as shapes_of};
ghost use Rattle.qtt_term.specs.Signature.{prim_signature, act_signature, type_arguments};
ghost use Rattle.qtt_term.specs.Term.{Form};
ghost use Rattle.qtt_usage.specs.Mult.{𝟘};
ghost use Rattle.qtt_term.specs.View.{term, terms, case, delete, branch, branches as branches_of, action, side_by_side};

use crate::context::Ctx;
use crate::globals::Globals;
use crate::items::{Constructor, Family};
use crate::term::{Branch, Case, ConId, Delete, Term};
use qtt_base::GlobalId;
use qtt_prims::{ActKind, Primitive};
use qtt_usage::mult::Mult;

impl Term {
    /// Whether each id names an item of the environment, as its form asks, and each list has its
    /// table's length.
    pub fn is_in_shape(&self, env: &Globals) -> bool
        ensures { IsTrue result ↔ InShape (env_of env.now) (term self.now) }
    {
        in_shape(env, self)
    }
}

impl Ctx {
    /// Whether the types of the variables, and the terms and types that names stand for, are in
    /// shape.
    pub fn is_in_shape(&self, env: &Globals) -> bool
        ensures { result ≡ ctx_in_shape (env_of env.now) self.now }
    {
        let vars = vars_in_shape(env, &self.vars);
        let names = names_in_shape(env, &self.names);
        vars & names
    }
}

pub(crate) fn vars_in_shape(env: &Globals, vars: &[(Mult, Term)]) -> bool
    ensures { result ≡ list_all (λ v. shape_of (env_of env.now) (term v.1)) vars.now }
{
    for (_mult, ty) in vars {
        if !in_shape(env, ty) {
            return false;
        }
    }
    true
}

fn names_in_shape(env: &Globals, names: &[(Term, Term)]) -> bool
    ensures { result ≡ list_all
        (λ n. shape_of (env_of env.now) (term n.0) && shape_of (env_of env.now) (term n.1))
        names.now }
{
    for (value, ty) in names {
        let both = in_shape(env, value) & in_shape(env, ty);
        if !both {
            return false;
        }
    }
    true
}

#[cycle(in_shape)]
#[tactic(auto, using(crate::proofs::Shaped::shaped))]
pub(crate) fn in_shape(env: &Globals, source: &Term) -> bool
    ensures { result ≡ shape_of (env_of env.now) (term source.now) }
{
    match source {
        Term::Pi(_, a, b) => in_shape(env, a) & in_shape(env, b),
        Term::Lam(_, a, b) => in_shape(env, a) & in_shape(env, b),
        Term::App(_, f, a) => in_shape(env, f) & in_shape(env, a),
        Term::Fam(id, args) => has_family(env, *id, args.len()) && all_in_shape(env, args),
        Term::Con(con, params, fields) => {
            has_constructor(env, *con, params.len(), fields.len())
                && all_in_shape(env, params)
                && all_in_shape(env, fields)
        }
        Term::Case(case) => case_in_shape(env, case),
        Term::Delete(delete) => delete_in_shape(env, delete),
        Term::Def(id) => env.definition(*id).is_some(),
        Term::IoTy(_, a) | Term::Trap(a) => in_shape(env, a),
        Term::Prim(prim, args) => args.len() == arity(*prim) && all_in_shape(env, args),
        Term::Act(kind, types, args) => {
            has_arguments(*kind, types.len(), args.len())
                && all_in_shape(env, types)
                && all_in_shape(env, args)
        }
        _ => true,
    }
}

#[cycle(in_shape)]
#[tactic(auto, using(crate::proofs::Shaped::shaped))]
pub(crate) fn all_in_shape(env: &Globals, sources: &[Term]) -> bool
    ensures { result ≡ shapes_of (env_of env.now) (side_by_side (terms sources.now)) }
{
    for source in sources {
        if !in_shape(env, source) {
            return false;
        }
    }
    true
}

#[cycle(in_shape)]
#[tactic(auto, using(crate::proofs::Shaped::shaped))]
fn branches_in_shape(env: &Globals, sources: &[Branch]) -> bool
    ensures { result ≡ shapes_of (env_of env.now)
        (side_by_side (map (λ b. b.1) (branches_of sources.now))) }
{
    for source in sources {
        if !in_shape(env, &source.body) {
            return false;
        }
    }
    true
}

#[cycle(in_shape)]
#[tactic(auto, using(crate::proofs::Shaped::shaped))]
fn case_in_shape(env: &Globals, source: &Case) -> bool
    ensures { result ≡ shape_of (env_of env.now) (case source.now) }
{
    let count = source.params.len();
    let shaped = has_case(env, source.family, count, source.indices, &source.branches);
    let params = all_in_shape(env, &source.params);
    let motive = in_shape(env, &source.motive);
    let branches = branches_in_shape(env, &source.branches);
    let scrutinee = in_shape(env, &source.scrutinee);
    shaped & (params & (motive & (branches & scrutinee)))
}

#[cycle(in_shape)]
#[tactic(auto, using(crate::proofs::Shaped::shaped))]
fn delete_in_shape(env: &Globals, source: &Delete) -> bool
    ensures { result ≡ shape_of (env_of env.now) (delete source.now) }
{
    in_shape(env, &source.ty)
        && in_shape(env, &source.point)
        && in_shape(env, &source.motive)
        && in_shape(env, &source.branch)
        && in_shape(env, &source.scrutinee)
}

/// Whether this family is there, with so many parameters and indices.
#[tactic(auto, using(crate::proofs::Shaped::shaped))]
fn has_family(env: &Globals, id: GlobalId, count: usize) -> bool
    ensures { result ≡ form_in_shape (env_of env.now) (Form.fam id) count }
{
    match env.family(id) {
        Some(family) => count == family.params.len() + family.indices.len(),
        None => false,
    }
}

/// Whether this constructor is there, with so many parameters of its family and so many fields.
#[tactic(auto, using(crate::proofs::Shaped::shaped))]
fn has_constructor(env: &Globals, con: ConId, params: usize, fields: usize) -> bool
    ensures { result ≡ form_in_shape (env_of env.now) (Form.con con.family con.place params)
        (params + fields) }
{
    let Some(family) = env.family(con.family) else {
        return false;
    };
    match family.constructors.get(con.place as usize) {
        Some(constructor) => params == family.params.len() && fields == constructor.fields.len(),
        None => false,
    }
}

/// Whether the family of a Case of any multiplicity is there, with its numbers of parameters,
/// indices, constructors and their fields.
fn has_case(env: &Globals, id: GlobalId, params: usize, indices: u32, branches: &[Branch]) -> bool
    ensures { result ≡ form_in_shape (env_of env.now)
        (Form.case 𝟘 id params (indices + 1) (map (λ b. b.0) (branches_of branches.now)))
        (params + (2 + length branches.now)) }
{
    match env.family(id) {
        Some(family) => is_case_of(family, params, indices, branches),
        None => false,
    }
}

/// Whether a Case of a family has so many parameters and indices, and these branches.
fn is_case_of(family: &Family, params: usize, indices: u32, branches: &[Branch]) -> bool
    ensures { result ≡ (eqb params (length family.now.params.items) &&
        (eqb indices (length family.now.indices.items) && same_counts
        (map (λ b. b.0) (branches_of branches.now))
        (map (λ c. length c.fields.items) family.now.constructors.items))) }
{
    let counts = counts_agree(branches, &family.constructors);
    (params == family.params.len()) & ((indices as usize == family.indices.len()) & counts)
}

/// Whether there is one branch for each constructor, under as many binders as the constructor
/// has fields.
pub fn counts_agree(branches: &[Branch], constructors: &[Constructor]) -> bool
    ensures { result ≡ same_counts (map (λ b. b.0) (branches_of branches.now))
        (map (λ c. length c.fields.items) constructors.now) }
{
    if branches.len() != constructors.len() {
        return false;
    }
    for (place, branch) in branches.iter().enumerate() {
        if fields(branch) != constructors[place].fields.len() {
            return false;
        }
    }
    true
}

/// How many fields a branch stands under.
fn fields(source: &Branch) -> usize
    ensures { result ≡ (branch source.now).0 }
{
    source.fields as usize
}

/// How many arguments a primitive takes.
fn arity(prim: Primitive) -> usize
    ensures { result ≡ length (prim_signature prim).arguments }
{
    match prim {
        Primitive::ShowInt => 1,
        _ => 2,
    }
}

/// Whether an action takes so many type arguments and so many others.
fn has_arguments(kind: ActKind, types: usize, args: usize) -> bool
    ensures { result ≡ (eqb types (type_arguments (action kind)) && eqb (types + args)
        (length (act_signature (action kind)).arguments)) }
{
    match kind {
        ActKind::Pure | ActKind::Pure1 => types == 1 && args == 1,
        ActKind::PutLine | ActKind::Open | ActKind::Close => types == 0 && args == 1,
        ActKind::GetLine => types == 0 && args == 0,
        ActKind::Write => types == 0 && args == 2,
        ActKind::BindIoIo | ActKind::BindIoIo1 | ActKind::BindIo1Io | ActKind::BindIo1Io1 => {
            types == 2 && args == 2
        }
    }
}
