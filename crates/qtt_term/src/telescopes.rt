//! What families and constructors ask, as binders, and the types that stand under these.

ghost use Rattle.std.specs.Prelude.{◌≡◌, ◌+◌, ◌++◌, IfOk, map, length};
ghost use Rattle.qtt_term.specs.Substitution.{sub, lifts, above};
ghost use Rattle.qtt_term.specs.Signature.{index_binders as index_tele, self_of, con_sig, fam_sig};
ghost use Rattle.qtt_term.specs.Judgement.{erase_binds, scale, sub_binds, branch_type as type_of_branch};
ghost use Rattle.qtt_term.specs.View.{term, terms, side_by_side};
ghost use Rattle.qtt_term.specs.Items.{family as family_of, constructor as constructor_of};
ghost use Rattle.qtt_term.specs.Telescopes.{tele, filled};

use crate::copying::copy_all;
use crate::items::{Constructor, Family};
use crate::term::{ConId, Term, TermError};
use qtt_base::GlobalId;
use qtt_usage::mult::Mult;
use std::alloc::Global;

/// The variable so far above the newest ones.
fn index(newest: usize, place: usize) -> Result<u32, TermError>
    ensures { IfOk result (λ i. i ≡ newest + place) }
{
    match newest.checked_add(place) {
        Some(index) => number(index),
        None => Err(TermError::Memory),
    }
}

/// The same number where it has 32 bits.
pub fn number(count: usize) -> Result<u32, TermError>
    ensures { IfOk result (λ n. n ≡ count) }
{
    match u32::try_from(count) {
        Ok(number) => Ok(number),
        Err(_) => Err(TermError::Memory),
    }
}

/// So many variables above the newest ones, the outermost first.
fn variables(alloc: Global, newest: usize, count: usize) -> Result<Vec<Term>, TermError>
    ensures above { IfOk result (λ v. side_by_side (terms v.items) ≡ above newest count) }
    ensures len { IfOk result (λ v. length v.items ≡ count) }
{
    let mut variables = Vec::with_capacity(alloc, count)?;
    for place in 0..count {
        variables.push(Term::Var(index(newest, count - 1 - place)?))?;
    }
    Ok(variables)
}

/// One list behind the other.
pub fn joined(front: Vec<Term>, back: Vec<Term>) -> Result<Vec<Term>, TermError>
    ensures { IfOk result (λ v. v.items ≡ front.items ++ back.items) }
{
    let mut front = front;
    let mut back = back;
    front.append(&mut back)?;
    Ok(front)
}

/// Values for the same variables under so many binders more, which stand for themselves.
#[tactic(auto, using(crate::proofs::Binders::binders))]
fn under(alloc: Global, values: &[Term], depth: usize) -> Result<Vec<Term>, TermError>
    ensures { IfOk result (λ v. filled v.items ≡ lifts depth (filled values.now)) }
{
    let by = number(depth)?;
    let mut raised = Vec::with_capacity(alloc, values.len())?;
    for value in values {
        raised.push(value.shift(alloc, 0, by)?)?;
    }
    joined(raised, variables(alloc, 0, depth)?)
}

fn fill_all(alloc: Global, sources: &[Term], values: &[Term]) -> Result<Vec<Term>, TermError>
    ensures { IfOk result (λ v. terms v.items ≡ map (sub (filled values.now)) (terms sources.now)) }
{
    let mut all = Vec::with_capacity(alloc, sources.len())?;
    for source in sources {
        all.push(source.fill(alloc, values)?)?;
    }
    Ok(all)
}

/// Binders at so many times their multiplicities, at these values.
pub fn filled_binders(
    alloc: Global,
    by: Mult,
    binders: &[(Mult, Term)],
    values: &[Term],
) -> Result<Vec<(Mult, Term)>, TermError>
    ensures { IfOk result
        (λ v. tele v.items ≡ sub_binds (filled values.now) (scale by (tele binders.now))) }
{
    let mut all = Vec::with_capacity(alloc, binders.len())?;
    for (depth, (mult, ty)) in binders.iter().enumerate() {
        let inner = under(alloc, values, depth)?;
        all.push((by.mul(*mult), ty.fill(alloc, &inner)?))?;
    }
    Ok(all)
}

/// Binders that stand for the same.
pub fn copied_binders(
    alloc: Global,
    binders: &[(Mult, Term)],
) -> Result<Vec<(Mult, Term)>, TermError>
    ensures { IfOk result (λ v. tele v.items ≡ tele binders.now) }
{
    let mut copies = Vec::with_capacity(alloc, binders.len())?;
    for (mult, ty) in binders {
        copies.push((*mult, ty.copy(alloc)?))?;
    }
    Ok(copies)
}

/// Parameters, erased.
#[tactic(auto, using(crate::proofs::Binders::binders))]
pub fn parameter_binders(alloc: Global, family: &Family) -> Result<Vec<(Mult, Term)>, TermError>
    ensures { IfOk result (λ v. tele v.items ≡ erase_binds (family_of family.now).params) }
{
    let mut binders = Vec::with_capacity(alloc, family.params.len())?;
    for param in &family.params {
        binders.push((Mult::Zero, param.copy(alloc)?))?;
    }
    Ok(binders)
}

/// Indices as binders of this multiplicity behind other binders: each type stands under the
/// indices before it, which it does not mention.
fn push_indices(
    binders: Vec<(Mult, Term)>,
    alloc: Global,
    mult: Mult,
    indices: &[Term],
) -> Result<Vec<(Mult, Term)>, TermError>
    ensures { IfOk result
        (λ v. tele v.items ≡ tele binders.items ++ scale mult
        (index_tele 0 (terms indices.now))) }
{
    let mut binders = binders;
    for (place, ty) in indices.iter().enumerate() {
        let ty = ty.shift(alloc, 0, number(place)?)?;
        binders.push((mult.mul(Mult::Many), ty))?;
    }
    Ok(binders)
}

/// Parameters and indices, erased.
#[tactic(auto, using(crate::proofs::Binders::binders))]
pub fn family_binders(alloc: Global, family: &Family) -> Result<Vec<(Mult, Term)>, TermError>
    ensures { IfOk result
        (λ v. tele v.items ≡ erase_binds
        ((family_of family.now).params ++ index_tele 0 (family_of family.now).indices)) }
{
    let params = parameter_binders(alloc, family)?;
    push_indices(params, alloc, Mult::Zero, &family.indices)
}

/// The family under its parameters and indices, at these.
#[tactic(auto, using(crate::proofs::Binders::binders))]
pub fn self_type(alloc: Global, id: GlobalId, family: &Family) -> Result<Term, TermError>
    ensures { IfOk result (λ t. term t ≡ self_of id (family_of family.now)) }
{
    let params = variables(alloc, family.indices.len(), family.params.len())?;
    let indices = variables(alloc, 0, family.indices.len())?;
    Ok(Term::Fam(id, joined(params, indices)?))
}

/// The binders of a motive at these parameters: the indices and the scrutinee.
#[tactic(auto, using(crate::proofs::Binders::binders))]
pub fn motive_binders(
    alloc: Global,
    id: GlobalId,
    family: &Family,
    params: &[Term],
) -> Result<Vec<(Mult, Term)>, TermError>
    ensures { IfOk result
        (λ v. tele v.items ≡ sub_binds (filled params.now)
        (fam_sig id (family_of family.now)).motive) }
{
    let none = Vec::new(alloc);
    let mut binders = push_indices(none, alloc, Mult::One, &family.indices)?;
    binders.push((Mult::Many, self_type(alloc, id, family)?))?;
    filled_binders(alloc, Mult::One, &binders, params)
}

/// The type of a constructor under its family's parameters and its fields.
#[tactic(auto, using(crate::proofs::Binders::binders))]
pub fn result_type(
    alloc: Global,
    id: GlobalId,
    params: usize,
    constructor: &Constructor,
) -> Result<Term, TermError>
    ensures { IfOk result (λ t. term t ≡
        (con_sig id params 0 (constructor_of constructor.now)).result) }
{
    let front = variables(alloc, constructor.fields.len(), params)?;
    let back = copy_all(alloc, &constructor.result)?;
    Ok(Term::Fam(id, joined(front, back)?))
}

/// What a motive is taken at for the branch of a constructor, under the family's parameters and
/// the fields: the indices of its result and the constructor itself.
#[tactic(auto, using(crate::proofs::Binders::binders))]
fn targets(
    alloc: Global,
    con: ConId,
    params: usize,
    constructor: &Constructor,
) -> Result<Vec<Term>, TermError>
    ensures { IfOk result
        (λ v. side_by_side (terms v.items) ≡
        (con_sig con.family params con.place (constructor_of constructor.now)).targets) }
{
    let depth = constructor.fields.len();
    let params = variables(alloc, depth, params)?;
    let fields = variables(alloc, 0, depth)?;
    let mut targets = copy_all(alloc, &constructor.result)?;
    targets.push(Term::Con(con, params, fields))?;
    Ok(targets)
}

/// The type of the branch of a constructor of so many parameters, under its fields: the motive
/// at the indices of its result and at the constructor itself.
pub fn branch_type(
    alloc: Global,
    con: ConId,
    count: usize,
    constructor: &Constructor,
    params: &[Term],
    motive: &Term,
) -> Result<Term, TermError>
    ensures { IfOk result
        (λ t. term t ≡ type_of_branch (filled params.now)
        (con_sig con.family count con.place (constructor_of constructor.now))
        (term motive.now)) }
{
    let depth = constructor.fields.len();
    let inner = under(alloc, params, depth)?;
    let targets = targets(alloc, con, count, constructor)?;
    let values = fill_all(alloc, &targets, &inner)?;
    let raised = motive.shift(alloc, number(values.len())?, number(depth)?)?;
    raised.subst(alloc, &values)
}
