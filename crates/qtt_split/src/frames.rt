//! Cases on constructors that stand in the targets of a split.

ghost use Rattle.std.specs.Prelude.{◌≡◌, IfOk, map};
ghost use Rattle.qtt_term.specs.Entries.{entries, env};
ghost use Rattle.qtt_term.specs.Items.{constructor as constructor_seen};
ghost use Rattle.qtt_term.specs.Signature.{family_at};
ghost use Rattle.qtt_term.specs.Term.{ε};
ghost use Rattle.qtt_term.specs.View.{term, branches, side_by_side};
ghost use Rattle.qtt_unify.specs.View.{all_terms};
ghost use Rattle.qtt_split.specs.Motive.{scrutinee_type, fallback as fallback_at, index_branches, field_counts};
ghost use Rattle.qtt_split.specs.Ways.{aim_of, frame_of, way_of, inside, case_in, branch_in};

use crate::constructors::{made, raised};
use crate::planner::fields_at;
use crate::substitution::sum;
use crate::ways::Way;
use qtt_base::{GlobalId, ModuleId};
use qtt_term::telescopes::{joined, number};
use qtt_term::{Branch, Case, ConId, Constructor, Globals, Term, TermError};
use qtt_usage::mult::Mult;
use std::alloc::Global;

/// `Unit` among the items of the module `Prim`.
const UNIT: GlobalId = GlobalId {
    module: ModuleId(0),
    item: 3,
};

/// The family that is split, its parameters, and the level of the goal.
#[derive(Drop)]
pub struct Aim<'a> {
    pub globals: &'a Globals,
    pub family: GlobalId,
    pub params: &'a [Term],
    pub level: u32,
}

/// A constructor with its parameters in the node, and the way where it is the next target.
#[derive(Drop)]
pub struct Frame<'t> {
    pub con: ConId,
    pub params: &'t [Term],
    pub way: Way,
}

impl Frame<'_> {
    /// The way through the constructor's fields.
    pub fn inside(&self, alloc: Global, globals: &Globals) -> Result<Way, TermError>
        ensures { IfOk result
            (λ w. way_of w ≡ inside (entries globals.now) (frame_of self.now)) }
    {
        let count = number(fields_at(globals, self.con).len())?;
        let params = raised(alloc, self.way.depth, self.params)?;
        let con = made(alloc, self.con, &params, count)?;
        self.way.within_fields(alloc, count, con)
    }
}

/// `Unit` at level 0, and above it the Sort below.
fn fallback(alloc: Global, level: u32) -> Term
    ensures { term result ≡ fallback_at level }
{
    if level == 0 {
        Term::Fam(UNIT, Vec::new(alloc))
    } else {
        Term::Sort(level - 1)
    }
}

fn constructors_at(globals: &Globals, family: GlobalId) -> &[Constructor]
    ensures { map (λ c. constructor_seen c) result.now ≡
        (family_at (env (entries globals.now)) family).constructors }
{
    match globals.family(family) {
        Some(family) => &family.constructors,
        None => &[],
    }
}

/// The type of the scrutinee with these indices, under so many binders.
fn scrutinee_type(
    alloc: Global,
    aim: &Aim<'_>,
    depth: u32,
    indices: Vec<Term>,
) -> Result<Term, TermError>
    ensures { IfOk result
        (λ t. term t ≡ scrutinee_type aim.now.family (all_terms aim.now.params.now) depth
        (all_terms indices.items)) }
{
    let params = raised(alloc, depth, aim.params)?;
    Ok(Term::Fam(aim.family, joined(params, indices)?))
}

/// The branch of a constructor with so many fields: its own goes on with this body, and each other
/// is a function to the fallback.
fn branch_in(
    alloc: Global,
    aim: &Aim<'_>,
    frame: &Frame<'_>,
    body: &Term,
    place: u32,
    fields: u32,
) -> Result<Term, TermError>
    ensures { IfOk result
        (λ t. term t ≡ branch_in (aim_of aim.now) (frame_of frame.now) (term body.now) place
        fields) }
{
    let family = frame.con.family;
    let way = &frame.way;
    let params = raised(alloc, way.depth, frame.params)?;
    let con = made(alloc, ConId { family, place }, &params, fields)?;
    let depth = sum(fields, way.depth)?;
    let ty = scrutinee_type(alloc, aim, depth, way.indices_with(alloc, fields, con)?)?;
    let inner = if place == frame.con.place {
        body.copy(alloc)?
    } else {
        fallback(alloc, aim.level)
    };
    Term::lam(alloc, Mult::Zero, ty, inner)
}

/// The branches of all constructors of the index's family.
fn branches_in(
    alloc: Global,
    aim: &Aim<'_>,
    frame: &Frame<'_>,
    body: &Term,
) -> Result<Vec<Branch>, TermError>
    ensures counts { IfOk result
        (λ v. map (λ b. b.0) (branches v.items) ≡ field_counts
        (family_at (aim_of aim.now).env frame.now.con.family).constructors) }
    ensures parts { IfOk result
        (λ v. side_by_side (map (λ b. b.1) (branches v.items)) ≡ index_branches
        (aim_of aim.now) (frame_of frame.now).way frame.now.con.family
        (frame_of frame.now).params frame.now.con.place (λ n con w. term body.now) 0
        (family_at (aim_of aim.now).env frame.now.con.family).constructors ε) }
{
    let constructors = constructors_at(aim.globals, frame.con.family);
    let mut branches = Vec::with_capacity(alloc, constructors.len())?;
    for (place, constructor) in constructors.iter().enumerate() {
        let fields = number(constructor.fields.len())?;
        branches.push(Branch {
            fields,
            body: branch_in(alloc, aim, frame, body, number(place)?, fields)?,
        })?;
    }
    Ok(branches)
}

/// An erased Case on the constructor, whose own branch is this, applied to the scrutinee.
pub fn case_in(
    alloc: Global,
    aim: &Aim<'_>,
    frame: &Frame<'_>,
    body: &Term,
) -> Result<Term, TermError>
    ensures { IfOk result
        (λ t. term t ≡ case_in (aim_of aim.now) (frame_of frame.now) (term body.now)) }
{
    let way = &frame.way;
    let indices = way.indices_with(alloc, 1, Term::Var(0))?;
    let ty = scrutinee_type(alloc, aim, sum(1, way.depth)?, indices)?;
    let case = Case {
        mult: Mult::Zero,
        family: frame.con.family,
        params: raised(alloc, way.depth, frame.params)?,
        indices: 0,
        motive: Term::pi(alloc, Mult::Zero, ty, Term::Sort(aim.level))?,
        branches: branches_in(alloc, aim, frame, body)?,
        scrutinee: Term::Var(way.first_place()),
    };
    let function = Term::Case(Box::new(alloc, case)?);
    Term::app(alloc, Mult::Zero, function, Term::Var(way.scrutinee))
}
