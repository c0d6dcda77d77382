//! Questions about indices.

ghost use Rattle.std.specs.Prelude.{◌≡◌, ◌+◌, ◌&&◌, IfOk, eqb, length, option_map};
ghost use Rattle.qtt_term.specs.Term.{ε, ◌▸◌, same_id};
ghost use Rattle.qtt_term.specs.Globals.{env as env_of};
ghost use Rattle.qtt_term.specs.Premises.{head_of, reading_of};
ghost use Rattle.qtt_term.specs.View.{term};
ghost use Rattle.qtt_unify.specs.Targets.{readings, unsolvable};
ghost use Rattle.qtt_unify.specs.Deletion.{of_points, deletion};
ghost use Rattle.qtt_unify.specs.View.{all_terms, binders, scrutinee as scrutinee_of, deletion as deletion_of, Answers};

use crate::error::UnifyError;
use crate::reading::read;
use crate::targets::{Scrutinee, is_solvable};
use qtt_base::{GlobalId, MemoryError, ModuleId};
use qtt_term::{Answer, ConId, Converter, Globals, Head, Question, Term};
use qtt_usage::mult::Mult;
use std::alloc::Global;

/// The number of `Eq` among the items of the module `Prim`.
const EQ: GlobalId = GlobalId {
    module: ModuleId(0),
    item: 13,
};

/// What unification is given: an answerer of questions with its contractions for each, and the
/// environment.
#[derive(Drop)]
pub struct Unifier<'a, C> {
    pub alloc: Global,
    pub converter: &'a C,
    pub budget: u64,
    pub globals: &'a Globals,
}

/// A proof that an index equals the point, at this type.
#[derive(Drop)]
pub struct Deletion<'a> {
    pub ty: &'a Term,
    pub point: &'a Term,
}

fn same_id(one: GlobalId, other: GlobalId) -> bool
    ensures { result ≡ same_id one other }
{
    one.module.0 == other.module.0 && one.item == other.item
}

/// Whether two constructors are the same one of the same family.
pub fn same_constructor(one: ConId, other: ConId) -> bool
    ensures { result ≡ (same_id one.family other.family && eqb one.place other.place) }
{
    same_id(one.family, other.family) && one.place == other.place
}

/// The number of variables under further ones.
pub fn deeper(depth: u32, more: u32) -> Result<u32, MemoryError>
    ensures { IfOk result (λ n. n ≡ depth + more) }
{
    match depth.checked_add(more) {
        Some(deeper) => Ok(deeper),
        None => Err(MemoryError),
    }
}

/// The number of variables of a context.
pub fn depth_of(context: &[(Mult, Term)]) -> Result<u32, MemoryError>
    ensures { IfOk result (λ n. n ≡ length (binders context.now)) }
{
    match u32::try_from(context.len()) {
        Ok(depth) => Ok(depth),
        Err(_) => Err(MemoryError),
    }
}

impl<'a, C: Converter> Unifier<'a, C> {
    /// The head of a term under so many variables.
    #[tactic(auto, unfolding(qtt_term::specs::Ask::within, qtt_term::specs::Ask::on_head))]
    pub fn head(&self, depth: u32, t: &Term) -> Result<Term, UnifyError>
        ensures { Answers self.now (head_of tt depth (term t.now)) term result }
    {
        match self
            .converter
            .head(self.alloc, self.budget, self.globals, t)?
        {
            Head::Done(head, _) => Ok(head),
            Head::Spent => Err(UnifyError::Spent(Question::Head(depth, t.copy(self.alloc)?))),
        }
    }

    /// The reading of an index under so many variables.
    #[tactic(auto, unfolding(qtt_term::specs::Ask::within, qtt_term::specs::Ask::on_head))]
    pub fn reading(&self, depth: u32, t: &Term) -> Result<Term, UnifyError>
        ensures { Answers self.now (reading_of tt depth (term t.now)) term result }
    {
        match read(self.alloc, self.converter, self.budget, self.globals, t)? {
            Some(reading) => Ok(reading),
            None => Err(UnifyError::Spent(Question::Head(depth, t.copy(self.alloc)?))),
        }
    }

    /// The readings of indices under so many variables.
    pub fn readings(&self, depth: u32, indices: &[Term]) -> Result<Vec<Term>, UnifyError>
        ensures { Answers self.now (readings tt depth (all_terms indices.now))
            (λ v. all_terms v.items) result }
    {
        let mut targets = Vec::with_capacity(self.alloc, indices.len())?;
        for index in indices {
            targets.push(self.reading(depth, index)?)?;
        }
        Ok(targets)
    }

    /// The first result whose target is not solvable, and the index beside it.
    pub fn unsolvable<'t>(
        &self,
        scrutinee: &Scrutinee<'t>,
        results: &'t [Term],
    ) -> Result<Option<(&'t Term, &'t Term)>, MemoryError>
        ensures { IfOk result
            (λ o. option_map (λ e. (term e.0.now, term e.1.now)) o ≡
            unsolvable (env_of self.now.globals.now) (scrutinee_of scrutinee.now)
            (all_terms scrutinee.now.targets.now) (all_terms scrutinee.now.indices.now)
            (all_terms results.now)) }
    {
        for (place, target) in scrutinee.targets.iter().enumerate() {
            if place >= scrutinee.indices.len() || place >= results.len() {
                return Ok(None);
            }
            if !is_solvable(target, scrutinee, self.globals)? {
                return Ok(Some((&results[place], &scrutinee.indices[place])));
            }
        }
        Ok(None)
    }

    /// Whether a proof of `Eq` that is stuck may be deleted: its index and its point compare Equal.
    #[tactic(auto, unfolding(qtt_term::specs::Ask::within, crate::specs::Deletion::deletion))]
    pub fn deletion<'t>(
        &self,
        family: GlobalId,
        scrutinee: &Scrutinee<'t>,
    ) -> Result<Option<Deletion<'t>>, UnifyError>
        ensures { Answers self.now (deletion tt family (scrutinee_of scrutinee.now))
            (option_map deletion_of) result }
    {
        if !same_id(family, EQ) {
            return Ok(None);
        }
        let params = scrutinee.params;
        let indices = scrutinee.indices;
        if params.len() != 2 || indices.len() != 1 {
            return Ok(None);
        }
        self.compared(scrutinee.context, &params[0], &params[1], &indices[0])
    }

    /// Whether a proof at this type, point and index may be deleted.
    #[tactic(auto, unfolding(qtt_term::specs::Ask::within, qtt_term::specs::Ask::on_answer))]
    fn compared<'t>(
        &self,
        context: &[(Mult, Term)],
        ty: &'t Term,
        point: &'t Term,
        index: &Term,
    ) -> Result<Option<Deletion<'t>>, UnifyError>
        ensures { Answers self.now (of_points tt (length (binders context.now))
            (term ty.now ▸ term point.now ▸ ε) (term index.now ▸ ε)) (option_map deletion_of)
            result }
    {
        let depth = depth_of(context)?;
        match self
            .converter
            .compare(self.alloc, self.budget, self.globals, index, point)?
        {
            Answer::Equal => Ok(Some(Deletion { ty, point })),
            Answer::Different(_) => Ok(None),
            Answer::Spent => Err(UnifyError::Spent(Question::Compare(
                depth,
                index.copy(self.alloc)?,
                point.copy(self.alloc)?,
            ))),
        }
    }
}
