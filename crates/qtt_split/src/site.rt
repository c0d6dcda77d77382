//! A split in a node, and its branches.

ghost use Rattle.std.specs.Prelude.{◌≡◌, IfOk, map};
ghost use Rattle.qtt_split.specs.Calls.{group_of};
ghost use Rattle.qtt_split.specs.Constructors.{constructor_entry, labels_of as labels_of_entry};
ghost use Rattle.qtt_split.specs.Labels.{labels_of};
ghost use Rattle.qtt_split.specs.Nodes.{node_of};
ghost use Rattle.qtt_split.specs.Sites.{site_of, signature_in};
ghost use Rattle.qtt_split.specs.Split.{solved_node, solved_again};
ghost use Rattle.qtt_term.specs.Entries.{entries};
ghost use Rattle.qtt_term.specs.Judgement.{branch_type as type_of_branch};
ghost use Rattle.qtt_term.specs.Substitution.{push, closed};
ghost use Rattle.qtt_term.specs.Telescopes.{tele};
ghost use Rattle.qtt_term.specs.View.{term};
ghost use Rattle.qtt_unify.specs.View.{all_terms, solution};

use crate::constructors::made;
use crate::division::{Division, param_count};
use crate::labels::field_labels;
use crate::node::{Entered, Entry, Node};
use crate::planner::{Planner, constructor_of};
use qtt_base::{MemoryError, Name};
use qtt_term::telescopes::{branch_type, filled_binders, number};
use qtt_term::{ConId, Constructor, Converter, Globals, Term};
use qtt_usage::mult::Mult;
use std::alloc::Global;

/// A split in a node, with its motive and its reverted variables.
#[derive(Drop)]
pub struct Site<'n, 't> {
    pub node: &'n Node<'t>,
    pub division: &'n Division,
    pub motive: Term,
    pub reverted: Vec<(Mult, u32)>,
}

/// The names of the fields of a constructor.
fn constructor_labels<'t>(
    alloc: Global,
    globals: &'t Globals,
    con: ConId,
) -> Result<Vec<Option<&'t Name>>, MemoryError>
    ensures { IfOk result
        (λ ls. labels_of ls.items ≡ labels_of_entry (constructor_entry (entries globals.now) con)) }
{
    match constructor_of(globals, con) {
        Some(constructor) => field_labels(alloc, &constructor.labels),
        None => Ok(Vec::new(alloc)),
    }
}

impl<'a, C: Converter> Planner<'a, C> {
    /// The branch of a constructor of a split, where these are solved.
    pub fn solved(
        &self,
        site: &Site<'_, 'a>,
        place: u32,
        constructor: &Constructor,
        solved: &[(u32, Term)],
    ) -> Result<Entered<'a>, MemoryError>
        ensures node { IfOk result
            (λ e. node_of e.node ≡ solved_node (site_of (group_of self.now) site.now) place
            (signature_in self.now site.now place constructor.now) (map solution solved.now)) }
        ensures again { IfOk result
            (λ e. tele e.again.items ≡ solved_again (site_of (group_of self.now) site.now) place
            (signature_in self.now site.now place constructor.now) (map solution solved.now)) }
    {
        let alloc = self.unifier.alloc;
        let division = site.division;
        let family = division.family;
        let con = ConId { family, place };
        let count = number(constructor.fields.len())?;
        let value = made(alloc, con, &division.params, count)?;
        let names = constructor_labels(alloc, self.unifier.globals, con)?;
        let fields = filled_binders(alloc, division.mult, &constructor.fields, &division.params)?;
        let entry = Entry {
            fields: &fields,
            names: &names,
            variable: division.variable,
            con,
            solved,
            reverted: &site.reverted,
        };
        site.node.branch(alloc, &entry, &value)
    }

    /// The type at which the branch of a constructor is a trap.
    pub fn excluded(
        &self,
        site: &Site<'_, 'a>,
        place: u32,
        constructor: &Constructor,
    ) -> Result<Term, MemoryError>
        ensures { IfOk result
            (λ t. term t ≡ type_of_branch
            (push (all_terms site.now.division.now.params.items) closed)
            (signature_in self.now site.now place constructor.now) (term site.now.motive)) }
    {
        let alloc = self.unifier.alloc;
        let family = site.division.family;
        let con = ConId { family, place };
        let count = param_count(self.unifier.globals, family);
        Ok(branch_type(
            alloc,
            con,
            count,
            constructor,
            &site.division.params,
            &site.motive,
        )?)
    }
}
