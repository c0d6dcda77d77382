//! The variable that is split.

ghost use Rattle.std.specs.Prelude.{◌≡◌, IfOk, length, option_map};
ghost use Rattle.qtt_split.specs.Calls.{Answers, group_of};
ghost use Rattle.qtt_split.specs.Columns.{examined_of};
ghost use Rattle.qtt_split.specs.Divisions.{division_of, family_seen};
ghost use Rattle.qtt_split.specs.Nodes.{node_of};
ghost use Rattle.qtt_split.specs.Split.{division as divides, family_of as family_in, family_with as family_at_args, match_mult as mult_of_match};
ghost use Rattle.qtt_term.specs.Contexts.{part};
ghost use Rattle.qtt_term.specs.Entries.{entries, env};
ghost use Rattle.qtt_term.specs.Infer.{usable as is_usable};
ghost use Rattle.qtt_term.specs.Signature.{family_at};
ghost use Rattle.qtt_term.specs.View.{term};
ghost use Rattle.qtt_unify.specs.View.{all_terms, binders, scrutinee as scrutinee_of};

use crate::columns::{Examined, is_same};
use crate::context::{mult_at, type_at};
use crate::labels::label_at;
use crate::node::Node;
use crate::planner::{Planner, Test, named_constructor, refused};
use crate::reports::copied_name;
use qtt_base::{GlobalId, MemoryError, Span};
use qtt_rules::{Detail, ElabError};
use qtt_term::copying::copy_all;
use qtt_term::{ConId, Converter, Globals, Sigma, Term};
use qtt_unify::Scrutinee;
use qtt_usage::mult::Mult;
use std::alloc::Global;
use std::cmp;

/// What is split: a variable of a node's context, at the multiplicity of the match, the family
/// that is its type at parameters and indices, and the indices as they were read.
#[derive(Drop)]
pub struct Division {
    pub span: Span,
    pub mult: Mult,
    pub family: GlobalId,
    pub variable: u32,
    pub params: Vec<Term>,
    pub indices: Vec<Term>,
    pub targets: Vec<Term>,
}

/// A family at parameters and indices.
#[derive(Drop)]
struct FamilyAt {
    family: GlobalId,
    params: Vec<Term>,
    indices: Vec<Term>,
}

/// In the run part what is declared 0 may not be split.
fn is_usable(sigma: Sigma, mult: Mult) -> bool
    ensures { result ≡ is_usable (part sigma) mult }
{
    match (sigma, mult) {
        (Sigma::Run, Mult::Zero) => false,
        _ => true,
    }
}

/// The multiplicity of a match.
fn match_mult(sigma: Sigma, mult: Mult) -> Mult
    ensures { result ≡ mult_of_match (part sigma) mult }
{
    match sigma {
        Sigma::Run => mult,
        Sigma::Erased => Mult::Zero,
    }
}

/// The number of a family's parameters.
pub fn param_count(globals: &Globals, family: GlobalId) -> usize
    ensures { result ≡ length (family_at (env (entries globals.now)) family).params }
{
    match globals.family(family) {
        Some(found) => found.params.len(),
        None => 0,
    }
}

/// A family at these arguments, so many of which are parameters.
fn family_with(
    alloc: Global,
    count: usize,
    family: GlobalId,
    arguments: &[Term],
) -> Result<FamilyAt, MemoryError>
    ensures { IfOk result
        (λ f. family_seen f ≡ family_at_args count family (all_terms arguments.now)) }
{
    let (params, indices) = arguments.split_at(cmp::min(count, arguments.len()));
    Ok(FamilyAt {
        family,
        params: copy_all(alloc, params)?,
        indices: copy_all(alloc, indices)?,
    })
}

/// The family of a head, where it has the constructor.
fn family_of(
    alloc: Global,
    globals: &Globals,
    con: Option<ConId>,
    head: &Term,
) -> Result<Option<FamilyAt>, MemoryError>
    ensures { IfOk result
        (λ f. option_map family_seen f ≡ family_in (env (entries globals.now)) con
        (term head.now)) }
{
    match (con, head) {
        (Some(con), Term::Fam(family, arguments)) => {
            if is_same(con.family, *family) {
                let count = param_count(globals, *family);
                Ok(Some(family_with(alloc, count, *family, arguments)?))
            } else {
                Ok(None)
            }
        }
        _ => Ok(None),
    }
}

impl Division {
    /// What is split, for unification.
    pub fn over<'d>(&'d self, node: &'d Node<'_>) -> Scrutinee<'d>
        ensures { scrutinee_of result ≡
            (division_of (binders node.now.context.items) self.now).over }
    {
        Scrutinee {
            context: &node.context,
            variable: self.variable,
            params: &self.params,
            indices: &self.indices,
            targets: &self.targets,
        }
    }
}

impl<'a, C: Converter> Planner<'a, C> {
    /// The variable of a constructor pattern as it is split.
    pub fn division(&self, node: &Node<'_>, x: &Examined<'_>) -> Result<Division, ElabError>
        ensures { Answers self.now
            (divides (group_of self.now) (node_of node.now) (examined_of x.now))
            (division_of (binders node.now.context.items)) result }
    {
        let alloc = self.unifier.alloc;
        let globals = self.unifier.globals;
        let depth = node.depth()?;
        let ty = type_at(alloc, &node.context, x.variable)?;
        let head = self.head(depth, &ty, x.span, Test::OfFamily)?;
        let con = named_constructor(globals, x.constructor);
        let Some(at) = family_of(alloc, globals, con, &head)? else {
            let kept = Detail::NotAFamily { depth, ty };
            return Err(refused(kept, x.span, Test::OfFamily));
        };
        let mult = mult_at(&node.context, x.variable);
        if !is_usable(self.sigma, mult) {
            let name = copied_name(label_at(&node.labels, x.variable))?;
            return Err(refused(Detail::ErasedMatch { name }, x.span, Test::Usable));
        }
        let targets = self.readings(depth, &at.indices, x.span, Test::Equations)?;
        Ok(Division {
            span: x.span,
            mult: match_mult(self.sigma, mult),
            family: at.family,
            variable: x.variable,
            params: at.params,
            indices: at.indices,
            targets,
        })
    }
}
