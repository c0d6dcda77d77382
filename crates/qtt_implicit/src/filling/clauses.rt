//! Clauses with what is filled in.

ghost use Rattle.std.specs.Prelude.{◌≡◌, [], reverse, unwrap_or, IfOk};
ghost use Rattle.qtt_implicit.specs.Columns.{columns_of};
ghost use Rattle.qtt_implicit.specs.Equations.{IsEquation};
ghost use Rattle.qtt_implicit.specs.Growing.{grown_clause};
ghost use Rattle.qtt_implicit.specs.Items.{clause_tree};
ghost use Rattle.qtt_implicit.specs.Known.{signature_named as named_in};
ghost use Rattle.qtt_implicit.specs.KnownItems.{known_of};
ghost use Rattle.qtt_implicit.specs.Meeting.{Meets};
ghost use Rattle.qtt_implicit.specs.Nodes.{node_tree};
ghost use Rattle.qtt_implicit.specs.Patterns.{all_marks};
ghost use Rattle.qtt_implicit.specs.Patterns.Columns.{told};
ghost use Rattle.qtt_implicit.specs.Filled.{no_sig, walk_clause, walk_item};
ghost use Rattle.qtt_implicit.specs.Shaping.{shape_row};
ghost use Rattle.qtt_implicit.specs.Signatures.{signature_of};

use super::columns::Columns;
use super::items::ClauseNode;
use super::left::Left;
use super::met::Met;
use super::patterns::unknown_tree;
use super::places::Places;
use super::shapes::{Shapes, push_all_marks};
use super::signature::Signature;
use super::stop::Stop;
use super::text_type::OpenSlots;
use super::trees::Node;
use super::walking::Walk;
use crate::forgetting::numbers::more;
use bumpalo::Bump;
use qtt_base::{MemoryError, Name};
use qtt_syntax::Mark;
use std::alloc::Global;

/// A clause whose local names count all its variables, the inserted ones too, and how many these
/// are.
#[derive(Clone, Copy)]
pub(crate) struct Equation<'a> {
    pub patterns: &'a Shapes<'a>,
    pub side: &'a Node<'a>,
    pub variables: u32,
}

/// How the variables of patterns came into the clause, the newest first.
fn newest_marks(alloc: Global, patterns: &Shapes<'_>) -> Result<Vec<Mark>, MemoryError>
    ensures { IfOk result (λ ms. ms.items ≡ reverse (all_marks (shape_row patterns.now))) }
{
    let mut marks = Vec::new(alloc);
    push_all_marks(patterns, &mut marks)?;
    marks.reverse();
    Ok(marks)
}

/// A clause among all its variables.
fn among_all<'a>(
    alloc: Global,
    arena: &'a Bump,
    patterns: &'a Shapes<'a>,
    side: &'a Node<'a>,
) -> Result<Equation<'a>, MemoryError>
    ensures { IfOk result (IsEquation (all_marks (shape_row patterns.now))
        (shape_row patterns.now) (node_tree side.now)) }
{
    let marks = newest_marks(alloc, patterns)?;
    let places = Places::among(alloc, &marks)?;
    Ok(Equation {
        patterns: places.shapes(arena, patterns)?,
        side: places.node(arena, 0, side)?,
        variables: more(0, marks.len())?,
    })
}

impl<'k, 'a> Walk<'k, 'a> {
    /// The columns of a clause of a definition of this type.
    fn clause_columns(&self, ty: &'a Node<'a>) -> Result<Columns<'a>, MemoryError>
        ensures { IfOk result (λ cs. columns_of cs ≡ told [] (node_tree ty.now)) }
    {
        Ok(Columns::Told {
            slots: OpenSlots::none(self.arena)?,
            chain: ty,
        })
    }

    /// The signature of the definition of a clause, or one of which nothing is known.
    fn clause_sig(&self, name: &Name) -> Result<Signature<'a>, MemoryError>
        ensures { IfOk result (λ s. signature_of s ≡ unwrap_or
            (named_in (known_of self.now.known.now) name.now) no_sig) }
    {
        match self.known.signature_named(name) {
            Some(sig) => Ok(sig),
            None => Ok(Signature {
                braces: 0,
                params: 0,
                ty: unknown_tree(self.arena)?,
            }),
        }
    }

    /// A clause of a definition with this signature, with the patterns that are put in.
    fn slotted_clause(
        &self,
        alloc: Global,
        sig: Signature<'a>,
        source: ClauseNode<'a>,
        left: &mut Left,
    ) -> Result<ClauseNode<'a>, Stop<'a>>
        ensures { Meets grown_clause result (walk_clause (known_of self.now.known.now)
            (signature_of sig.entry) source.entry.source.now.name
            (shape_row source.entry.patterns.now) (node_tree source.entry.side.now)
            source.entry.source.now.span left.old.nodes) left.new.nodes }
    {
        let equation = among_all(alloc, self.arena, source.patterns, source.side)?;
        let met = Met::none(self.arena, equation.variables)?;
        let columns = self.clause_columns(sig.ty)?;
        let seen = self.shapes(equation.patterns, met, columns, left)?;
        let locals = seen.met.all(self.arena)?;
        let side = self.node(equation.side, locals, left)?;
        Ok(ClauseNode {
            source: source.source,
            patterns: seen.shapes,
            side: side.tree,
        })
    }

    /// A clause.
    pub fn clause(
        &self,
        alloc: Global,
        source: ClauseNode<'a>,
        left: &mut Left,
    ) -> Result<ClauseNode<'a>, Stop<'a>>
        ensures { Meets grown_clause result (walk_item (known_of self.now.known.now)
            (clause_tree source.entry) left.old.nodes) left.new.nodes }
    {
        let text = source.source;
        let sig = self.clause_sig(&text.name)?;
        let patterns = self
            .known
            .clause_shapes(source.patterns, alloc, self.arena, sig.braces, text.span)?;
        let slotted = ClauseNode {
            source: text,
            patterns,
            side: source.side,
        };
        self.slotted_clause(alloc, sig, slotted, left)
    }
}
