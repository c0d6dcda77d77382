//! Nodes of a case tree, and the node of a branch.

ghost use Rattle.std.specs.Prelude.{◌≡◌, ◌∷◌, IfOk, drop, length, map};
ghost use Rattle.qtt_split.specs.Branch.{moved_row as row_moved, moved_column as column_moved, reverted_labels as labels_reverted};
ghost use Rattle.qtt_split.specs.Columns.{column_of, row_of};
ghost use Rattle.qtt_split.specs.Labels.{labels_of, newest_labels};
ghost use Rattle.qtt_split.specs.Nodes.{node_of, labels_entered, node_in, again_in};
ghost use Rattle.qtt_split.specs.Plan.{with_rows};
ghost use Rattle.qtt_split.specs.Split.{reverted_at};
ghost use Rattle.qtt_split.specs.Substitution.{stands_for};
ghost use Rattle.qtt_term.specs.Judgement.{ext};
ghost use Rattle.qtt_term.specs.Telescopes.{tele};
ghost use Rattle.qtt_term.specs.View.{term};
ghost use Rattle.qtt_unify.specs.View.{binders};

use crate::branching::{Branching, standing};
use crate::columns::{Column, Row};
use crate::labels::label_at;
use crate::rebinding::bound_again;
use crate::reverting::{live, reverted};
use crate::sights::Seen;
use crate::substitution::Substitution;
use qtt_base::{MemoryError, Name};
use qtt_term::telescopes::{copied_binders, number};
use qtt_term::{ConId, Term, TermError};
use qtt_usage::mult::Mult;
use std::alloc::Global;
use std::cmp;

/// The clauses that are left in a context, whose variables stand the outermost first, with the
/// names for which these were bound, what was seen of each opened binder, and the goal.
#[derive(Drop)]
pub struct Node<'t> {
    pub context: Vec<(Mult, Term)>,
    pub labels: Vec<Option<&'t Name>>,
    pub seen: Vec<Seen>,
    pub goal: Term,
    pub rows: Vec<Row<'t>>,
}

/// A branch of a split: the variable is this constructor of fields that are bound, by names,
/// others are solved, and others are bound again.
#[derive(Drop)]
pub struct Entry<'s, 't> {
    pub fields: &'s [(Mult, Term)],
    pub names: &'s [Option<&'t Name>],
    pub variable: u32,
    pub con: ConId,
    pub solved: &'s [(u32, Term)],
    pub reverted: &'s [(Mult, u32)],
}

/// The node of a branch, and the binders of the variables that are bound again.
#[derive(Drop)]
pub struct Entered<'t> {
    pub node: Node<'t>,
    pub again: Vec<(Mult, Term)>,
}

/// One list of binders behind others.
fn extended(
    alloc: Global,
    context: &[(Mult, Term)],
    fields: &[(Mult, Term)],
    again: &[(Mult, Term)],
) -> Result<Vec<(Mult, Term)>, TermError>
    ensures { IfOk result
        (λ v. binders v.items ≡ ext (ext (binders context.now) (tele fields.now))
        (tele again.now)) }
{
    let mut extended = copied_binders(alloc, context)?;
    let mut fields = copied_binders(alloc, fields)?;
    let mut again = copied_binders(alloc, again)?;
    extended.append(&mut fields)?;
    extended.append(&mut again)?;
    Ok(extended)
}

/// The names of the variables that are bound again.
fn reverted_labels<'t>(
    alloc: Global,
    labels: &[Option<&'t Name>],
    reverted: &[(Mult, u32)],
) -> Result<Vec<Option<&'t Name>>, MemoryError>
    ensures { IfOk result
        (λ ls. labels_of ls.items ≡ labels_reverted (newest_labels labels.now) reverted.now) }
{
    let mut names = Vec::with_capacity(alloc, reverted.len())?;
    for bound in reverted {
        names.push(label_at(labels, bound.1))?;
    }
    Ok(names)
}

/// Columns where this stands for the node's variables.
fn moved_columns<'t>(
    alloc: Global,
    stands: &Substitution,
    columns: &[Column<'t>],
) -> Result<Vec<Column<'t>>, TermError>
    ensures { IfOk result
        (λ cs. map column_of cs.items ≡ map (column_moved (stands_for stands.now))
        (map column_of columns.now)) }
{
    let mut moved = Vec::with_capacity(alloc, columns.len())?;
    for column in columns {
        moved.push(Column {
            pattern: column.pattern,
            term: stands.apply(alloc, &column.term)?,
            ty: stands.apply(alloc, &column.ty)?,
        })?;
    }
    Ok(moved)
}

/// Rows where this stands for the node's variables.
fn moved_rows<'t>(
    alloc: Global,
    stands: &Substitution,
    rows: &[Row<'t>],
) -> Result<Vec<Row<'t>>, TermError>
    ensures { IfOk result
        (λ rs. map row_of rs.items ≡ map (row_moved (stands_for stands.now))
        (map row_of rows.now)) }
{
    let mut moved = Vec::with_capacity(alloc, rows.len())?;
    for row in rows {
        moved.push(Row {
            clause: row.clause,
            columns: moved_columns(alloc, stands, &row.columns)?,
        })?;
    }
    Ok(moved)
}

impl<'t> Node<'t> {
    /// The number of variables of the context.
    pub fn depth(&self) -> Result<u32, TermError>
        ensures { IfOk result (λ n. n ≡ length (binders self.now.context.items)) }
    {
        number(self.context.len())
    }

    /// The node where this clause decides, and those behind it begin at this place.
    pub fn decided(self, row: Row<'t>, behind: usize) -> Result<Node<'t>, MemoryError>
        ensures { IfOk result
            (λ n. node_of n ≡ with_rows (node_of self.entry)
            (row_of row.entry ∷ map row_of (drop behind self.entry.rows.items))) }
    {
        let mut rows = self.rows;
        let behind = cmp::min(behind, rows.len());
        rows.rotate_left(behind);
        rows.truncate(rows.len() - behind);
        rows.insert(0, row)?;
        Ok(Node {
            context: self.context,
            labels: self.labels,
            seen: self.seen,
            goal: self.goal,
            rows,
        })
    }

    /// The live variables that a split of one binds again, where these are solved.
    pub fn reverted(
        &self,
        alloc: Global,
        variable: u32,
        free: &[u32],
    ) -> Result<Vec<(Mult, u32)>, MemoryError>
        ensures { IfOk result
            (λ rs. rs.items ≡ reverted_at (node_of self.now) variable free.now) }
    {
        let mut stay = Vec::with_capacity(alloc, 1)?;
        stay.push(variable)?;
        stay.extend_from_slice(free)?;
        let live = live(alloc, self.depth()?, &self.seen)?;
        reverted(alloc, &self.context, &stay, &stay, &live)
    }

    /// The names of the branch's variables.
    fn labels_in(
        &self,
        alloc: Global,
        entry: &Entry<'_, 't>,
    ) -> Result<Vec<Option<&'t Name>>, MemoryError>
        ensures { IfOk result
            (λ ls. newest_labels ls.items ≡ labels_entered self.now entry.now) }
    {
        let mut labels = self.labels.to_vec(alloc)?;
        let mut again = reverted_labels(alloc, &self.labels, entry.reverted)?;
        labels.extend_from_slice(entry.names)?;
        labels.append(&mut again)?;
        Ok(labels)
    }

    /// The node of a branch, where the split variable is this term.
    pub fn branch(
        &self,
        alloc: Global,
        entry: &Entry<'_, 't>,
        value: &Term,
    ) -> Result<Entered<'t>, MemoryError>
        ensures node { IfOk result
            (λ e. node_of e.node ≡ node_in self.now entry.now (term value.now)) }
        ensures again { IfOk result
            (λ e. tele e.again.items ≡ again_in self.now entry.now (term value.now)) }
    {
        let fields = number(entry.fields.len())?;
        let stands = standing(alloc, entry.variable, value, entry.solved, fields)?;
        let rebound = bound_again(alloc, &self.context, entry.reverted, stands)?;
        let branching = Branching {
            variable: entry.variable,
            con: entry.con,
            fields,
            solved: entry.solved,
            reverted: entry.reverted,
            stands: &rebound.stands,
        };
        let node = Node {
            context: extended(alloc, &self.context, entry.fields, &rebound.again)?,
            labels: self.labels_in(alloc, entry)?,
            seen: branching.all_moved(alloc, &self.seen)?,
            goal: rebound.stands.apply(alloc, &self.goal)?,
            rows: moved_rows(alloc, &rebound.stands, &self.rows)?,
        };
        Ok(Entered {
            node,
            again: rebound.again,
        })
    }
}
