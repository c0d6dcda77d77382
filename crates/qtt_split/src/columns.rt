//! The columns of a node's clauses.

ghost use Rattle.std.specs.Prelude.{◌≡◌, ◌+◌, ◌∷◌, [], IfOk, map, option_map};
ghost use Rattle.qtt_match.specs.Constructors.{names_constructor as names};
ghost use Rattle.qtt_split.specs.Columns.{column_of, row_of, settled_of, decision_of, examined_of};
ghost use Rattle.qtt_split.specs.Constructors.{fields_at as field_types};
ghost use Rattle.qtt_split.specs.Node.{Settled as SettledTo, column as column_with, settle as settled, settle_fields as fields_settled, settle_all as all_settled, decide as decision, examined as the_examined};
ghost use Rattle.qtt_syntax.specs.Tree.{shapes};
ghost use Rattle.qtt_syntax.specs.View.{shape_of};
ghost use Rattle.qtt_term.specs.Entries.{entries};
ghost use Rattle.qtt_term.specs.Globals.{families};
ghost use Rattle.qtt_term.specs.Telescopes.{filled};
ghost use Rattle.qtt_term.specs.Term.{same_id};
ghost use Rattle.qtt_term.specs.View.{term};
ghost use Rattle.qtt_unify.specs.View.{all_terms};

use crate::planner::{fields_at, named_constructor};
use qtt_base::{GlobalId, MemoryError, Span};
use qtt_syntax::{Named, Pattern};
use qtt_term::copying::copy_all;
use qtt_term::{ConId, Globals, Term};
use std::alloc::Global;

/// A pattern, and the term of the node's context for which it stands, with its type.
#[derive(Drop)]
pub struct Column<'t> {
    pub pattern: &'t Pattern,
    pub term: Term,
    pub ty: Term,
}

/// A clause that is left, by its number from 0.
#[derive(Drop)]
pub struct Row<'t> {
    pub clause: u32,
    pub columns: Vec<Column<'t>>,
}

/// What is left of columns once they are read, left to right.
#[derive(Drop)]
pub enum Settled<'t> {
    Columns(Vec<Column<'t>>),
    /// The clause does not fit.
    Goes,
    /// A constructor pattern at this place stands on a term that is neither a constructor nor a
    /// variable.
    Sticks(Span, Term),
}

/// Whether a name stands for this constructor.
fn names_constructor(globals: &Globals, name: &Named, con: ConId) -> bool
    ensures { result ≡ names (families globals.now) name.now con.family con.place }
{
    match named_constructor(globals, name) {
        Some(named) => is_same(con.family, named.family) && con.place == named.place,
        None => false,
    }
}

pub fn is_same(one: GlobalId, other: GlobalId) -> bool
    ensures { result ≡ same_id one other }
{
    one.module.0 == other.module.0 && one.item == other.item
}

/// The column itself.
fn kept<'t>(
    alloc: Global,
    pattern: &'t Pattern,
    stands: &Term,
    ty: &Term,
) -> Result<Settled<'t>, MemoryError>
    ensures { IfOk result
        (λ s. settled_of s ≡ SettledTo.columns
        (column_with (shape_of pattern.now) (term stands.now) (term ty.now) ∷ [])) }
{
    let column = Column {
        pattern,
        term: stands.copy(alloc)?,
        ty: ty.copy(alloc)?,
    };
    Ok(Settled::Columns(vec![in alloc; column]?))
}

/// What is left of a pattern that stands for a term of this type.
#[cycle(settle)]
pub fn settle<'t>(
    alloc: Global,
    globals: &Globals,
    pattern: &'t Pattern,
    stands: &Term,
    ty: &Term,
) -> Result<Settled<'t>, MemoryError>
    ensures { IfOk result
        (λ s. settled_of s ≡ settled (entries globals.now) (shape_of pattern.now)
        (term stands.now) (term ty.now)) }
{
    match pattern {
        Pattern::Constructor {
            head,
            arguments,
            span,
            ..
        } => match stands {
            Term::Var(_) => kept(alloc, pattern, stands, ty),
            Term::Con(con, params, fields) => {
                if names_constructor(globals, head, *con) {
                    settle_fields(alloc, globals, arguments, *con, params, fields)
                } else {
                    Ok(Settled::Goes)
                }
            }
            _ => Ok(Settled::Sticks(*span, stands.copy(alloc)?)),
        },
        _ => kept(alloc, pattern, stands, ty),
    }
}

/// What is left of the patterns of a constructor's fields.
#[cycle(settle)]
fn settle_fields<'t>(
    alloc: Global,
    globals: &Globals,
    patterns: &'t [Pattern],
    con: ConId,
    params: &[Term],
    fields: &[Term],
) -> Result<Settled<'t>, MemoryError>
    ensures { IfOk result
        (λ s. settled_of s ≡ fields_settled (entries globals.now)
        (shapes (map shape_of patterns.now)) (filled params.now)
        (field_types (entries globals.now) con.family con.place) (all_terms fields.now)) }
{
    let types = fields_at(globals, con);
    let mut values = copy_all(alloc, params)?;
    let mut columns = Vec::new(alloc);
    for (place, pattern) in patterns.iter().enumerate() {
        if place >= types.len() || place >= fields.len() {
            return Ok(Settled::Goes);
        }
        let ty = types[place].1.fill(alloc, &values)?;
        let field = &fields[place];
        match settle(alloc, globals, pattern, field, &ty)? {
            Settled::Columns(mut more) => columns.append(&mut more)?,
            Settled::Goes => return Ok(Settled::Goes),
            Settled::Sticks(span, term) => return Ok(Settled::Sticks(span, term)),
        }
        values.push(field.copy(alloc)?)?;
    }
    if patterns.len() == types.len() && patterns.len() == fields.len() {
        Ok(Settled::Columns(columns))
    } else {
        Ok(Settled::Goes)
    }
}

/// What is left of columns.
pub fn settle_all<'t>(
    alloc: Global,
    globals: &Globals,
    columns: &[Column<'t>],
) -> Result<Settled<'t>, MemoryError>
    ensures { IfOk result
        (λ s. settled_of s ≡ all_settled (entries globals.now) (map column_of columns.now)) }
{
    let mut left = Vec::new(alloc);
    for column in columns {
        match settle(alloc, globals, column.pattern, &column.term, &column.ty)? {
            Settled::Columns(mut more) => left.append(&mut more)?,
            Settled::Goes => return Ok(Settled::Goes),
            Settled::Sticks(span, term) => return Ok(Settled::Sticks(span, term)),
        }
    }
    Ok(Settled::Columns(left))
}

/// The clause that decides at a node.
#[derive(Drop)]
pub enum Decision<'t> {
    NoneLeft,
    StuckOn(Span, Term),
    /// The first that fits so far, with its columns read, and where those behind it begin.
    Decides(Row<'t>, usize),
}

/// The clause that decides among those that are left.
pub fn decide<'t>(
    alloc: Global,
    globals: &Globals,
    rows: &[Row<'t>],
) -> Result<Decision<'t>, MemoryError>
    ensures { IfOk result
        (λ d. decision_of rows.now d ≡ decision (entries globals.now) (map row_of rows.now)) }
{
    for (place, row) in rows.iter().enumerate() {
        match settle_all(alloc, globals, &row.columns)? {
            Settled::Columns(columns) => {
                let clause = row.clause;
                return Ok(Decision::Decides(Row { clause, columns }, place + 1));
            }
            Settled::Goes => {}
            Settled::Sticks(span, term) => return Ok(Decision::StuckOn(span, term)),
        }
    }
    Ok(Decision::NoneLeft)
}

/// The constructor pattern whose variable is split.
#[derive(Drop)]
pub struct Examined<'t> {
    pub variable: u32,
    pub constructor: &'t Named,
    pub span: Span,
}

/// The first constructor pattern on a variable.
pub fn first_examined<'t>(columns: &[Column<'t>]) -> Option<Examined<'t>>
    ensures { option_map examined_of result ≡ the_examined (map column_of columns.now) }
{
    for column in columns {
        if let (Pattern::Constructor { head, span, .. }, Term::Var(variable)) = (
            column.pattern,
            &column.term,
        ) {
            return Some(Examined {
                variable: *variable,
                constructor: head,
                span: *span,
            });
        }
    }
    None
}
