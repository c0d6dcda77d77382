//! Patterns with the targets of their names.

ghost use Rattle.std.specs.Prelude.{◌≡◌, ◌++◌, ◌∷◌, [], map, fold, OnOk};
ghost use Rattle.std.specs.List.{flat_map};
ghost use Rattle.qtt_syntax.specs.View.{shape_of};
ghost use Rattle.qtt_names.specs.InTurn.{in_turn};
ghost use Rattle.qtt_names.specs.Patterns.{first_of, variables as variables_in, behind_shape, filled_shape};
ghost use Rattle.qtt_names.specs.View.{Gives, names_of, shape_list, unchanged};

use crate::errors::NamesError;
use crate::target::Resolver;
use indexmap::IndexSet;
use qtt_base::{MemoryError, Name, Span};
use qtt_syntax::Pattern;

/// Puts the variables of a pattern behind others.
#[cycle(variables)]
#[tactic(auto, using(crate::proofs::Shapes::shape_parts))]
fn push_variables(variables: &mut Vec<Name>, source: &Pattern) -> Result<(), MemoryError>
    ensures { OnOk result (variables.new.items ≡ variables.old.items ++ variables_in
        (shape_of source.now)) }
{
    match source {
        Pattern::Variable { name, .. } => {
            variables.push(name.copy()?)?;
            Ok(())
        }
        Pattern::Wildcard { .. } | Pattern::Dot { .. } => Ok(()),
        Pattern::Constructor { arguments, .. } => push_all_variables(variables, arguments),
    }
}

/// Puts the variables of patterns behind others.
#[cycle(variables)]
#[tactic(auto, using(crate::proofs::Shapes::shape_parts))]
pub(crate) fn push_all_variables(
    variables: &mut Vec<Name>,
    source: &[Pattern],
) -> Result<(), MemoryError>
    ensures { OnOk result (variables.new.items ≡ variables.old.items ++ flat_map variables_in
        (map shape_of source.now)) }
{
    for pattern in source {
        push_variables(variables, pattern)?;
    }
    Ok(())
}

impl Resolver<'_> {
    /// Notes a name that none of the known ones is.
    pub fn note(
        &self,
        known: &mut IndexSet<Name>,
        name: &Name,
        span: Span,
    ) -> Result<(), NamesError>
        ensures gives { Gives unchanged result (first_of known.old.keys name.now span) }
        ensures noted { OnOk result (known.new.keys ≡ known.old.keys ++ name.now ∷ []) }
    {
        if known.insert(name.copy()?)? {
            Ok(())
        } else {
            Err(NamesError::duplicate(self.alloc, name, span))
        }
    }

    /// A pattern, where `variables` are all those of its clause, and `before` those of the
    /// patterns before it.
    #[cycle(patterns)]
    #[tactic(auto, using(crate::proofs::Shapes::shape_parts))]
    fn pattern(
        &self,
        variables: &mut Vec<Name>,
        before: &mut IndexSet<Name>,
        source: &Pattern,
    ) -> Result<Pattern, NamesError>
        ensures gives { Gives shape_of result
            (filled_shape (names_of self.now) variables.old.items before.old.keys
            (shape_of source.now)) }
        ensures kept { OnOk result (variables.new.items ≡ variables.old.items) }
        ensures behind { OnOk result
            (before.new.keys ≡ behind_shape before.old.keys (shape_of source.now)) }
    {
        match source {
            Pattern::Variable { mark, name, span } => {
                self.note(before, name, *span)?;
                Ok(Pattern::Variable {
                    mark: *mark,
                    name: name.copy()?,
                    span: *span,
                })
            }
            Pattern::Wildcard { mark, span } => Ok(Pattern::Wildcard {
                mark: *mark,
                span: *span,
            }),
            Pattern::Constructor {
                mark,
                head,
                arguments,
                span,
            } => {
                let head = self.look_up(&[], head)?;
                let arguments = self.patterns(variables, before, arguments)?;
                Ok(Pattern::Constructor {
                    mark: *mark,
                    head,
                    arguments,
                    span: *span,
                })
            }
            Pattern::Dot { mark, value, span } => Ok(Pattern::Dot {
                mark: *mark,
                value: self.expr(variables, value)?,
                span: *span,
            }),
        }
    }

    /// Patterns, from left to right.
    #[cycle(patterns)]
    #[tactic(auto, using(crate::proofs::Shapes::shape_parts))]
    pub fn patterns(
        &self,
        variables: &mut Vec<Name>,
        before: &mut IndexSet<Name>,
        source: &[Pattern],
    ) -> Result<Vec<Pattern>, NamesError>
        ensures gives { Gives shape_list result
            (in_turn (filled_shape (names_of self.now) variables.old.items) behind_shape
            before.old.keys (map shape_of source.now)) }
        ensures kept { OnOk result (variables.new.items ≡ variables.old.items) }
        ensures behind { OnOk result
            (before.new.keys ≡ fold behind_shape before.old.keys (map shape_of source.now)) }
    {
        let mut done = Vec::with_capacity(self.alloc, source.len())?;
        for pattern in source {
            done.push(self.pattern(variables, before, pattern)?)?;
        }
        Ok(done)
    }
}
