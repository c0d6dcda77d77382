//! Patterns without what was filled in.

ghost use Rattle.std.specs.Prelude.{◌≡◌, ◌++◌, map, flat_map, filter_map, option_map, IfOk, OnOk};
ghost use Rattle.qtt_syntax.specs.View.{shape_of};
ghost use Rattle.qtt_implicit.specs.Patterns.{marks as marks_in};
ghost use Rattle.qtt_implicit.specs.Forgetting.{number_of, shape_without};

use super::numbers::Numbers;
use qtt_base::MemoryError;
use qtt_syntax::{Mark, Named, Pattern};
use std::alloc::Global;

/// Puts how the variables of a pattern came into the text behind others.
#[cycle(marks)]
#[tactic(auto, using(crate::proofs::ForgottenParts::shape_parts))]
fn push_marks(marks: &mut Vec<Mark>, source: &Pattern) -> Result<(), MemoryError>
    ensures { OnOk result (marks.new.items ≡ marks.old.items ++ marks_in (shape_of source.now)) }
{
    match source {
        Pattern::Variable { mark, .. } => {
            marks.push(*mark)?;
            Ok(())
        }
        Pattern::Wildcard { .. } | Pattern::Dot { .. } => Ok(()),
        Pattern::Constructor { arguments, .. } => push_all_marks(marks, arguments),
    }
}

/// Puts how the variables of patterns came into the text behind others.
#[cycle(marks)]
#[tactic(auto, using(crate::proofs::ForgottenParts::shape_parts))]
pub fn push_all_marks(marks: &mut Vec<Mark>, source: &[Pattern]) -> Result<(), MemoryError>
    ensures { OnOk result
        (marks.new.items ≡ marks.old.items ++ flat_map marks_in (map shape_of source.now)) }
{
    for pattern in source {
        push_marks(marks, pattern)?;
    }
    Ok(())
}

fn copied_name(source: &Named) -> Result<Named, MemoryError>
    ensures { IfOk result (λ copy. copy ≡ source.now) }
{
    Ok(Named {
        path: source.path.copy()?,
        target: source.target,
        span: source.span,
    })
}

impl Numbers {
    /// A pattern, or nothing where it is an inserted variable.
    #[cycle(patterns)]
    #[tactic(auto, using(crate::proofs::ForgottenParts::shape_parts))]
    fn pattern(&self, alloc: Global, source: &Pattern) -> Result<Option<Pattern>, MemoryError>
        ensures { IfOk result (λ pattern. option_map shape_of pattern ≡ shape_without
            (number_of self.now) (shape_of source.now)) }
    {
        match source {
            Pattern::Variable {
                mark: Mark::Inserted,
                ..
            } => Ok(None),
            Pattern::Variable { mark, name, span } => Ok(Some(Pattern::Variable {
                mark: *mark,
                name: name.copy()?,
                span: *span,
            })),
            Pattern::Wildcard { mark, span } => Ok(Some(Pattern::Wildcard {
                mark: *mark,
                span: *span,
            })),
            Pattern::Constructor {
                mark,
                head,
                arguments,
                span,
            } => {
                let arguments = self.patterns(alloc, arguments)?;
                Ok(Some(Pattern::Constructor {
                    mark: *mark,
                    head: copied_name(head)?,
                    arguments,
                    span: *span,
                }))
            }
            Pattern::Dot { mark, value, span } => Ok(Some(Pattern::Dot {
                mark: *mark,
                value: self.expr(alloc, 0, value)?,
                span: *span,
            })),
        }
    }

    #[cycle(patterns)]
    #[tactic(auto, using(crate::proofs::ForgottenParts::shape_parts))]
    pub fn patterns(&self, alloc: Global, source: &[Pattern]) -> Result<Vec<Pattern>, MemoryError>
        ensures { IfOk result (λ done. map shape_of done.items ≡ filter_map
            (shape_without (number_of self.now)) (map shape_of source.now)) }
    {
        let mut done = Vec::with_capacity(alloc, source.len())?;
        for pattern in source {
            if let Some(pattern) = self.pattern(alloc, pattern)? {
                done.push(pattern)?;
            }
        }
        Ok(done)
    }
}
