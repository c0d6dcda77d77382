//! Variables of a clause that the walk over its patterns has met.

ghost use Rattle.std.specs.Prelude.{◌≡◌, IfOk};
ghost use Rattle.qtt_implicit.specs.Patterns.{number_in, meet, none_met};
ghost use Rattle.qtt_implicit.specs.TextTypes.{type_tree, local_types};
ghost use Rattle.qtt_implicit.specs.Variables.{met_of};

use super::parts::Locals;
use super::text_type::TextType;
use super::trees::placed;
use bumpalo::Bump;
use qtt_base::MemoryError;

/// How many variables of the clause are still to be met, and the text types of the others.
#[derive(Clone, Copy)]
pub(crate) struct Met<'a> {
    pub unmet: u32,
    pub locals: &'a Locals<'a>,
}

impl<'a> Met<'a> {
    /// Before the first of so many variables.
    pub fn none(arena: &'a Bump, unmet: u32) -> Result<Met<'a>, MemoryError>
        ensures { IfOk result (λ met. met_of met ≡ none_met unmet) }
    {
        Ok(Met {
            unmet,
            locals: placed(arena, Locals::End)?,
        })
    }

    /// The number of the next variable among the local names.
    pub fn number(self) -> u32
        ensures { result ≡ number_in (met_of self.entry) }
    {
        self.unmet.saturating_sub(1)
    }

    /// With a variable of this type, where one is still to be met.
    pub fn with(self, arena: &'a Bump, ty: TextType<'a>) -> Result<Met<'a>, MemoryError>
        ensures { IfOk result (λ met. met_of met ≡ meet (type_tree ty.entry) (met_of self.entry)) }
    {
        match self.unmet.checked_sub(1) {
            Some(unmet) => Ok(Met {
                unmet,
                locals: placed(
                    arena,
                    Locals::Beside {
                        ty,
                        older: self.locals,
                    },
                )?,
            }),
            None => Err(MemoryError),
        }
    }

    /// All variables of the clause, where those that were not met are unknown.
    pub fn all(self, arena: &'a Bump) -> Result<&'a Locals<'a>, MemoryError>
        ensures { IfOk result (λ locals. local_types locals.now ≡ (met_of self.entry).types) }
    {
        if self.unmet == 0 {
            return Ok(self.locals);
        }
        placed(
            arena,
            Locals::Unmet {
                count: self.unmet,
                older: self.locals,
            },
        )
    }
}
