//! Variables that an index equation may solve.

ghost use Rattle.std.specs.Prelude.{◌≡◌, IfOk};
ghost use Rattle.qtt_split.specs.Split.{free_variables as all_free};
ghost use Rattle.qtt_unify.specs.Targets.{is_free as free};
ghost use Rattle.qtt_unify.specs.View.{scrutinee as scrutinee_of};

use crate::context::mult_at;
use crate::occurrences::occurrences_in;
use crate::reverting::is_linear;
use qtt_base::MemoryError;
use qtt_term::telescopes::number;
use qtt_unify::Scrutinee;
use std::alloc::Global;

/// Whether an equation may solve a variable: it occurs once in all targets, is not linear, is not
/// the one that is split, and occurs in no parameter.
fn is_free(scrutinee: &Scrutinee<'_>, variable: u32) -> Result<bool, MemoryError>
    ensures { IfOk result (λ b. b ≡ free (scrutinee_of scrutinee.now) variable) }
{
    if occurrences_in(scrutinee.targets, u64::from(variable))? != 1 {
        return Ok(false);
    }
    if is_linear(mult_at(scrutinee.context, variable)) {
        return Ok(false);
    }
    if variable == scrutinee.variable {
        return Ok(false);
    }
    Ok(occurrences_in(scrutinee.params, u64::from(variable))? == 0)
}

/// The variables that an equation may solve, in context order.
pub fn free_variables(alloc: Global, scrutinee: &Scrutinee<'_>) -> Result<Vec<u32>, MemoryError>
    ensures { IfOk result (λ v. v.items ≡ all_free (scrutinee_of scrutinee.now)) }
{
    let count = number(scrutinee.context.len())?;
    let mut free = Vec::new(alloc);
    for variable in (0..count).rev() {
        if is_free(scrutinee, variable)? {
            free.push(variable)?;
        }
    }
    Ok(free)
}
