//! All modules of a number.

ghost use Rattle.std.specs.Prelude.{◌≡◌, ◌≤◌, IfOk, map};
ghost use Rattle.qtt_gen.specs.Generated.{generated};
ghost use Rattle.qtt_gen.specs.Seen.{seen};

use crate::texts::{main_text, module_name, module_text, name_of};
use qtt_base::{MemoryError, Name};
use std::alloc::Global;

/// The modules of a number, in order, each with its name.
pub fn generate(alloc: Global, number: u32) -> Result<Vec<(Name, Vec<u8>)>, MemoryError>
    requires at_least_one { 1 ≤ number }
    requires at_most { number ≤ 200 }
    ensures { IfOk result (λ modules. map seen modules.items ≡ generated number) }
{
    let mut modules = Vec::new(alloc);
    for i in 0..number {
        for j in 0..4 {
            modules.push((module_name(alloc, i, j)?, module_text(alloc, i, j)?))?;
        }
    }
    modules.push((name_of(alloc, "Main")?, main_text(alloc, number - 1)?))?;
    Ok(modules)
}

#[cfg(test)]
mod tests;
