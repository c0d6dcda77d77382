//! The judgement of one module of a rank, which is the work of one thread.

ghost use Rattle.qtt_module.specs.Answer.{Gives};
ghost use Rattle.qtt_module.specs.TextCalls.{accepted_of};
ghost use Rattle.qtt_build.specs.Answer.{answer_to, building_of, task_of};

use crate::building::Building;
use crate::imports::imports_for;
use qtt_accepted::check_module;
use qtt_base::ModuleId;
use qtt_envconv::ByEnv;
use qtt_jobs::Work;
use qtt_module::{Checked, ModuleError};
use qtt_syntax::ModuleText;
use std::alloc::Global;

/// A module that is to be judged, under its number.
#[derive(Clone, Copy)]
pub(crate) struct Job<'t> {
    pub id: ModuleId,
    pub text: &'t ModuleText,
}

/// What the modules of a rank are judged with: the budget of each question, and what the ranks
/// before theirs built.
#[derive(Clone, Copy)]
pub(crate) struct Worker<'b> {
    pub alloc: Global,
    pub budget: u64,
    pub building: &'b Building,
}

impl<'t> Work<Job<'t>, Checked, ModuleError> for Worker<'_> {
    ghost answers = { λ w j r. Gives accepted_of r
        (answer_to w.budget (building_of w.building.now) (task_of j)) };

    /// The judgement of a module. What its imports give is copied for it; the environment is read
    /// where it is.
    fn answer(&self, job: Job<'t>) -> Result<Checked, ModuleError> {
        let Job { id, text } = job;
        let imports = imports_for(self.alloc, &self.building.order, &text.imports)?;
        check_module(
            self.alloc,
            &ByEnv,
            self.budget,
            id,
            text,
            &text.name,
            &imports,
            &self.building.globals,
        )
    }
}
