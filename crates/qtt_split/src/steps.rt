//! The targets of a split, one after another.

ghost use Rattle.std.specs.Prelude.{◌≡◌, IfOk, map};
ghost use Rattle.qtt_term.specs.View.{term};
ghost use Rattle.qtt_unify.specs.View.{all_terms};
ghost use Rattle.qtt_split.specs.Ways.{step_of, steps as steps_in, all_steps as steps_in_all};

use qtt_term::{ConId, Term, TermError};
use std::alloc::Global;

/// A variable of the node, or a constructor with its parameters, behind which its fields stand.
#[derive(Drop)]
pub enum Step<'t> {
    Variable(u32),
    Constructor(ConId, &'t [Term]),
}

#[cycle(steps)]
fn steps<'t>(alloc: Global, target: &'t Term) -> Result<Vec<Step<'t>>, TermError>
    ensures { IfOk result (λ ss. map step_of ss.items ≡ steps_in (term target.now)) }
{
    match target {
        Term::Var(variable) => Ok(vec![in alloc; Step::Variable(*variable)]?),
        Term::Con(con, params, fields) => {
            let mut steps = vec![in alloc; Step::Constructor(*con, params)]?;
            let mut inner = all_steps(alloc, fields)?;
            steps.append(&mut inner)?;
            Ok(steps)
        }
        _ => Ok(Vec::new(alloc)),
    }
}

/// Those of targets, in order.
#[cycle(steps)]
pub fn all_steps<'t>(alloc: Global, targets: &'t [Term]) -> Result<Vec<Step<'t>>, TermError>
    ensures { IfOk result (λ ss. map step_of ss.items ≡ steps_in_all (all_terms targets.now) 0) }
{
    let mut all = Vec::new(alloc);
    for target in targets {
        let mut more = steps(alloc, target)?;
        all.append(&mut more)?;
    }
    Ok(all)
}
