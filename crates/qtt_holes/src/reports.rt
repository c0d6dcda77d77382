//! Where the uses of pattern variables are told.

ghost use Rattle.std.specs.Prelude.{◌≡◌, IfOk, map};
ghost use Rattle.qtt_term.specs.Contexts.{part};
ghost use Rattle.qtt_term.specs.Judgement.Part.{run as run_part};
ghost use Rattle.qtt_rules.specs.Report.{uses_pass as tests_uses};
ghost use Rattle.qtt_bidi.specs.Calls.{Answers};
ghost use Rattle.qtt_bidi.specs.Seen.{locals};
ghost use Rattle.qtt_holes.specs.Calls.{tests_use};
ghost use Rattle.qtt_holes.specs.Hole.{fits_before as fits_so};
ghost use Rattle.qtt_holes.specs.View.{report_of};

use crate::remains::{fits_before, use_of};
use crate::walker::Walker;
use qtt_base::{MemoryError, Name, Span};
use qtt_bidi::Scope;
use qtt_rules::{Detail, ElabError};
use qtt_term::{Converter, Rule, Sigma};
use qtt_usage::usage::Usage;

/// The number of the test of uses among those of a group of clauses.
const USES_NUMBER: u8 = 16;

/// A variable whose use is told, with the name and the place of its pattern.
#[derive(Debug, Drop)]
pub struct Report {
    pub variable: u32,
    pub name: Option<Name>,
    pub place: Span,
}

/// A copy of a name that may be there.
fn copied_name(name: &Option<Name>) -> Result<Option<Name>, MemoryError>
    ensures { IfOk result (λ copy. copy ≡ name.now) }
{
    match name {
        Some(name) => Ok(Some(name.copy()?)),
        None => Ok(None),
    }
}

impl<'a, C: Converter> Walker<'a, C> {
    /// In the run part each variable that is reported was used at most as it is declared.
    pub fn uses_pass(
        &self,
        scope: &Scope<'_>,
        uses: &Usage,
        reports: &[Report],
    ) -> Result<(), ElabError>
        ensures { Answers self.now.elaborator
            (tests_uses fits_so (part self.now.sigma) (locals scope.now).vars uses.now
            (map report_of reports.now)) (λ u. u) result }
    {
        match self.sigma {
            Sigma::Erased => Ok(()),
            Sigma::Run => self.all_pass(scope, uses, reports),
        }
    }

    fn all_pass(&self, scope: &Scope<'_>, uses: &Usage, reports: &[Report]) -> Result<(), ElabError>
        ensures { Answers self.now.elaborator
            (tests_uses fits_so run_part (locals scope.now).vars uses.now
            (map report_of reports.now)) (λ u. u) result }
    {
        match reports {
            [] => Ok(()),
            [first, rest @ ..] => {
                self.use_passes(scope, uses, first)?;
                self.all_pass(scope, uses, rest)
            }
        }
    }

    /// The variable was used at most as it is declared; else this is told at its pattern.
    fn use_passes(&self, scope: &Scope<'_>, uses: &Usage, report: &Report) -> Result<(), ElabError>
        ensures { Answers self.now.elaborator
            (tests_use (locals scope.now).vars uses.now (report_of report.now)) (λ u. u) result }
    {
        let declared = scope.mult(report.variable);
        let used = use_of(uses, report.variable);
        if fits_before(used, declared) {
            return Ok(());
        }
        let name = copied_name(&report.name)?;
        let kept = Detail::WrongUsage {
            name,
            declared,
            used,
        };
        Err(ElabError::Refused(kept, report.place, Rule::Clauses, USES_NUMBER))
    }
}
