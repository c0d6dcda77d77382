//! What was computed of the worked programs, and which families are in none. Each function does
//! nothing: its contract is what holds.

ghost use Rattle.qtt_programs.specs.Worked.{WorkedPrograms, FurtherRuns};
ghost use Rattle.qtt_programs.specs.Refused.{RefusedFamilies};

/// The worked programs are well formed and complete, each with its main; and runs of some of
/// them.
pub fn worked_programs_are_programs()
    ensures programs { WorkedPrograms }
    ensures runs { FurtherRuns }
{}

/// A family with a field above its level, and one that occurs in a domain, are in no well-formed
/// environment.
pub fn families_are_refused()
    ensures { RefusedFamilies }
{}
