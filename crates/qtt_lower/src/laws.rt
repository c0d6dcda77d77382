//! Laws of lowering. Each function does nothing: its contract is the law.

ghost use Rattle.qtt_lower.specs.Laws.{CodeRunsInStep, JumpsGoForward, ProgramsAreLowered, ProgramsRun, RunsBegin};

/// The code of a lowered program takes the steps of the flat term that a state represents: a
/// tick for a step, the same value, the same trap.
pub fn code_runs_in_step()
    ensures { CodeRunsInStep }
{}

/// A machine that begins at a definition represents it, and one that begins with a call
/// represents the application.
pub fn runs_begin()
    ensures { RunsBegin }
{}

/// The program of the definitions of an environment has the blocks of their converted bodies.
pub fn programs_are_lowered()
    ensures { ProgramsAreLowered }
{}

/// The machine over the program of erased bodies answers within each bound what evaluation
/// gives, after as many ticks as steps.
pub fn programs_run()
    ensures { ProgramsRun }
{}

/// Each jump in the code of a program goes to a later place of its block.
pub fn jumps_go_forward()
    ensures { JumpsGoForward }
{}
