//! The run of a main.

ghost use Rattle.std.specs.Prelude.{◌≡◌, ◌≤◌, []};
ghost use Rattle.std.specs.Option.{ForSome};
ghost use Rattle.qtt_term.specs.Signature.{Env};
ghost use Rattle.qtt_edge.specs.Counts.{Counts};
ghost use Rattle.qtt_run.specs.Program.{IsCodeOfMain, RunsAsFull, Ends};
ghost use Rattle.qtt_run.specs.Underway.{IsAnswered};

use crate::running::Running;
use crate::stop::Stop;
use bumpalo::Bump;
use qtt_base::{GlobalId, MemoryError};
use qtt_edge::{Sink, Source, Tapes};
use qtt_lower::Compiled;
use qtt_machine::TrapKind;
use std::alloc::Global;

/// How a run ended.
#[derive(Clone, Copy, Debug, PartialEq, Eq)]
pub enum RunHow {
    Ended,
    /// The tapes that were open then are closed.
    Trapped(TrapKind),
    /// The run goes on behind the bound.
    Bound,
    SourceFault,
    SinkFault,
    TapeFault,
}

/// How a run ended, and after how many contractions.
#[derive(Clone, Copy, Debug, PartialEq, Eq)]
pub struct RunEnd {
    pub how: RunHow,
    pub used: u64,
}

/// Runs the code of a main, which makes at most so many contractions: ticks of the machine, and
/// actions. Each line that it puts is one put of the line and byte 10. The values that it makes
/// lie in an arena that is given up at the end.
pub fn run_program<S: Source, O: Sink, T: Tapes>(
    alloc: Global,
    compiled: &Compiled,
    main: GlobalId,
    bound: u64,
    input: &mut S,
    out: &mut O,
    tapes: &mut T,
) -> Result<RunEnd, MemoryError>
    requires code { (E : Env) × IsCodeOfMain compiled.now main E }
    requires steps { bound ≤ 4000000000 }
    requires empty { ForSome (T.tapes tapes.old) (λ all. all ≡ []) }
    ensures runs { (E : Env) → IsCodeOfMain compiled.now main E →
        RunsAsFull bound E main (S.content input.old)
        (record {
          output_before = O.content out.old;
          output = O.content out.new;
          tapes_before = T.tapes tapes.old;
          tapes = T.tapes tapes.new;
        })
        result }
    ensures source { Counts (S.faults input.old) (S.faults input.new)
        (Ends RunHow.SourceFault result) }
    ensures sink { Counts (O.faults out.old) (O.faults out.new) (Ends RunHow.SinkFault result) }
    ensures tape { Counts (T.faults tapes.old) (T.faults tapes.new) (Ends RunHow.TapeFault result) }
{
    let Some(block) = compiled.entry(main) else {
        unreachable!()
    };
    let arena = Bump::new(alloc);
    let mut running = Running::start(alloc, compiled, block, bound, &arena)?;
    let came = running.go_on(input, out, tapes);
    answer(came, bound - running.left())
}

/// The answer of a run that came to this, after so many contractions.
fn answer(came: Result<RunHow, Stop>, used: u64) -> Result<RunEnd, MemoryError>
    ensures { IsAnswered came used result }
{
    let how = match came {
        Ok(how) => how,
        Err(Stop::Source) => RunHow::SourceFault,
        Err(Stop::Sink) => RunHow::SinkFault,
        Err(Stop::Tape) => RunHow::TapeFault,
        Err(Stop::Memory) => return Err(MemoryError),
    };
    Ok(RunEnd { how, used })
}
