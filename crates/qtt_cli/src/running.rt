//! The commands that run a program: `run` and `gen`.

ghost use Rattle.std.specs.Prelude.{◌≡◌, ◌≤◌, []};
ghost use Rattle.std.specs.Option.{ForSome};
ghost use Rattle.qtt_edge.specs.Counts.{Counts};
ghost use Rattle.qtt_term.specs.Globals.{env};
ghost use Rattle.qtt_run.specs.Program.{IsCodeOfMain};
ghost use Rattle.qtt_words.specs.Asked.{Work};
ghost use Rattle.qtt_words.specs.Requested.{requested};
ghost use Rattle.qtt_cli.specs.Running.{Fails, RunsAs};
ghost use Rattle.qtt_cli.specs.Works.{RunsGenerated};

use crate::device::Device;
use crate::generated::{GeneratedVault, main_name};
use crate::printing::put;
use crate::program::{Runnable, program};
use crate::stop::Stop;
use crate::texts::count_lines;
use crate::verdict::Verdict;
use qtt_edge::{Gate, Sink, Source, Tapes};
use qtt_run::{RunHow, run_program};
use qtt_words::{Generation, Request};
use std::alloc::Global;
use std::thread::Threads;

/// How a run went, and after how many contractions.
#[derive(Clone, Copy, Debug)]
pub(crate) struct Went {
    pub verdict: Verdict,
    pub used: u64,
}

/// Runs a program within so many contractions.
pub(crate) fn run<I: Source, O: Sink, T: Tapes>(
    alloc: Global,
    program: &Runnable,
    steps: u64,
    input: &mut I,
    out: &mut O,
    tapes: &mut T,
) -> Result<Went, Stop>
    requires code { IsCodeOfMain program.now.compiled program.now.main
        (env program.now.built.env) }
    requires steps { steps ≤ 4000000000 }
    requires empty { ForSome (T.tapes tapes.old) (λ all. all ≡ []) }
    ensures runs { RunsAs steps (env program.now.built.env) program.now.main
        (I.content input.old)
        (record {
          output_before = O.content out.old;
          output = O.content out.new;
          tapes_before = T.tapes tapes.old;
          tapes = T.tapes tapes.new;
        })
        result }
    ensures source { Counts (I.faults input.old) (I.faults input.new)
        (Fails Device.Input result) }
    ensures sink { Counts (O.faults out.old) (O.faults out.new) (Fails Device.Output result) }
    ensures tape { Counts (T.faults tapes.old) (T.faults tapes.new) (Fails Device.Tape result) }
{
    let end = run_program(
        alloc,
        &program.compiled,
        program.main,
        steps,
        input,
        out,
        tapes,
    )?;
    let verdict = match end.how {
        RunHow::Ended => Verdict::Ended,
        RunHow::Trapped(kind) => Verdict::Trapped(kind),
        RunHow::Bound => Verdict::Running,
        RunHow::SourceFault => return Err(Stop::Failed(Device::Input)),
        RunHow::SinkFault => return Err(Stop::Failed(Device::Output)),
        RunHow::TapeFault => return Err(Stop::Failed(Device::Tape)),
    };
    Ok(Went {
        verdict,
        used: end.used,
    })
}

/// Runs the Main of generated modules and, where the run ends, puts how many modules, definitions
/// and contractions there are.
pub(crate) fn run_generated<R: Threads + Sync, I: Source, O: Sink, T: Tapes, G: Gate>(
    rt: &R,
    alloc: Global,
    generation: &Generation,
    request: &Request,
    input: &mut I,
    out: &mut O,
    tapes: &mut T,
    gate: &G,
) -> Result<Verdict, Stop>
    requires generates { (requested request.now).work ≡ Work.gen generation.now.number }
    requires empty { ForSome (T.tapes tapes.old) (λ all. all ≡ []) }
    ensures runs { RunsGenerated (requested request.now) (I.content input.old)
        (record {
          output_before = O.content out.old;
          output = O.content out.new;
          tapes_before = T.tapes tapes.old;
          tapes = T.tapes tapes.new;
        })
        result }
    ensures source { Counts (I.faults input.old) (I.faults input.new)
        (Fails Device.Input result) }
    ensures sink { Counts (O.faults out.old) (O.faults out.new) (Fails Device.Output result) }
    ensures tape { Counts (T.faults tapes.old) (T.faults tapes.new) (Fails Device.Tape result) }
{
    let mut vault = GeneratedVault::new(alloc, generation)?;
    let root = main_name(alloc)?;
    let program = program(rt, alloc, &mut vault, gate, &root, request)?;
    let went = run(alloc, &program, request.steps, input, out, tapes)?;
    match went.verdict {
        Verdict::Ended => put(out, &count_lines(alloc, &program.built.order, went.used)?),
        verdict => Ok(verdict),
    }
}
