//! What the words ask for, carried out.

ghost use Rattle.std.specs.Prelude.{◌≡◌, [], true};
ghost use Rattle.std.specs.Option.{ForSome};
ghost use Rattle.qtt_edge.specs.Counts.{Rose};
ghost use Rattle.qtt_words.specs.Asked.{asked};
ghost use Rattle.qtt_words.specs.Requested.{requested};
ghost use Rattle.qtt_cli.specs.Parts.{prints};
ghost use Rattle.qtt_cli.specs.Seen.{one_of};
ghost use Rattle.qtt_cli.specs.Works.{Carries, Works, leaves_input};

use crate::printing::{check, code, core, put};
use crate::program::program;
use crate::running::{run, run_generated};
use crate::stop::Stop;
use crate::verdict::Verdict;
use qtt_edge::{Gate, Sink, Source, Tapes, Vault};
use qtt_words::{Command, Request, read_words};
use std::alloc::Global;
use std::thread::Threads;

/// Does what the words ask for, but tells nothing on `err`.
pub(crate) fn work<R: Threads + Sync, V: Vault, I: Source, O: Sink, T: Tapes, G: Gate>(
    rt: &R,
    alloc: Global,
    words: &[String],
    vault: &mut V,
    input: &mut I,
    out: &mut O,
    tapes: &mut T,
    gate: &G,
) -> Result<Verdict, Stop>
    requires { ForSome (T.tapes tapes.old) (λ all. all ≡ []) }
    ensures works { Works words.now (record {
      texts = V.texts vault.old;
      input = I.content input.old;
      outside = record {
        output_before = O.content out.old;
        output = O.content out.new;
        tapes_before = T.tapes tapes.old;
        tapes = T.tapes tapes.new;
      };
      failed = one_of (Rose (V.faults vault.old) (V.faults vault.new))
          (Rose (I.faults input.old) (I.faults input.new))
          (Rose (O.faults out.old) (O.faults out.new))
          (Rose (T.faults tapes.old) (T.faults tapes.new));
      missed = Rose (V.misses vault.old) (V.misses vault.new);
    }) result }
    ensures same { V.texts vault.new ≡ V.texts vault.old }
    ensures input_stays { leaves_input (asked words.now) ≡ true →
        I.content input.new ≡ I.content input.old }
{
    match read_words(alloc, words)? {
        Some(request) => carry_out(rt, alloc, &request, vault, input, out, tapes, gate),
        None => Err(Stop::Usage),
    }
}

/// Carries out a request.
fn carry_out<R: Threads + Sync, V: Vault, I: Source, O: Sink, T: Tapes, G: Gate>(
    rt: &R,
    alloc: Global,
    request: &Request,
    vault: &mut V,
    input: &mut I,
    out: &mut O,
    tapes: &mut T,
    gate: &G,
) -> Result<Verdict, Stop>
    requires { ForSome (T.tapes tapes.old) (λ all. all ≡ []) }
    ensures carries { Carries (record {
      texts = V.texts vault.old;
      input = I.content input.old;
      outside = record {
        output_before = O.content out.old;
        output = O.content out.new;
        tapes_before = T.tapes tapes.old;
        tapes = T.tapes tapes.new;
      };
      failed = one_of (Rose (V.faults vault.old) (V.faults vault.new))
          (Rose (I.faults input.old) (I.faults input.new))
          (Rose (O.faults out.old) (O.faults out.new))
          (Rose (T.faults tapes.old) (T.faults tapes.new));
      missed = Rose (V.misses vault.old) (V.misses vault.new);
    }) (requested request.now) result }
    ensures same { V.texts vault.new ≡ V.texts vault.old }
    ensures input_stays { prints (requested request.now).work ≡ true →
        I.content input.new ≡ I.content input.old }
{
    match &request.command {
        Command::Check(root) => put(out, &check(rt, alloc, vault, gate, root, request)?),
        Command::Core(root) => put(out, &core(rt, alloc, vault, gate, root, request)?),
        Command::Code(root) => put(out, &code(rt, alloc, vault, gate, root, request)?),
        Command::Run(root) => {
            let program = program(rt, alloc, vault, gate, root, request)?;
            Ok(run(alloc, &program, request.steps, input, out, tapes)?.verdict)
        }
        Command::Generate(generation) => {
            run_generated(rt, alloc, generation, request, input, out, tapes, gate)
        }
    }
}
