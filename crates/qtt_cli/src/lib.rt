//! The program, as one call over the outside that it is handed.
//!
//! `qtt_main` does all that the program does. What a call comes to is one definition
//! (`qtt_outcome`), and `specs/Answers` says what holds where a status is answered. With 0, 1, 2,
//! 3, 64 and 66 the call came to exactly its outcome over the texts and the input that the devices
//! tell: its status, what `out` gained, the tapes and the line on `err`. A request that goes on is
//! accepted by the rules; what is refused has a reason, and is told so; what `run` shows is the
//! full evaluation of main within the steps, with each tape closed exactly once where it ends or
//! traps; the number of jobs changes nothing. It is complete: over what the modules declare by the
//! rules a request that is ready goes on, unless a question takes more than the budget. Nothing of
//! the input is read but by a run. With 74 a device failed in this call, and `err` is
//! told which; with that, and with want of memory (71), what was done is a part of the outcome
//! (`specs/Parts`). Worked: `examples`.
#![tactic(auto)]

mod device;
mod ending;
pub mod examples;
mod generated;
mod holes;
mod printing;
mod program;
mod refusal;
mod running;
mod stop;
mod texts;
mod verdict;
mod work;

ghost use Rattle.std.specs.Prelude.{◌≡◌, [], true};
ghost use Rattle.std.specs.Option.{ForSome};
ghost use Rattle.qtt_edge.specs.Counts.{Rose};
ghost use Rattle.qtt_words.specs.Asked.{asked};
ghost use Rattle.qtt_cli.specs.Answers.{Answers};
ghost use Rattle.qtt_cli.specs.Seen.{one_of};
ghost use Rattle.qtt_cli.specs.Works.{leaves_input};

use crate::ending::finish;
use crate::work::work;
use qtt_edge::{Gate, Sink, Source, Tapes, Vault};
use qtt_outcome::laws::{
    absent_is_told, accepted_is_derived, derived_goes_on, generated_lack_none, jobs_change_nothing,
    refused_for_reason, runs_are_evaluations,
};
use std::alloc::Global;
use std::thread::Threads;

/// Does all that the program does, and gives its exit status.
pub fn qtt_main<R: Threads + Sync, V: Vault, I: Source, O: Sink, E: Sink, T: Tapes, G: Gate>(
    rt: &R,
    alloc: Global,
    words: &[String],
    vault: &mut V,
    input: &mut I,
    out: &mut O,
    err: &mut E,
    tapes: &mut T,
    gate: &G,
) -> u8
    requires { ForSome (T.tapes tapes.old) (λ all. all ≡ []) }
    ensures answers { Answers (record {
      words = words.now;
      seen = record {
        texts = V.texts vault.old;
        input = I.content input.old;
        outside = record {
          output_before = O.content out.old;
          output = O.content out.new;
          tapes_before = T.tapes tapes.old;
          tapes = T.tapes tapes.new;
        };
        failed = one_of (Rose (V.faults vault.old) (V.faults vault.new))
            (Rose (I.faults input.old) (I.faults input.new))
            (Rose (O.faults out.old) (O.faults out.new))
            (Rose (T.faults tapes.old) (T.faults tapes.new));
        missed = Rose (V.misses vault.old) (V.misses vault.new);
      };
      err_before = E.content err.old;
      err = E.content err.new;
      err_failed = Rose (E.faults err.old) (E.faults err.new);
    }) result }
    ensures texts_stay { V.texts vault.new ≡ V.texts vault.old }
    ensures input_stays { leaves_input (asked words.now) ≡ true →
        I.content input.new ≡ I.content input.old }
{
    accepted_is_derived();
    refused_for_reason();
    absent_is_told();
    runs_are_evaluations();
    derived_goes_on();
    generated_lack_none();
    jobs_change_nothing();
    let went = work(rt, alloc, words, vault, input, out, tapes, gate);
    finish(alloc, err, went)
}
