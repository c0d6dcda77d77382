//! The commands that put a text: `check`, `core` and `code`.

ghost use Rattle.std.specs.Prelude.{◌≡◌};
ghost use Rattle.qtt_edge.specs.Counts.{Counts};
ghost use Rattle.qtt_cli.specs.Commands.{check_for, code_for, core_for};
ghost use Rattle.qtt_cli.specs.Running.{Fails};
ghost use Rattle.qtt_cli.specs.Stops.{AnswersOver, IsAbsent};
ghost use Rattle.qtt_cli.specs.Printed.{Puts};
ghost use Rattle.qtt_cli.specs.Views.{bytes_of};

use crate::device::Device;
use crate::program::program;
use crate::stop::Stop;
use crate::texts::{check_text, core_text};
use crate::verdict::Verdict;
use qtt_base::Name;
use qtt_build::build_all;
use qtt_code::listing;
use qtt_edge::{Gate, Sink, SinkError, Vault};
use qtt_words::Request;
use std::alloc::Global;
use std::thread::Threads;

/// What `check` puts: a line for each module, and the lines of its holes.
pub(crate) fn check<R: Threads + Sync, V: Vault, G: Gate>(
    rt: &R,
    alloc: Global,
    vault: &mut V,
    gate: &G,
    root: &Name,
    request: &Request,
) -> Result<Vec<u8>, Stop>
    ensures answers { AnswersOver (V.texts vault.old) (check_for root.now request.now.budget)
        bytes_of result }
    ensures same { V.texts vault.new ≡ V.texts vault.old }
    ensures failed { Counts (V.faults vault.old) (V.faults vault.new) (Fails Device.Vault result) }
    ensures absent { Counts (V.misses vault.old) (V.misses vault.new) (IsAbsent result) }
{
    let built = build_all(rt, alloc, vault, gate, root, request.budget, request.jobs)?;
    Ok(check_text(alloc, &built)?)
}

/// What `core` puts: a line for each definition of the named module.
pub(crate) fn core<R: Threads + Sync, V: Vault, G: Gate>(
    rt: &R,
    alloc: Global,
    vault: &mut V,
    gate: &G,
    root: &Name,
    request: &Request,
) -> Result<Vec<u8>, Stop>
    ensures answers { AnswersOver (V.texts vault.old) (core_for root.now request.now.budget)
        bytes_of result }
    ensures same { V.texts vault.new ≡ V.texts vault.old }
    ensures failed { Counts (V.faults vault.old) (V.faults vault.new) (Fails Device.Vault result) }
    ensures absent { Counts (V.misses vault.old) (V.misses vault.new) (IsAbsent result) }
{
    let built = build_all(rt, alloc, vault, gate, root, request.budget, request.jobs)?;
    Ok(core_text(alloc, &built, root)?)
}

/// What `code` puts: the listing of the whole program.
pub(crate) fn code<R: Threads + Sync, V: Vault, G: Gate>(
    rt: &R,
    alloc: Global,
    vault: &mut V,
    gate: &G,
    root: &Name,
    request: &Request,
) -> Result<Vec<u8>, Stop>
    ensures answers { AnswersOver (V.texts vault.old) (code_for root.now request.now.budget)
        bytes_of result }
    ensures same { V.texts vault.new ≡ V.texts vault.old }
    ensures failed { Counts (V.faults vault.old) (V.faults vault.new) (Fails Device.Vault result) }
    ensures absent { Counts (V.misses vault.old) (V.misses vault.new) (IsAbsent result) }
{
    let program = program(rt, alloc, vault, gate, root, request)?;
    Ok(listing(alloc, program.compiled.program(), &program.built.env)?)
}

/// Puts a text.
pub(crate) fn put<O: Sink>(out: &mut O, text: &[u8]) -> Result<Verdict, Stop>
    ensures puts { Puts text.now (O.content out.old) (O.content out.new) result }
    ensures failed { Counts (O.faults out.old) (O.faults out.new) (Fails Device.Output result) }
{
    match out.put(text) {
        Ok(()) => Ok(Verdict::Ended),
        Err(SinkError::Failed) => Err(Stop::Failed(Device::Output)),
        Err(SinkError::Memory) => Err(Stop::Memory),
    }
}
