//! What is told of how a call went.

ghost use Rattle.std.specs.Prelude.{◌≡◌, ◌⊎◌, IfOk, MatchResult};
ghost use Rattle.qtt_edge.specs.Sink.{AddsFront};
ghost use Rattle.qtt_machine.specs.Events.{cause};
ghost use Rattle.qtt_diag.specs.Kept.{refusal as refusal_of};
ghost use Rattle.qtt_diag.specs.Messages.{message};
ghost use Rattle.qtt_outcome.specs.Outcome.{absent_line, line, trap_line};
ghost use Rattle.qtt_cli.specs.Told.{Finishes, Reports, Tells, device_line, memory_line};

use crate::device::Device;
use crate::stop::Stop;
use crate::verdict::Verdict;
use qtt_base::{MemoryError, Name};
use qtt_diag::message;
use qtt_edge::{Sink, SinkError};
use qtt_machine::TrapKind;
use qtt_rules::Refusal;
use std::alloc::Global;

/// Tells on `err` how a call went, and gives its status.
pub(crate) fn finish<E: Sink>(alloc: Global, err: &mut E, went: Result<Verdict, Stop>) -> u8
    ensures { Finishes went result (E.content err.old) (E.content err.new)
        (E.faults err.old) (E.faults err.new) }
{
    match went {
        Ok(Verdict::Ended) => 0,
        Ok(Verdict::Trapped(kind)) => tell(err, 2, trap_line(kind)),
        Ok(Verdict::Running) => tell(err, 3, b"step bound reached\n"),
        Err(Stop::Usage) => tell(
            err,
            64,
            b"usage: qtt COMMAND MODULE [--steps N] [--budget N] [--jobs N]\n",
        ),
        Err(Stop::Absent(name)) => tell_made(err, 66, absent_line(alloc, &name)),
        Err(Stop::Refused(refusal)) => tell_made(err, 1, refusal_line(alloc, &refusal)),
        Err(Stop::Failed(device)) => tell(err, 74, device_line(device)),
        Err(Stop::Memory) => tell(err, 71, b"out of memory\n"),
    }
}

/// The line that tells of a trap.
fn trap_line(kind: TrapKind) -> &'static [u8]
    ensures { result.now ≡ line (trap_line (cause kind)) }
{
    match kind {
        TrapKind::DivisionByZero => b"trap: division by zero\n",
        TrapKind::MissingClause => b"trap: missing clause\n",
        TrapKind::BadInputLine => b"trap: bad input line\n",
    }
}

/// The line that tells of a device that failed.
fn device_line(device: Device) -> &'static [u8]
    ensures { result.now ≡ line (device_line device) }
{
    match device {
        Device::Vault => b"vault failed\n",
        Device::Input => b"input failed\n",
        Device::Output => b"output failed\n",
        Device::Tape => b"tape failed\n",
    }
}

/// The line that tells of a missing module.
fn absent_line(alloc: Global, name: &Name) -> Result<Vec<u8>, MemoryError>
    ensures { IfOk result (λ text. text.items ≡ line (absent_line name.now)) }
{
    Ok(format!(in alloc; "module {name} not found\n")?.into_bytes())
}

/// The line that tells of a refusal.
fn refusal_line(alloc: Global, refusal: &Refusal) -> Result<Vec<u8>, MemoryError>
    ensures { IfOk result (λ text. text.items ≡ line (message (refusal_of refusal.now))) }
{
    let mut text = message(alloc, refusal)?;
    text.push(b'\n')?;
    Ok(text)
}

/// Puts a line, if there was memory for it, and gives the status, or that of want of memory.
fn tell_made<E: Sink>(err: &mut E, status: u8, line: Result<Vec<u8>, MemoryError>) -> u8
    ensures { MatchResult line
        (λ text. Reports status text.items result (E.content err.old) (E.content err.new)
        (E.faults err.old) (E.faults err.new))
        (λ _. (result ≡ 71) × AddsFront (E.content err.old) (E.content err.new) memory_line) }
{
    match line {
        Ok(line) => tell(err, status, &line),
        Err(_) => tell(err, 71, b"out of memory\n"),
    }
}

/// Puts a line, and gives the status, or that of want of memory.
fn tell<E: Sink>(err: &mut E, status: u8, line: &[u8]) -> u8
    ensures { ((result ≡ status) × Tells (E.content err.old) (E.content err.new)
        (E.faults err.old) (E.faults err.new) line.now) ⊎
        ((result ≡ 71) × AddsFront (E.content err.old) (E.content err.new) line.now) }
{
    match err.put(line) {
        Ok(()) | Err(SinkError::Failed) => status,
        Err(SinkError::Memory) => 71,
    }
}
