//! The program of a module: its build, its main and its code.

ghost use Rattle.std.specs.Prelude.{◌≡◌, ◌<◌, IfOk, IsTrue};
ghost use Rattle.std.specs.List.{list_any};
ghost use Rattle.qtt_edge.specs.Counts.{Counts};
ghost use Rattle.qtt_term.specs.Entries.{entries};
ghost use Rattle.qtt_lower.specs.Whole.{IsProgramOf};
ghost use Rattle.qtt_run.specs.Program.{IsCodeOfMain};
ghost use Rattle.qtt_term.specs.Globals.{env};
ghost use Rattle.qtt_load.specs.Reading.{front};
ghost use Rattle.qtt_build.specs.Answer.{built_of};
ghost use Rattle.qtt_build.specs.Built.{is_named};
ghost use Rattle.qtt_outcome.specs.Stop.{main_of};
ghost use Rattle.qtt_cli.specs.Commands.{code_over, over_build, program_for};
ghost use Rattle.qtt_cli.specs.Running.{Fails};
ghost use Rattle.qtt_cli.specs.Stops.{AnswersOver, Gives, IsAbsent};
ghost use Rattle.qtt_cli.specs.Views.{code_program, program_of};

use crate::device::Device;
use crate::holes::refuse_holes;
use crate::refusal::plain;
use crate::stop::Stop;
use qtt_base::{GlobalId, Name, Span};
use qtt_build::{Built, build_all, module_named};
use qtt_edge::{Gate, Vault};
use qtt_envconv::ByEnv;
use qtt_lower::{Compiled, LowerError, lower_all};
use qtt_module::check_main;
use qtt_outcome::laws::mains_may_run;
use qtt_rules::Detail;
use qtt_run::laws::compiled_is_code;
use qtt_term::{Globals, Rule};
use qtt_words::Request;
use std::alloc::Global;
use std::thread::Threads;

/// What is run, or listed as code.
#[derive(Drop)]
pub(crate) struct Runnable {
    pub built: Built,
    pub main: GlobalId,
    pub compiled: Compiled,
}

/// The program of the named module: all that it needs is built, nothing has a hole, its main is
/// right, and its code is within the limits.
pub(crate) fn program<R: Threads + Sync, V: Vault, G: Gate>(
    rt: &R,
    alloc: Global,
    vault: &mut V,
    gate: &G,
    root: &Name,
    request: &Request,
) -> Result<Runnable, Stop>
    ensures answers { AnswersOver (V.texts vault.old) (program_for root.now request.now.budget)
        program_of result }
    ensures code { IfOk result (λ p. IsCodeOfMain p.compiled p.main (env p.built.env)) }
    ensures same { V.texts vault.new ≡ V.texts vault.old }
    ensures failed { Counts (V.faults vault.old) (V.faults vault.new) (Fails Device.Vault result) }
    ensures absent { Counts (V.misses vault.old) (V.misses vault.new) (IsAbsent result) }
{
    mains_may_run();
    compiled_is_code();
    let built = build_all(rt, alloc, vault, gate, root, request.budget, request.jobs)?;
    program_over(rt, alloc, built, root, request)
}

/// The program of the named module of a build.
fn program_over<R: Threads + Sync>(
    rt: &R,
    alloc: Global,
    built: Built,
    root: &Name,
    request: &Request,
) -> Result<Runnable, Stop>
    requires { IsTrue (list_any (is_named root.now) (built_of built).order) }
    ensures gives { Gives program_of result
        (over_build root.now request.now.budget (built_of built)) }
    ensures built { IfOk result (λ p. p.built ≡ built) }
    ensures code { IfOk result (λ p. IsProgramOf built.env p.compiled) }
{
    refuse_holes(alloc, &built)?;
    let main = main_of(alloc, &built, root, request.budget)?;
    let compiled = compiled(rt, alloc, root, &built.env, request.jobs)?;
    Ok(Runnable {
        built,
        main,
        compiled,
    })
}

/// The main of the named module of a build.
fn main_of(alloc: Global, built: &Built, root: &Name, budget: u64) -> Result<GlobalId, Stop>
    requires { IsTrue (list_any (is_named root.now) (built_of built.now).order) }
    ensures { Gives (λ d. d) result (main_of budget (built_of built.now) root.now) }
{
    let Some(checked) = module_named(&built.order, root) else {
        unreachable!();
    };
    Ok(check_main(alloc, &ByEnv, budget, &built.env, checked)?)
}

/// The place of what is refused of a whole program.
fn front() -> Span
    ensures { result ≡ front }
{
    Span {
        line: 1,
        col: 1,
        len: 0,
    }
}

/// The code of an environment, or which limit it passes, told at the front of the named module.
fn compiled<R: Threads + Sync>(
    rt: &R,
    alloc: Global,
    root: &Name,
    env: &Globals,
    jobs: u32,
) -> Result<Compiled, Stop>
    requires { 0 < jobs }
    ensures gives { Gives code_program result (code_over root.now (entries env.now)) }
    ensures code { IfOk result (IsProgramOf env.now) }
{
    match lower_all(rt, alloc, env, jobs) {
        Ok(compiled) => Ok(compiled),
        Err(LowerError::Limit(quantity, count)) => {
            let detail = Detail::Limit { quantity, count };
            Err(Stop::Refused(plain(alloc, Rule::Program, root, front(), detail)?))
        }
        Err(LowerError::Memory) => Err(Stop::Memory),
    }
}
