//! A gate at which two modules of a rank meet: that they are judged at the same time is seen by no
//! contract.

ghost use Rattle.std.specs.Prelude.{◌<◌};

use crate::builds::{Stored, outcome, vault_of};
use qtt_edge::Gate;
use std::alloc::Global;
use std::hint::spin_loop;
use std::sync::atomic::AtomicBool;
use std::sync::atomic::Ordering::SeqCst;
use std::test::Fail;
use std::thread::{Threads, yield_now};

/// How often a module that waits looks whether the other one has come.
const TURNS: u32 = 1_000_000;

/// A gate that lets each of the modules P and Q pass only when the other one has come. A module
/// that waits counts its turns; where they run out the gate gives up, and lets it pass.
#[derive(Drop)]
struct Meeting {
    p_has_come: AtomicBool,
    q_has_come: AtomicBool,
    gave_up: AtomicBool,
}

impl Meeting {
    fn new() -> Meeting {
        Meeting {
            p_has_come: AtomicBool::new(false),
            q_has_come: AtomicBool::new(false),
            gave_up: AtomicBool::new(false),
        }
    }

    /// Waits until the other module has come, or the turns run out.
    fn wait_for(&self, other: &AtomicBool) {
        for turn in 0..TURNS {
            if other.load(SeqCst) {
                return;
            }
            let_time_pass(turn);
        }
        self.gave_up.store(true, SeqCst);
    }
}

impl Gate for Meeting {
    fn pass(&self, module: &str) {
        if module == "P" {
            self.p_has_come.store(true, SeqCst);
            self.wait_for(&self.q_has_come);
        } else if module == "Q" {
            self.q_has_come.store(true, SeqCst);
            self.wait_for(&self.p_has_come);
        }
    }
}

/// A turn is short; now and then it leaves the processor to another thread.
fn let_time_pass(turn: u32) {
    if turn % 1_000 == 0 {
        yield_now();
    } else {
        spin_loop();
    }
}

/// Two modules of one rank, and the one that imports them.
const MODULES: [Stored<'static>; 3] = [
    Stored {
        name: "Main",
        text: "module Main\nimport P\nimport Q\n",
    },
    Stored {
        name: "P",
        text: "module P\nx : Int\nx = 1\n",
    },
    Stored {
        name: "Q",
        text: "module Q\nx : Int\nx = 2\n",
    },
];

/// Whether P and Q meet in a build with so many jobs, which is right either way.
fn meet<R: Threads + Sync>(rt: &R, alloc: Global, jobs: u32) -> Result<bool, Fail>
    requires { 0 < jobs }
{
    let gate = Meeting::new();
    let mut vault = vault_of(alloc, &MODULES)?;
    let answer = outcome(rt, alloc, &mut vault, &gate, "Main", jobs)?;
    if answer.as_str() != "P 1; Q 1; Main 0; root 2" {
        return Err(Fail::from("the modules are not built"));
    }
    Ok(!gate.gave_up.load(SeqCst))
}

#[test]
fn modules_of_a_rank_meet(rt: HostRuntime) -> Result<(), Fail> {
    assert!(rt; meet(&rt, rt.alloc(), 2)?);
    assert!(rt; meet(&rt, rt.alloc(), 64)?);
    // One job is one module after the other: the turns of the first run out.
    assert!(rt; !meet(&rt, rt.alloc(), 1)?);
    Ok(())
}
