//! The program `qtt`: one call over the real outside.
#![tactic(auto)]

use qtt_cli::qtt_main;
use qtt_edge::{FileTapes, FolderVault, OpenGate, StdSink, StdSource};
use std::io::ErrorKind;
use std::process::ExitCode;
use std::rt::Env;
use std::{env, fs, io};

/// The status where memory runs out.
const OUT_OF_MEMORY: u8 = 71;

/// The modules and the tapes are files of the current folder.
fn main(rt: HostRuntime) -> ExitCode {
    // A folder, which can be neither read nor written, takes the place of each standard stream
    // that is closed, so that no tape does.
    let _first = fs::open(&rt, ".");
    let _second = fs::open(&rt, ".");
    let _third = fs::open(&rt, ".");
    let Ok(words) = words(&rt) else {
        return ExitCode::from(OUT_OF_MEMORY);
    };
    let mut vault = FolderVault::new(&rt, ".");
    let mut input = StdSource::new(rt.stdin());
    let mut out = StdSink::new(rt.stdout());
    let mut err = StdSink::new(rt.stderr());
    let mut tapes = FileTapes::new(rt.alloc(), &rt, ".");
    let status = qtt_main(
        &rt,
        rt.alloc(),
        &words,
        &mut vault,
        &mut input,
        &mut out,
        &mut err,
        &mut tapes,
        &OpenGate,
    );
    ExitCode::from(status)
}

/// The arguments without the program's own name. Where one of them is no text there are none: such
/// words ask for nothing.
fn words<R: Env + AllocGlobal>(rt: &R) -> io::Result<Vec<String>> {
    let mut words = Vec::new(rt.alloc());
    match env::args(rt) {
        Ok(given) => {
            for word in given.skip(1) {
                words.push(word)?;
            }
            Ok(words)
        }
        Err(error) => match error.kind() {
            ErrorKind::InvalidData => Ok(words),
            _ => Err(error),
        },
    }
}
