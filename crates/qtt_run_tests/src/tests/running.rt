//! Runs of programs over devices in memory, and what they leave.

ghost use Rattle.std.specs.Prelude.{◌≡◌, [], IfOk};
ghost use Rattle.std.specs.Option.{ForSome};
ghost use Rattle.qtt_term.specs.Globals.{env};
ghost use Rattle.qtt_programs.specs.Programs.{IsRunnable};

use qtt_base::GlobalId;
use qtt_edge::{
    ByteSink, ByteSource, FailingCalls, FailingPut, FailingPuts, Sink, Source, TapeRack, Tapes,
};
use qtt_lower::lower_all;
use qtt_run::laws::compiled_is_code;
use qtt_run::{RunEnd, RunHow, run_program};
use qtt_term::Globals;
use std::alloc::Global;
use std::test::Fail;
use std::thread::Threads;

/// How many contractions a run may make where nothing is said.
pub const DEFAULT: u64 = 10_000_000;

/// The bound of a run, its input, after how many contractions it ends, if that is known, and
/// what it leaves.
pub type Row<'a> = (u64, &'a [u8], Option<u64>, &'a str);

/// The devices of a run.
#[derive(Drop)]
pub struct Devices {
    pub input: ByteSource<FailingCalls>,
    pub out: ByteSink<FailingPuts>,
    pub tapes: TapeRack<FailingCalls>,
}

impl Devices {
    /// No call of these devices fails.
    pub fn new(alloc: Global, input: &[u8]) -> Result<Devices, Fail>
        ensures { IfOk result (λ d. d.tapes.tapes.items ≡ []) }
    {
        Ok(Devices {
            input: ByteSource::failing(input.to_vec(alloc)?, Vec::new(alloc)),
            out: ByteSink::failing(alloc, Vec::new(alloc)),
            tapes: TapeRack::failing(alloc, Vec::new(alloc)),
        })
    }

    /// The source fails at this pull.
    pub fn failing_pull(alloc: Global, input: &[u8], call: u64) -> Result<Devices, Fail>
        ensures { IfOk result (λ d. d.tapes.tapes.items ≡ []) }
    {
        let devices = Devices::new(alloc, input)?;
        let input = ByteSource::failing(input.to_vec(alloc)?, vec![in alloc; call]?);
        Ok(Devices { input, ..devices })
    }

    /// The sink fails at this put, of which it takes so many bytes.
    pub fn failing_put(alloc: Global, call: u64, taken: usize) -> Result<Devices, Fail>
        ensures { IfOk result (λ d. d.tapes.tapes.items ≡ []) }
    {
        let devices = Devices::new(alloc, b"")?;
        let put = FailingPut { call, taken };
        let out = ByteSink::failing(alloc, vec![in alloc; put]?);
        Ok(Devices { out, ..devices })
    }

    /// The tapes fail at this call.
    pub fn failing_tape(alloc: Global, call: u64) -> Result<Devices, Fail>
        ensures { IfOk result (λ d. d.tapes.tapes.items ≡ []) }
    {
        let devices = Devices::new(alloc, b"")?;
        let tapes = TapeRack::failing(alloc, vec![in alloc; call]?);
        Ok(Devices { tapes, ..devices })
    }
}

/// Runs a main within a bound.
pub fn run_over<R: Threads + Sync, S: Source, O: Sink, T: Tapes>(
    rt: &R,
    alloc: Global,
    globals: &Globals,
    main: GlobalId,
    bound: u64,
    input: &mut S,
    out: &mut O,
    tapes: &mut T,
) -> Result<RunEnd, Fail>
    requires runnable { IsRunnable (env globals.now) main }
    requires empty { ForSome (T.tapes tapes.old) (λ all. all ≡ []) }
{
    let compiled = lower_all(rt, alloc, globals, 1)?;
    compiled_is_code();
    let bound = bound.min(4_000_000_000);
    Ok(run_program(alloc, &compiled, main, bound, input, out, tapes)?)
}

/// What a run leaves: its end, its output and its tapes.
fn told(alloc: Global, how: RunHow, devices: &Devices) -> Result<String, Fail> {
    let output = str::from_utf8(&devices.out.bytes)?;
    let tapes = &devices.tapes.tapes;
    Ok(format!(in alloc; "{how:?} {output:?} {tapes:?}")?)
}

/// Runs a main over these devices, and tells after how many contractions it ended, and what it
/// leaves.
pub fn left<R: Threads + Sync>(
    rt: &R,
    alloc: Global,
    globals: &Globals,
    main: GlobalId,
    bound: u64,
    mut devices: Devices,
) -> Result<(u64, String), Fail>
    requires runnable { IsRunnable (env globals.now) main }
    requires empty { devices.tapes.tapes.items ≡ [] }
{
    let Devices { input, out, tapes } = &mut devices;
    let end = run_over(rt, alloc, globals, main, bound, input, out, tapes)?;
    Ok((end.used, told(alloc, end.how, &devices)?))
}

/// Runs a main over devices of which no call fails, once for each row.
pub fn rows<R: Threads + Sync>(
    rt: &R,
    alloc: Global,
    globals: &Globals,
    main: GlobalId,
    rows: &[Row<'_>],
) -> Result<(), Fail>
    requires runnable { IsRunnable (env globals.now) main }
{
    for (bound, input, count, want) in rows {
        let devices = Devices::new(alloc, input)?;
        let (used, left) = left(rt, alloc, globals, main, *bound, devices)?;
        if left.as_str() != *want || count.is_some_and(|count| count != used) {
            return Err(Fail::new(format!(in alloc; "{left} after {used}")?));
        }
    }
    Ok(())
}
