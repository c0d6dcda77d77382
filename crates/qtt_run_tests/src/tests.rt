//! Runs of the worked programs, over devices in memory and over files.

mod running;

use qtt_edge::{FileTapes, StdSink, StdSource};
use qtt_programs::terms::item;
use qtt_programs::{families, programs};
use running::{DEFAULT, Devices, left, rows, run_over};
use std::fs;
use std::test::Fail;

#[test]
fn hello_and_identity(rt: HostRuntime) -> Result<(), Fail> {
    let a = rt.alloc();
    let hello = programs::hello(a)?;
    let table = [
        (DEFAULT, b"".as_slice(), Some(2), "Ended \"hello\\n\" []"),
        (2, b"", Some(2), "Ended \"hello\\n\" []"),
        (1, b"", Some(1), "Bound \"\" []"),
        (0, b"", Some(0), "Bound \"\" []"),
    ];
    rows(&rt, a, &hello, item(0), &table)?;
    let identity = programs::identity(a)?;
    let table = [(DEFAULT, b"".as_slice(), Some(5), "Ended \"3\\n\" []")];
    rows(&rt, a, &identity, item(1), &table)
}

/// An argument at 0, and a field at 0, are never evaluated.
#[test]
fn erased_parts(rt: HostRuntime) -> Result<(), Fail> {
    let a = rt.alloc();
    let loops = programs::loops(a)?;
    let table = [
        (5, b"".as_slice(), Some(5), "Ended \"ok\\n\" []"),
        (4, b"", Some(4), "Bound \"\" []"),
    ];
    rows(&rt, a, &loops, item(2), &table)?;
    let boxed = families::boxed(a)?;
    let table = [(DEFAULT, b"".as_slice(), Some(5), "Ended \"boxed\\n\" []")];
    rows(&rt, a, &boxed, item(4), &table)?;
    let deletes = programs::deletes(a)?;
    let table = [(DEFAULT, b"".as_slice(), None, "Ended \"1\\n\" []")];
    rows(&rt, a, &deletes, item(1), &table)
}

/// Programs that go on for ever; the second evaluates a false proof.
#[test]
fn endless_programs(rt: HostRuntime) -> Result<(), Fail> {
    let a = rt.alloc();
    let forever = programs::forever(a)?;
    let table = [(10, b"".as_slice(), Some(10), "Bound \"x\\nx\\n\" []")];
    rows(&rt, a, &forever, item(1), &table)?;
    let false_proof = families::false_proof(a)?;
    let table = [(50, b"".as_slice(), Some(50), "Bound \"\" []")];
    rows(&rt, a, &false_proof, item(4), &table)
}

/// The left argument traps first.
#[test]
fn traps(rt: HostRuntime) -> Result<(), Fail> {
    let a = rt.alloc();
    let zero_first = programs::zero_first(a)?;
    let table = [
        (
            DEFAULT,
            b"".as_slice(),
            None,
            "Trapped(DivisionByZero) \"\" []",
        ),
        (1, b"", None, "Trapped(DivisionByZero) \"\" []"),
    ];
    rows(&rt, a, &zero_first, item(1), &table)?;
    let no_clause_first = programs::no_clause_first(a)?;
    let table = [(
        DEFAULT,
        b"".as_slice(),
        None,
        "Trapped(MissingClause) \"\" []",
    )];
    rows(&rt, a, &no_clause_first, item(1), &table)?;
    let divides = programs::divides_by_zero(a)?;
    let table = [(
        DEFAULT,
        b"".as_slice(),
        None,
        "Trapped(DivisionByZero) \"\" []",
    )];
    rows(&rt, a, &divides, item(0), &table)
}

#[test]
fn numbers(rt: HostRuntime) -> Result<(), Fail> {
    let a = rt.alloc();
    let table = [(
        DEFAULT,
        b"".as_slice(),
        None,
        "Ended \"-9223372036854775808\\n\" []",
    )];
    let least = programs::least_by_minus_one(a)?;
    rows(&rt, a, &least, item(0), &table)?;
    let greatest = programs::greatest_and_one(a)?;
    rows(&rt, a, &greatest, item(0), &table)
}

/// Overlapping clauses; a value of 65 nodes whose tree has more than 2^64; and a loop of many
/// turns.
#[test]
fn larger_programs(rt: HostRuntime) -> Result<(), Fail> {
    let a = rt.alloc();
    let overlapping = programs::overlapping(a)?;
    let table = [(DEFAULT, b"".as_slice(), Some(7), "Ended \"1\\n\" []")];
    rows(&rt, a, &overlapping, item(1), &table)?;
    let doubling = families::doubling(a)?;
    let table = [(DEFAULT, b"".as_slice(), None, "Ended \"64\\n\" []")];
    rows(&rt, a, &doubling, item(6), &table)?;
    let counting = programs::counting(a, 20_000)?;
    let table = [(DEFAULT, b"".as_slice(), None, "Ended \"0\\n\" []")];
    rows(&rt, a, &counting, item(1), &table)
}

const CLOSED: &str = "Ended \"\" [Tape { name: a, lines: [x, y], is_open: false }]";

const FINISHED: &str = "Ended \"\" [Tape { name: a, lines: [], is_open: false }]";

/// A tape is closed once, also by a function that is called once; and so it is after a trap.
#[test]
fn tapes(rt: HostRuntime) -> Result<(), Fail> {
    let a = rt.alloc();
    let handles = programs::handles(a)?;
    rows(
        &rt,
        a,
        &handles,
        item(0),
        &[(DEFAULT, b"", Some(14), CLOSED)],
    )?;
    let closing_later = programs::closing_later(a)?;
    rows(
        &rt,
        a,
        &closing_later,
        item(0),
        &[(DEFAULT, b"", None, FINISHED)],
    )?;
    let trapping = programs::trapping(a)?;
    let table = [
        (
            5,
            b"".as_slice(),
            None,
            "Trapped(DivisionByZero) \"\" [Tape { name: a, lines: [], is_open: false }]",
        ),
        (
            4,
            b"",
            None,
            "Bound \"\" [Tape { name: a, lines: [], is_open: true }]",
        ),
    ];
    rows(&rt, a, &trapping, item(0), &table)
}

/// Lines without a newline at the end, with carriage returns, and with bytes that are no text.
#[test]
fn echoed_lines(rt: HostRuntime) -> Result<(), Fail> {
    let a = rt.alloc();
    let echo = programs::echo(a)?;
    let table = [
        (DEFAULT, b"".as_slice(), None, "Ended \"\" []"),
        (DEFAULT, b"a", None, "Ended \"a\\n\" []"),
        (DEFAULT, b"a\n", None, "Ended \"a\\n\" []"),
        (DEFAULT, b"a\r\n\nb", None, "Ended \"a\\r\\n\\nb\\n\" []"),
        (DEFAULT, b"\xff\n", None, "Trapped(BadInputLine) \"\" []"),
    ];
    rows(&rt, a, &echo, item(1), &table)
}

/// A line of 65,536 bytes is echoed, and a longer one is none.
#[test]
fn long_lines(rt: HostRuntime) -> Result<(), Fail> {
    let a = rt.alloc();
    let echo = programs::echo(a)?;
    let line = vec![in a; b'a'; 65_536]?;
    let want = format!(in a; "Ended \"{}\\n\" []", str::from_utf8(&line)?)?;
    rows(
        &rt,
        a,
        &echo,
        item(1),
        &[(DEFAULT, &line, None, want.as_str())],
    )?;
    let longer = vec![in a; b'a'; 65_537]?;
    let want = "Trapped(BadInputLine) \"\" []";
    rows(&rt, a, &echo, item(1), &[(DEFAULT, &longer, None, want)])
}

/// The sink fails at its second put, of which it takes so many bytes.
#[test]
fn failing_puts(rt: HostRuntime) -> Result<(), Fail> {
    let a = rt.alloc();
    let two_lines = programs::two_lines(a)?;
    let main = item(0);
    rows(
        &rt,
        a,
        &two_lines,
        main,
        &[(DEFAULT, b"", Some(6), "Ended \"a\\nb\\n\" []")],
    )?;
    let table = [
        (0, 0, "SinkFault \"\" []"),
        (0, 1, "SinkFault \"a\" []"),
        (1, 0, "SinkFault \"a\\n\" []"),
        (1, 1, "SinkFault \"a\\nb\" []"),
    ];
    for (call, taken, want) in table {
        let devices = Devices::failing_put(a, call, taken)?;
        let (_, left) = left(&rt, a, &two_lines, main, DEFAULT, devices)?;
        assert_eq!(rt; left.as_str(), want);
    }
    Ok(())
}

/// The tapes fail at each of the calls: create, append, append and close; and at the close after
/// a trap.
#[test]
fn failing_tapes(rt: HostRuntime) -> Result<(), Fail> {
    let a = rt.alloc();
    let handles = programs::handles(a)?;
    let table = [
        (0, "TapeFault \"\" []"),
        (
            1,
            "TapeFault \"\" [Tape { name: a, lines: [], is_open: true }]",
        ),
        (
            2,
            "TapeFault \"\" [Tape { name: a, lines: [x], is_open: true }]",
        ),
        (
            3,
            "TapeFault \"\" [Tape { name: a, lines: [x, y], is_open: true }]",
        ),
    ];
    for (call, want) in table {
        let devices = Devices::failing_tape(a, call)?;
        let (_, left) = left(&rt, a, &handles, item(0), DEFAULT, devices)?;
        assert_eq!(rt; left.as_str(), want);
    }
    let trapping = programs::trapping(a)?;
    let devices = Devices::failing_tape(a, 1)?;
    let (_, left) = left(&rt, a, &trapping, item(0), DEFAULT, devices)?;
    let want = "TapeFault \"\" [Tape { name: a, lines: [], is_open: true }]";
    assert_eq!(rt; left.as_str(), want);
    Ok(())
}

const TEN_LINES: &[u8] = b"0\n1\n2\n3\n4\n5\n6\n7\n8\n9\n";

/// The source fails at its first pull, and then behind the ten lines.
#[test]
fn failing_pulls(rt: HostRuntime) -> Result<(), Fail> {
    let a = rt.alloc();
    let echo = programs::echo(a)?;
    let table = [
        (0, "SourceFault \"\" []"),
        (
            1,
            "SourceFault \"0\\n1\\n2\\n3\\n4\\n5\\n6\\n7\\n8\\n9\\n\" []",
        ),
    ];
    for (call, want) in table {
        let devices = Devices::failing_pull(a, TEN_LINES, call)?;
        let (_, left) = left(&rt, a, &echo, item(1), DEFAULT, devices)?;
        assert_eq!(rt; left.as_str(), want);
    }
    Ok(())
}

/// Files are echoed, and are tapes.
#[test]
fn files(rt: HostRuntime) -> Result<(), Fail> {
    let a = rt.alloc();
    fs::create_dir_all(&rt, "run_test")?;
    fs::write(&rt, "run_test/input", "a\nb")?;
    let mut tapes = FileTapes::new(a, &rt, "run_test");
    let mut input = StdSource::new(fs::open(&rt, "run_test/input")?);
    let mut out = StdSink::new(fs::create(&rt, "run_test/output")?);
    let echo = programs::echo(a)?;
    run_over(
        &rt,
        a,
        &echo,
        item(1),
        DEFAULT,
        &mut input,
        &mut out,
        &mut tapes,
    )?;
    let handles = programs::handles(a)?;
    run_over(
        &rt,
        a,
        &handles,
        item(0),
        DEFAULT,
        &mut input,
        &mut out,
        &mut tapes,
    )?;
    let output = fs::read_to_string(&rt, "run_test/output")?;
    assert_eq!(rt; output.as_str(), "a\nb\n");
    let tape = fs::read_to_string(&rt, "run_test/a")?;
    assert_eq!(rt; tape.as_str(), "x\ny\n");
    fs::remove_dir_all(&rt, "run_test")?;
    Ok(())
}
