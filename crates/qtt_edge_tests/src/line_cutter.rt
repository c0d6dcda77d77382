//! Lines of sources in memory.

use qtt_edge::{ByteSource, LineCutter, LineError, Next, Source};
use std::process::Abort;
use std::test::Fail;

fn is_line(next: &Next, text: &str) -> bool {
    matches!(next, Next::Line(line) if line.as_str() == text)
}

fn has_bytes(next: &Next, count: usize) -> bool {
    matches!(next, Next::Line(line) if line.as_str().len() == count)
}

fn expect_line<S: Source>(
    rt: &impl Abort,
    cutter: &mut LineCutter,
    source: &mut S,
    text: &str,
) -> Result<(), LineError> {
    let next = cutter.next_line(source)?;
    assert!(rt; is_line(&next, text), "for {text}");
    Ok(())
}

#[test]
fn lines_end_by_byte_10(rt: HostRuntime) -> Result<(), Fail> {
    let mut source = ByteSource::new(b"a\r\n\nb".to_vec(rt.alloc())?);
    let mut cutter = LineCutter::new(rt.alloc())?;
    for text in ["a\r", "", "b"] {
        expect_line(&rt, &mut cutter, &mut source, text)?;
    }
    assert!(rt; matches!(cutter.next_line(&mut source)?, Next::End));
    assert!(rt; matches!(cutter.next_line(&mut source)?, Next::End));
    Ok(())
}

#[test]
fn long_lines_are_refused(rt: HostRuntime) -> Result<(), Fail> {
    let mut bytes = vec![in rt.alloc(); b'a'; 65_536]?;
    bytes.push(b'\n')?;
    for _ in 0..65_537 {
        bytes.push(b'b')?;
    }
    let mut source = ByteSource::new(bytes);
    let mut cutter = LineCutter::new(rt.alloc())?;
    let line = cutter.next_line(&mut source)?;
    assert!(rt; has_bytes(&line, 65_536));
    assert!(rt; matches!(cutter.next_line(&mut source)?, Next::TooLong));
    Ok(())
}

#[test]
fn other_bytes_than_text_are_refused(rt: HostRuntime) -> Result<(), Fail> {
    let mut source = ByteSource::new(b"\xff\n".to_vec(rt.alloc())?);
    let mut cutter = LineCutter::new(rt.alloc())?;
    assert!(rt; matches!(cutter.next_line(&mut source)?, Next::NotUtf8));
    Ok(())
}

#[test]
fn a_fault_in_mid_line_is_told(rt: HostRuntime) -> Result<(), Fail> {
    let failing = vec![in rt.alloc(); 1]?;
    let mut source = ByteSource::failing(b"ab".to_vec(rt.alloc())?, failing);
    let mut cutter = LineCutter::new(rt.alloc())?;
    let failed = cutter.next_line(&mut source);
    assert!(rt; matches!(failed, Err(LineError::Fault)));
    expect_line(&rt, &mut cutter, &mut source, "ab")?;
    Ok(())
}
