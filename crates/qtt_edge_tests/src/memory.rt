//! The vault, the sink, the source and the tapes in memory.

use qtt_edge::{
    ByteSink, ByteSource, FailingPut, MapVault, Sink, SinkError, Source, SourceError, TapeError,
    TapeRack, Tapes, Vault, VaultError,
};
use std::collections::BTreeMap;
use std::test::Fail;

#[test]
fn a_vault_gives_the_first_bytes(rt: HostRuntime) -> Result<(), Fail> {
    let mut texts = BTreeMap::new(rt.alloc());
    let name = String::from_str(rt.alloc(), "Main")?;
    texts.insert(name, b"module Main".to_vec(rt.alloc())?)?;
    let mut vault = MapVault::failing(texts, vec![in rt.alloc(); 2]?);
    let all = vault.read(rt.alloc(), "Main", 100)?;
    assert!(rt; all.as_slice() == b"module Main".as_slice());
    let front = vault.read(rt.alloc(), "Main", 6)?;
    assert!(rt; front.as_slice() == b"module".as_slice());
    let failed = vault.read(rt.alloc(), "Main", 6);
    assert!(rt; matches!(failed, Err(VaultError::Failed)));
    let absent = vault.read(rt.alloc(), "Gone", 6);
    assert!(rt; matches!(absent, Err(VaultError::Absent)));
    Ok(())
}

#[test]
fn a_source_goes_on_behind_a_fault(rt: HostRuntime) -> Result<(), Fail> {
    let bytes = b"abc".to_vec(rt.alloc())?;
    let mut source = ByteSource::failing(bytes, vec![in rt.alloc(); 1]?);
    let mut buf = [0u8; 2];
    assert_eq!(rt; source.pull(&mut buf), Ok(2));
    assert!(rt; buf == *b"ab");
    assert_eq!(rt; source.pull(&mut buf), Err(SourceError::Failed));
    assert_eq!(rt; source.pull(&mut buf), Ok(1));
    assert_eq!(rt; source.pull(&mut buf), Ok(0));
    Ok(())
}

#[test]
fn a_sink_takes_a_front_and_fails(rt: HostRuntime) -> Result<(), Fail> {
    let failing = vec![in rt.alloc(); FailingPut { call: 1, taken: 1 }]?;
    let mut sink = ByteSink::failing(rt.alloc(), failing);
    assert_eq!(rt; sink.put(b"a\n"), Ok(()));
    assert_eq!(rt; sink.put(b"b\n"), Err(SinkError::Failed));
    assert!(rt; sink.bytes.as_slice() == b"a\nb".as_slice());
    Ok(())
}

#[test]
fn a_tape_keeps_its_lines(rt: HostRuntime) -> Result<(), Fail> {
    let mut rack = TapeRack::failing(rt.alloc(), vec![in rt.alloc(); 1]?);
    let number = rack.create("a")?;
    assert_eq!(rt; number, 0);
    assert_eq!(rt; rack.append(0, "x"), Err(TapeError::Failed));
    rack.append(0, "x")?;
    rack.append(0, "y")?;
    rack.close(0)?;
    assert_eq!(rt; rack.tapes.len(), 1);
    let tape = &rack.tapes[0];
    assert!(rt; !tape.is_open && tape.lines.len() == 2);
    assert!(rt; tape.lines[1].as_str() == "y");
    Ok(())
}
