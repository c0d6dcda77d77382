//! What real files hold, once for each adapter.

use qtt_edge::{
    FileTapes, FolderVault, Sink, SinkError, Source, SourceError, StdSink, StdSource, TapeError,
    Tapes, Vault, VaultError,
};
use std::fs;
use std::test::Fail;

#[test]
fn a_folder_is_a_vault(rt: HostRuntime) -> Result<(), Fail> {
    fs::create_dir_all(&rt, "vault_test/A")?;
    fs::create_dir_all(&rt, "vault_test/Folder.qtt")?;
    fs::write(&rt, "vault_test/A/B.qtt", "module A.B\n")?;
    let mut vault = FolderVault::new(&rt, "vault_test");
    let all = vault.read(rt.alloc(), "A.B", 100)?;
    assert!(rt; all.as_slice() == b"module A.B\n".as_slice());
    let front = vault.read(rt.alloc(), "A.B", 6)?;
    assert!(rt; front.as_slice() == b"module".as_slice());
    for name in ["A.C", "C.B", "A"] {
        let absent = vault.read(rt.alloc(), name, 6);
        assert!(rt; matches!(absent, Err(VaultError::Absent)), "at {name}");
    }
    // A file stands where a folder should, and the other way round.
    fs::write(&rt, "vault_test/File", "")?;
    let absent = vault.read(rt.alloc(), "File.B", 6);
    assert!(rt; matches!(absent, Err(VaultError::Absent)));
    let failed = vault.read(rt.alloc(), "Folder", 6);
    assert!(rt; matches!(failed, Err(VaultError::Failed)));
    fs::remove_dir_all(&rt, "vault_test")?;
    Ok(())
}

#[test]
fn files_are_tapes(rt: HostRuntime) -> Result<(), Fail> {
    fs::create_dir_all(&rt, "tapes_test")?;
    fs::write(&rt, "tapes_test/a", "of an earlier run")?;
    let mut tapes = FileTapes::new(rt.alloc(), &rt, "tapes_test");
    assert_eq!(rt; tapes.create("a")?, 0);
    tapes.append(0, "x")?;
    tapes.append(0, "y")?;
    assert_eq!(rt; tapes.create("a")?, 1);
    tapes.append(1, "z")?;
    tapes.close(0)?;
    assert_eq!(rt; tapes.append(0, "w"), Err(TapeError::Failed));
    assert_eq!(rt; tapes.close(0), Err(TapeError::Failed));
    assert_eq!(rt; tapes.close(7), Err(TapeError::Failed));
    assert_eq!(rt; tapes.create("no/such"), Err(TapeError::Failed));
    tapes.close(1)?;
    let text = fs::read_to_string(&rt, "tapes_test/a")?;
    assert!(rt; text.as_str() == "x\ny\nz\n");
    fs::remove_dir_all(&rt, "tapes_test")?;
    Ok(())
}

#[test]
fn a_file_is_a_sink_and_a_source(rt: HostRuntime) -> Result<(), Fail> {
    let mut sink = StdSink::new(fs::create(&rt, "stream_test")?);
    sink.put(b"ab")?;
    sink.put(b"c")?;
    let mut source = StdSource::new(fs::open(&rt, "stream_test")?);
    let mut buf = [0u8; 8];
    assert_eq!(rt; source.pull(&mut buf), Ok(3));
    assert!(rt; buf.starts_with(b"abc"));
    assert_eq!(rt; source.pull(&mut buf), Ok(0));
    // A file that was opened for reading takes nothing, and a folder gives nothing.
    let mut closed = StdSink::new(fs::open(&rt, "stream_test")?);
    assert_eq!(rt; closed.put(b"d"), Err(SinkError::Failed));
    let mut folder = StdSource::new(fs::open(&rt, ".")?);
    assert_eq!(rt; folder.pull(&mut buf), Err(SourceError::Failed));
    fs::remove_file(&rt, "stream_test")?;
    Ok(())
}
