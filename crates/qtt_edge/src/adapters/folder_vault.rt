//! A folder of files as a vault.

ghost use Rattle.std.specs.Prelude.{◌≡◌, ◌≤◌, None, IfOk, string_bytes, vec_len};
ghost use Rattle.qtt_edge.specs.Path.{path_of, with_slashes};

use crate::counts::risen;
use crate::vault::{Vault, VaultError};
use std::alloc::{AllocError, Global};
use std::io::{ErrorKind, Read};
use std::rt::Files;
use std::{fs, io};

/// The files of a folder: the module `A.B` is the file `A/B.qtt`.
///
/// A file or folder that is missing, and a file that stands where a folder should, is a miss.
/// Every other error is a fault.
#[derive(Drop)]
pub struct FolderVault<'a, R> {
    rt: &'a R,
    folder: &'a str,
    faults: u64,
    misses: u64,
}

impl<'a, R> FolderVault<'a, R> {
    pub fn new(rt: &'a R, folder: &'a str) -> FolderVault<'a, R> {
        FolderVault {
            rt,
            folder,
            faults: 0,
            misses: 0,
        }
    }
}

impl<R: Files> Vault for FolderVault<'_, R> {
    ghost texts = { λ _. None };

    ghost faults = { λ s. s.faults };

    ghost misses = { λ s. s.misses };

    fn read(&mut self, alloc: Global, name: &str, max: usize) -> Result<Vec<u8>, VaultError> {
        let Ok(path) = path_of(alloc, self.folder, name) else {
            return Err(VaultError::Memory);
        };
        let read = match fs::open(self.rt, path.as_str()) {
            Ok(mut file) => first_bytes(alloc, &mut file, max),
            Err(error) => Err(why(&error)),
        };
        match read {
            Err(VaultError::Failed) => self.faults = risen(self.faults),
            Err(VaultError::Absent) => self.misses = risen(self.misses),
            Ok(_) | Err(VaultError::Memory) => {}
        }
        read
    }
}

fn path_of(alloc: Global, folder: &str, name: &str) -> Result<String, AllocError>
    ensures { IfOk result (λ path. string_bytes path ≡ path_of folder.now name.now) }
{
    let mut path = String::from_str(alloc, folder)?;
    path.push('/')?;
    path.push_str(with_slashes(alloc, name)?.as_str())?;
    path.push_str(".qtt")?;
    Ok(path)
}

fn with_slashes(alloc: Global, name: &str) -> Result<String, AllocError>
    ensures { IfOk result (λ path. string_bytes path ≡ with_slashes name.now) }
{
    name.chars()
        .map(|c| if c == '.' { '/' } else { c })
        .collect(alloc)
}

fn why(error: &io::Error) -> VaultError {
    match error.kind() {
        ErrorKind::NotFound | ErrorKind::NotADirectory => VaultError::Absent,
        _ => VaultError::Failed,
    }
}

/// At most `max` bytes of a reader.
fn first_bytes<F: Read>(alloc: Global, file: &mut F, max: usize) -> Result<Vec<u8>, VaultError>
    ensures { IfOk result (λ text. vec_len text ≤ max) }
{
    let mut text = Vec::new(alloc);
    let mut buf = [0u8; 4096];
    'reads: for _ in 0..u64::MAX {
        let room = buf.len().min(max - text.len());
        if room == 0 {
            return Ok(text);
        }
        let Ok(count) = file.read(&mut buf[..room]) else {
            return Err(VaultError::Failed);
        };
        if count == 0 {
            return Ok(text);
        }
        if text.extend_from_slice(&buf[..count]).is_err() {
            return Err(VaultError::Memory);
        }
    }
    Err(VaultError::Failed)
}
