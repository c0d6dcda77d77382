//! Files as tapes.

ghost use Rattle.std.specs.Prelude.{◌≡◌, ◌++◌, ◌∷◌, [], None, Some, true, false, length, is_some, slice_get, slice_set};
ghost use Rattle.std.specs.Prelude.{IfOk, IsOk, OnOk, OnErr, IsErrOf, ◌↔◌};
ghost use Rattle.qtt_edge.specs.Counts.{Counts};
ghost use Rattle.qtt_edge.specs.FileTapes.{open_flags};
ghost use Rattle.qtt_edge.specs.declared.adapters.file_tapes.TheConstants.{MOST_TAPES};

use crate::counts::risen;
use crate::tapes::{TapeError, Tapes};
use std::alloc::{AllocError, Global};
use std::fs::OpenOptions;
use std::io::Write;
use std::rt::Files;
use std::{fs, io};

/// The files of a folder, one for each name, which hold the lines of their tapes.
///
/// The first tape of a name empties the file of that name. A later tape of the same name adds to
/// it.
#[derive(Drop)]
pub struct FileTapes<'a, R: Files> {
    rt: &'a R,
    alloc: Global,
    folder: &'a str,
    tapes: Vec<FileTape<R::File>>,
    faults: u64,
}

/// A tape: its name, and its file while it is open.
#[derive(Drop)]
pub struct FileTape<F> {
    name: String,
    file: Option<F>,
}

/// How many tapes there can be.
pub const MOST_TAPES: usize = 4_294_967_295;

impl<'a, R: Files> FileTapes<'a, R> {
    pub fn new(alloc: Global, rt: &'a R, folder: &'a str) -> FileTapes<'a, R>
        ensures { open_flags result.tapes.items ≡ [] }
    {
        FileTapes {
            rt,
            alloc,
            folder,
            tapes: Vec::new(alloc),
            faults: 0,
        }
    }

    /// Opens the file of a name. There is an end of numbers, which is a fault.
    pub fn open(&mut self, name: &str) -> Result<u32, TapeError>
        ensures number { IfOk result (λ number. number ≡ length (open_flags self.old.tapes.items)) }
        ensures ok { OnOk result (open_flags self.new.tapes.items ≡ open_flags
            self.old.tapes.items ++ true ∷ []) }
        ensures err { OnErr result
            (open_flags self.new.tapes.items ≡ open_flags self.old.tapes.items) }
        ensures full { length (open_flags self.old.tapes.items) ≡ MOST_TAPES →
            IsErrOf result TapeError.Failed }
        ensures failed { Counts self.old.faults self.new.faults (IsErrOf result TapeError.Failed) }
    {
        let number = self.tapes.len();
        if number >= MOST_TAPES {
            return Err(self.fault());
        }
        match self.opened(name) {
            Ok(tape) => match self.tapes.push(tape) {
                Ok(()) => Ok(number as u32),
                Err(_) => Err(TapeError::Memory),
            },
            Err(TapeError::Failed) => Err(self.fault()),
            Err(TapeError::Memory) => Err(TapeError::Memory),
        }
    }

    /// Writes a line to the file of an open tape. A number that is not open is a fault.
    pub fn write(&mut self, number: u32, line: &str) -> Result<(), TapeError>
        ensures ok { OnOk result (slice_get (open_flags self.old.tapes.items) number ≡ Some true) }
        ensures err { OnErr result (IsErrOf result TapeError.Failed) }
        ensures kept { open_flags self.new.tapes.items ≡ open_flags self.old.tapes.items }
        ensures failed { Counts self.old.faults self.new.faults (IsErrOf result TapeError.Failed) }
    {
        let index = number as usize;
        if index >= self.tapes.len() {
            return Err(self.fault());
        }
        match self.tapes[index].write(line) {
            Ok(()) => Ok(()),
            Err(_) => Err(self.fault()),
        }
    }

    /// Lets the file of an open tape go. A number that is not open is a fault.
    pub fn shut(&mut self, number: u32) -> Result<(), TapeError>
        ensures open { IsOk result ↔
            (slice_get (open_flags self.old.tapes.items) number ≡ Some true) }
        ensures ok { OnOk result (open_flags self.new.tapes.items ≡ slice_set
            (open_flags self.old.tapes.items) number false) }
        ensures err { OnErr result
            (open_flags self.new.tapes.items ≡ open_flags self.old.tapes.items) }
        ensures error { OnErr result (IsErrOf result TapeError.Failed) }
        ensures failed { Counts self.old.faults self.new.faults (IsErrOf result TapeError.Failed) }
    {
        let index = number as usize;
        if index >= self.tapes.len() {
            return Err(self.fault());
        }
        if !self.tapes[index].close() {
            return Err(self.fault());
        }
        Ok(())
    }

    fn fault(&mut self) -> TapeError
        ensures error { result ≡ TapeError.Failed }
        ensures tapes { self.new.tapes ≡ self.old.tapes }
        ensures counted { Counts self.old.faults self.new.faults (Unit {0}) }
    {
        self.faults = risen(self.faults);
        TapeError::Failed
    }

    fn opened(&self, name: &str) -> Result<FileTape<R::File>, TapeError>
        ensures { IfOk result (λ tape. is_some tape.file ≡ true) }
    {
        let path = path_of(self.alloc, self.folder, name).map_err(|_| TapeError::Memory)?;
        let is_known = self.tapes.iter().any(|tape| tape.name.as_str() == name);
        let Ok(file) = open_file(self.rt, path.as_str(), !is_known) else {
            return Err(TapeError::Failed);
        };
        let name = String::from_str(self.alloc, name).map_err(|_| TapeError::Memory)?;
        Ok(FileTape {
            name,
            file: Some(file),
        })
    }
}

impl<R: Files> Tapes for FileTapes<'_, R> {
    ghost tapes = { λ _. None };

    ghost faults = { λ s. s.faults };

    fn create(&mut self, name: &str) -> Result<u32, TapeError> {
        self.open(name)
    }

    fn append(&mut self, number: u32, text: &str) -> Result<(), TapeError> {
        self.write(number, text)
    }

    fn close(&mut self, number: u32) -> Result<(), TapeError> {
        self.shut(number)
    }
}

impl<F: Write + Drop> FileTape<F> {
    fn write(&mut self, line: &str) -> io::Result<()>
        ensures ok { OnOk result (is_some self.old.file ≡ true) }
        ensures kept { is_some self.new.file ≡ is_some self.old.file }
    {
        match &mut self.file {
            Some(file) => {
                file.write_all(line.as_bytes())?;
                file.write_all(b"\n")
            }
            None => Err(io::Error::from(io::ErrorKind::NotFound)),
        }
    }

    /// Whether the tape was open.
    fn close(&mut self) -> bool
        ensures was { result ≡ is_some self.old.file }
        ensures closed { is_some self.new.file ≡ false }
    {
        self.file.take().is_some()
    }
}

fn path_of(alloc: Global, folder: &str, name: &str) -> Result<String, AllocError> {
    format!(in alloc; "{folder}/{name}")
}

fn open_file<R: Files>(rt: &R, path: &str, is_new: bool) -> io::Result<R::File> {
    if is_new {
        let _emptied = fs::create(rt, path)?;
    }
    let mut options = OpenOptions::new();
    options.append(true);
    options.open(rt, path)
}
