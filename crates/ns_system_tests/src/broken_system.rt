//! A system in memory, of which single calls fail.

ghost use Rattle.std.specs.Prelude.{None, ◌≤◌};

use ns_system::arguments::Words;
use ns_system::drive::Drive;
use ns_system::outlet::Outlet;
use std::alloc::Global;
use std::env::FillError;
use std::fs::{Metadata, Permissions};
use std::io::{self, ErrorKind, Read};
use std::path::PathBuf;

/// What takes a byte at a time, and has room for so many. Its first write is interrupted, and its second would block until it
/// is waited for.
#[derive(Drop)]
pub struct Narrow {
    pub bytes: [u8; 3],
    room: usize,
    taken: usize,
    calls: u64,
    is_waited_for: bool,
}

impl Narrow {
    pub fn with_room(room: usize) -> Narrow {
        Narrow {
            bytes: [0; 3],
            room,
            taken: 0,
            calls: 0,
            is_waited_for: false,
        }
    }

    fn take(&mut self, byte: u8) -> usize
        ensures { result ≤ 1 }
    {
        if self.taken < self.room && self.taken < 3 {
            self.bytes[self.taken] = byte;
            self.taken += 1;
            1
        } else {
            0
        }
    }
}

impl Outlet for Narrow {
    ghost written = { λ _. None };

    fn write(&mut self, bytes: &[u8]) -> io::Result<usize> {
        self.calls = self.calls.saturating_add(1);
        match bytes {
            _ if self.calls == 1 => Err(io::Error::from(ErrorKind::Interrupted)),
            _ if !self.is_waited_for => Err(io::Error::from(ErrorKind::WouldBlock)),
            [first, ..] => Ok(self.take(*first)),
            [] => Ok(0),
        }
    }

    fn wait(&mut self) {
        self.is_waited_for = true;
    }
}

/// The calls of a drive.
#[derive(Clone, Copy, PartialEq, Eq)]
pub enum Call {
    Open,
    Read,
    Begin,
    Permit,
    Write,
    Sync,
    Place,
    None,
}

/// What reads as `abc`, a byte at a time, of which the first read is interrupted.
#[derive(Drop)]
pub struct Letters {
    next: u8,
    is_broken: bool,
}

impl Read for Letters {
    fn read(&mut self, buffer: &mut [u8]) -> io::Result<usize> {
        let next = self.next;
        self.next = next.saturating_add(1);
        match buffer {
            _ if next == b'a' - 1 => Err(io::Error::from(ErrorKind::Interrupted)),
            _ if self.is_broken => Err(io::Error::from(ErrorKind::Other)),
            [first, ..] if next <= b'c' => {
                *first = next;
                Ok(1)
            }
            _ => Ok(0),
        }
    }
}

/// A drive with one file, of which one call fails. It counts the drafts that there are, and those that were put in their places.
#[derive(Drop)]
pub struct Broken {
    pub failing: Call,
    pub drafts: u64,
    pub placed: u64,
}

impl Broken {
    fn answer(&self, call: Call) -> io::Result<()> {
        if self.failing == call {
            Err(io::Error::from(ErrorKind::PermissionDenied))
        } else {
            Ok(())
        }
    }
}

impl Drive for Broken {
    type Reader = Letters;

    type Draft = Narrow;

    ghost kept = { λ _. None };

    ghost synced = { λ _. None };

    fn open(&mut self, name: &str) -> io::Result<Letters> {
        self.answer(Call::Open)?;
        if name != "in/abc" {
            return Err(io::Error::from(ErrorKind::NotFound));
        }
        let is_broken = self.failing == Call::Read;
        let next = b'a' - 1;
        Ok(Letters { next, is_broken })
    }

    fn metadata(&mut self, _name: &str) -> io::Result<Metadata> {
        Ok(Metadata::of_file(3))
    }

    fn followed(&mut self, _alloc: Global, _name: &str) -> io::Result<PathBuf> {
        Err(io::Error::from(ErrorKind::NotFound))
    }

    fn is_writable(&mut self, _name: &str) -> bool {
        true
    }

    /// There is another draft of the first name.
    fn begin(&mut self, name: &str) -> io::Result<Narrow> {
        self.answer(Call::Begin)?;
        if name != "in/.nspk-1" {
            return Err(io::Error::from(ErrorKind::AlreadyExists));
        }
        self.drafts = self.drafts.saturating_add(1);
        let room = if self.failing == Call::Write { 1 } else { 3 };
        Ok(Narrow::with_room(room))
    }

    fn permit(&mut self, _draft: &mut Narrow, _permissions: Permissions) -> io::Result<()> {
        self.answer(Call::Permit)
    }

    fn sync(&mut self, _draft: &mut Narrow) -> io::Result<()> {
        self.answer(Call::Sync)
    }

    fn place(&mut self, draft: Narrow, from: &str, to: &str) -> io::Result<()> {
        self.answer(Call::Place)?;
        if from == "in/.nspk-1" && to == "in/abc" && draft.bytes == *b"abc" {
            self.drafts = self.drafts.saturating_sub(1);
            self.placed = self.placed.saturating_add(1);
        }
        Ok(())
    }

    fn remove(&mut self, name: &str) {
        if name == "in/.nspk-1" {
            self.drafts = self.drafts.saturating_sub(1);
        }
    }

    fn through(&mut self, _name: &str) -> io::Result<Narrow> {
        Err(io::Error::from(ErrorKind::PermissionDenied))
    }
}

/// The words of a command line.
#[derive(Drop)]
pub struct Told {
    pub words: &'static [&'static [u8]],
}

impl Words for Told {
    ghost words = { λ _. None };

    fn word(&self, i: usize, buffer: &mut [u8]) -> Result<usize, FillError> {
        if i >= self.words.len() {
            return Err(FillError::NotPresent);
        }
        let word = self.words[i];
        if word.len() > buffer.len() {
            return Err(FillError::TooLong);
        }
        buffer[..word.len()].copy_from_slice(word);
        Ok(word.len())
    }
}
