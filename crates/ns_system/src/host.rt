//! The real system: one call of it for each question. It tells nothing, so nothing below is promised of it.

ghost use Rattle.std.specs.Prelude.{None};

use crate::arguments::Words;
use crate::drive::Drive;
use crate::outlet::Outlet;
use std::alloc::Global;
use std::env::FillError;
use std::fs::{self, File, Metadata, OpenOptions, Permissions};
use std::io::{self, Write};
use std::path::PathBuf;
use std::rt::Env;
use std::thread;
use std::time::Duration;

/// The words and the files of the system.
#[derive(Clone, Copy)]
pub struct System {
    rt: HostRuntime,
}

impl System {
    /// That of the process.
    pub fn new(rt: HostRuntime) -> System {
        System { rt }
    }
}

impl Words for System {
    ghost words = { λ _. None };

    fn word(&self, i: usize, buffer: &mut [u8]) -> Result<usize, FillError> {
        self.rt.arg(i, buffer)
    }
}

impl Drive for System {
    type Reader = File;

    type Draft = Awaited<File>;

    ghost kept = { λ _. None };

    ghost synced = { λ _. None };

    fn open(&mut self, name: &str) -> io::Result<File> {
        File::open(&self.rt, name)
    }

    fn metadata(&mut self, name: &str) -> io::Result<Metadata> {
        fs::symlink_metadata(&self.rt, name)
    }

    fn followed(&mut self, _alloc: Global, name: &str) -> io::Result<PathBuf> {
        fs::canonicalize(&self.rt, name)
    }

    fn is_writable(&mut self, name: &str) -> bool {
        OpenOptions::new().write(true).open(&self.rt, name).is_ok()
    }

    fn begin(&mut self, name: &str) -> io::Result<Awaited<File>> {
        Ok(Awaited::new(self.rt, File::create_new(&self.rt, name)?))
    }

    fn permit(&mut self, draft: &mut Awaited<File>, permissions: Permissions) -> io::Result<()> {
        draft.to.set_permissions(permissions)
    }

    fn sync(&mut self, draft: &mut Awaited<File>) -> io::Result<()> {
        draft.to.sync_all()
    }

    fn place(&mut self, _draft: Awaited<File>, from: &str, to: &str) -> io::Result<()> {
        fs::rename(&self.rt, from, to)
    }

    fn remove(&mut self, name: &str) {
        let _ = fs::remove_file(&self.rt, name);
    }

    fn through(&mut self, name: &str) -> io::Result<Awaited<File>> {
        Ok(Awaited::new(self.rt, File::create(&self.rt, name)?))
    }
}

/// How many milliseconds pass until what would block is tried again.
const PAUSE: u64 = 1;

/// A stream or a file of the system, which is written to.
#[derive(Drop)]
pub struct Awaited<W> {
    rt: HostRuntime,
    to: W,
}

impl<W> Awaited<W> {
    /// That stream or file.
    pub fn new(rt: HostRuntime, to: W) -> Awaited<W> {
        Awaited { rt, to }
    }
}

impl<W: Write> Outlet for Awaited<W> {
    ghost written = { λ _. None };

    fn write(&mut self, bytes: &[u8]) -> io::Result<usize> {
        self.to.write(bytes)
    }

    fn wait(&mut self) {
        thread::sleep(&self.rt, Duration::from_millis(PAUSE))
    }
}
