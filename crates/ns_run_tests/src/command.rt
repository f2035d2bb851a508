//! Commands over files and streams in memory, with ample memory.

use ns_base::mem_shelf::MemShelf;
use ns_base::mem_sink::MemSink;
use ns_base::no_memory::NoMemory;
use ns_base::text::Text;
use ns_run::top::nspk;
use std::alloc::Global;

/// A command, the bytes that it leaves in both streams, and its exit status. Its words stand between blanks; one that is empty or
/// has blanks stands between single quotes.
pub type Row = (&'static str, &'static str, &'static str, u8);

/// What fails: the call of the shelf with that number, from 0, or the first put of a stream, which takes only so many bytes.
#[derive(Clone, Copy)]
pub enum Fails {
    Shelf(u64),
    Out(u64),
    Err(u64),
}

/// Commands over some files. Those of one table are carried out one after the other, so that each finds what those before it have
/// stored; those of which something fails, each alone.
pub struct Commands {
    pub files: &'static [(&'static str, &'static [u8])],
    pub tables: &'static [&'static [Row]],
    pub failing: &'static [(Fails, Row)],
}

/// The first command that leaves something else.
pub fn first_other(alloc: Global, commands: &Commands) -> Option<&'static str> {
    for rows in commands.tables {
        if let Some(line) = first_of(alloc, commands.files, rows) {
            return Some(line);
        }
    }
    for (fails, row) in commands.failing {
        if ends_so(alloc, commands.files, *fails, *row) != Ok(true) {
            return Some(row.0);
        }
    }
    None
}

/// Whether a command leaves that, over these files.
pub fn leaves(alloc: Global, files: &[(&str, &[u8])], row: Row) -> bool {
    first_of(alloc, files, &[row]).is_none()
}

/// The first command of a table that leaves something else.
fn first_of(alloc: Global, files: &[(&str, &[u8])], rows: &[Row]) -> Option<&'static str> {
    match Setting::of(alloc, files) {
        Ok(mut setting) => setting.first_of(alloc, rows),
        Err(_) => Some("no memory for the files"),
    }
}

fn ends_so(
    alloc: Global,
    files: &[(&str, &[u8])],
    fails: Fails,
    row: Row,
) -> Result<bool, NoMemory> {
    let mut setting = Setting::of(alloc, files)?;
    match fails {
        Fails::Shelf(call) => setting.shelf.fail_at.push(call)?,
        Fails::Out(bytes) => setting.out.fail_at.push((0, bytes))?,
        Fails::Err(bytes) => setting.err.fail_at.push((0, bytes))?,
    }
    Ok(setting.leaves(alloc, row))
}

/// The files that a command finds, and its streams.
#[derive(Drop)]
pub struct Setting {
    pub shelf: MemShelf,
    pub out: MemSink,
    pub err: MemSink,
}

impl Setting {
    /// These files and empty streams, of which no call fails.
    pub fn of(alloc: Global, sources: &[(&str, &[u8])]) -> Result<Setting, NoMemory> {
        let mut files = Vec::new(alloc);
        for (name, source) in sources {
            files.push((Text::of(alloc, name.as_bytes())?, source.to_vec(alloc)?))?;
        }
        Ok(Setting {
            shelf: MemShelf::new(alloc, files),
            out: MemSink::new(alloc, 100_000)?,
            err: MemSink::new(alloc, 100_000)?,
        })
    }

    /// Carries out a command, and answers its exit status.
    pub fn run(&mut self, alloc: Global, line: &str) -> Result<u8, NoMemory> {
        let words = words_of(alloc, line)?;
        let (shelf, out, err) = (&mut self.shelf, &mut self.out, &mut self.err);
        Ok(nspk(alloc, words.as_slice(), shelf, out, err).exit_code())
    }

    /// The first command that leaves something else. Each finds the streams empty.
    fn first_of(&mut self, alloc: Global, rows: &[Row]) -> Option<&'static str> {
        for row in rows {
            if !self.leaves(alloc, *row) {
                return Some(row.0);
            }
            self.out.bytes.clear();
            self.err.bytes.clear();
        }
        None
    }

    fn leaves(&mut self, alloc: Global, row: Row) -> bool {
        let (line, out, err, status) = row;
        self.run(alloc, line) == Ok(status)
            && self.out.bytes.as_slice() == out.as_bytes()
            && self.err.bytes.as_slice() == err.as_bytes()
    }
}

/// The words of a line: what stands between two quotes is one, and of the rest what stands between blanks.
fn words_of(alloc: Global, line: &str) -> Result<Vec<String>, NoMemory> {
    let mut words = Vec::new(alloc);
    let mut is_quoted = false;
    for piece in line.split('\'') {
        if is_quoted {
            words.push(String::from_str(alloc, piece)?)?;
        } else {
            push_words(alloc, &mut words, piece)?;
        }
        is_quoted = !is_quoted;
    }
    Ok(words)
}

fn push_words(alloc: Global, words: &mut Vec<String>, piece: &str) -> Result<(), NoMemory> {
    for word in piece.split_ascii_whitespace() {
        words.push(String::from_str(alloc, word)?)?;
    }
    Ok(())
}
