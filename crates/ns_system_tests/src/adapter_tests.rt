//! The adapters over a system in memory, of which single calls fail.

use crate::broken_system::{Broken, Call, Narrow, Told};
use ns_base::mem_sink::MemSink;
use ns_base::no_memory::NoMemory;
use ns_base::shelf::{Shelf, ShelfFault};
use ns_base::sink::Sink;
use ns_base::status::Status;
use ns_system::arguments::arguments;
use ns_system::fault::tell_fault;
use ns_system::files::Disk;
use ns_system::stream::Stream;
use std::alloc::Global;

#[test]
fn a_stream_goes_on_where_it_can_and_counts_a_fault_where_it_cant(rt: HostRuntime) {
    assert!(rt; goes_on());
    assert!(rt; counts_the_byte_without_room());
}

fn goes_on() -> bool {
    let mut stream = Stream::new(Narrow::with_room(3));
    let took = [stream.put(b"ab").is_ok(), stream.put(b"").is_ok()];
    took == [true, true] && stream.to.bytes == *b"ab\0" && stream.faults == 0
}

fn counts_the_byte_without_room() -> bool {
    let mut stream = Stream::new(Narrow::with_room(3));
    let took = [stream.put(b"ab").is_ok(), stream.put(b"cd").is_ok()];
    took == [true, false] && stream.to.bytes == *b"abc" && stream.faults == 1
}

fn disk(alloc: Global, failing: Call) -> Disk<Broken> {
    let (drafts, placed) = (0, 0);
    let drive = Broken {
        failing,
        drafts,
        placed,
    };
    Disk::new(alloc, drive)
}

/// The call that fails, the file that is loaded, the most bytes, what the load answers, and what it counts: misses and faults.
type Loaded = (
    Call,
    &'static str,
    u64,
    Result<&'static [u8], ShelfFault>,
    (u64, u64),
);

const LOADED: &[Loaded] = &[
    (Call::None, "in/abc", 10, Ok(b"abc"), (0, 0)),
    (Call::None, "in/abc", 2, Ok(b"ab"), (0, 0)),
    (Call::None, "none", 10, Err(ShelfFault::Missing), (1, 0)),
    (Call::Open, "in/abc", 10, Err(ShelfFault::Failed), (0, 1)),
    (Call::Read, "in/abc", 10, Err(ShelfFault::Failed), (0, 1)),
];

#[test]
fn files_are_loaded(rt: HostRuntime) {
    assert!(rt; LOADED.iter().all(|row| loads(rt.alloc(), row)));
}

fn loads(alloc: Global, row: &Loaded) -> bool {
    let (failing, name, most, want, counts) = row;
    let mut disk = disk(alloc, *failing);
    let is_so = match (disk.load(alloc, name, *most), want) {
        (Ok(bytes), Ok(want)) => bytes.as_slice() == *want,
        (Err(fault), Err(want)) => fault == *want,
        _ => false,
    };
    is_so && (disk.misses, disk.faults) == *counts
}

/// The call that fails, whether the store fails then, and how many drafts were put in their places.
const STORED: &[(Call, bool, u64)] = &[
    (Call::None, false, 1),
    (Call::Begin, true, 0),
    (Call::Permit, true, 0),
    (Call::Write, true, 0),
    (Call::Sync, true, 0),
    (Call::Place, true, 0),
];

#[test]
fn files_are_stored_or_stay(rt: HostRuntime) {
    assert!(rt; STORED.iter().all(|row| stores(rt.alloc(), row)));
}

/// Whether a store does that, and leaves no draft.
fn stores(alloc: Global, row: &(Call, bool, u64)) -> bool {
    let (failing, fails, placed) = row;
    let mut disk = disk(alloc, *failing);
    disk.store("in/abc", b"abc").is_err() == *fails
        && disk.drive.placed == *placed
        && disk.drive.drafts == 0
        && disk.store_faults == *fails as u64
}

/// How a command ended whose load, store and put failed there, how much room standard output has, and the line that is told.
const TOLD_OF: &[(Call, usize, Status, &str)] = &[
    (
        Call::Open,
        3,
        Status::ReadFault,
        "nspk: in/abc: can't be read\n",
    ),
    (
        Call::Read,
        3,
        Status::ReadFault,
        "nspk: in/abc: can't be read\n",
    ),
    (
        Call::Begin,
        3,
        Status::WriteFault,
        "nspk: in/abc: can't be stored\n",
    ),
    (
        Call::Begin,
        0,
        Status::WriteFault,
        "nspk: in/abc: can't be stored\n",
    ),
    (
        Call::None,
        0,
        Status::WriteFault,
        "nspk: standard output can't be written\n",
    ),
    (
        Call::None,
        3,
        Status::WriteFault,
        "nspk: standard error can't be written\n",
    ),
    (Call::None, 3, Status::Memory, "nspk: no memory\n"),
    (Call::Open, 0, Status::Refused, ""),
];

#[test]
fn a_fault_is_told(rt: HostRuntime) {
    assert!(rt; TOLD_OF.iter().all(|row| tells(rt.alloc(), row) == Ok(true)));
}

/// Whether that line is told.
fn tells(alloc: Global, row: &(Call, usize, Status, &'static str)) -> Result<bool, NoMemory> {
    let (failing, room, status, line) = row;
    let mut disk = disk(alloc, *failing);
    let mut out = Stream::new(Narrow::with_room(*room));
    let mut err = MemSink::new(alloc, 100)?;
    let _ = disk.load(alloc, "in/abc", 3);
    let _ = disk.store("in/abc", b"abc");
    let _ = out.put(b"abc");
    tell_fault(*status, &disk, &out, &mut err);
    Ok(err.bytes.as_slice() == line.as_bytes())
}

#[test]
fn a_fault_is_told_without_the_name_that_was_not_kept(rt: HostRuntime) {
    assert!(rt;
        tells_nameless(
            rt.alloc(),
            Status::ReadFault,
            "nspk: a file can't be read\n"
        ) == Ok(true)
    );
    assert!(rt;
        tells_nameless(
            rt.alloc(),
            Status::WriteFault,
            "nspk: a file can't be stored\n"
        ) == Ok(true)
    );
}

fn tells_nameless(alloc: Global, status: Status, line: &str) -> Result<bool, NoMemory> {
    let mut disk = disk(alloc, Call::None);
    disk.store_faults = 1;
    let out = Stream::new(Narrow::with_room(3));
    let mut err = MemSink::new(alloc, 100)?;
    tell_fault(status, &disk, &out, &mut err);
    Ok(err.bytes.as_slice() == line.as_bytes())
}

/// The words, those that are read of them, and whether another stands behind these.
const READ: &[(&[&[u8]], &[&str], bool)] = &[
    (&[b"nspk"], &[], false),
    (&[b"nspk", b"run", b"A.ns"], &["run", "A.ns"], false),
    (&[b"nspk", b"run", b"\xff", b"A.ns"], &["run"], true),
];

#[test]
fn words_are_read_up_to_one_that_is_no_text(rt: HostRuntime) {
    assert!(rt; all_are_read(rt.alloc()));
}

fn all_are_read(alloc: Global) -> bool {
    for row in READ {
        if reads(alloc, row) != Ok(true) {
            return false;
        }
    }
    true
}

fn reads(alloc: Global, row: &(&'static [&'static [u8]], &[&str], bool)) -> Result<bool, NoMemory> {
    let (words, want, cut) = row;
    let line = arguments(&Told { words }, alloc)?;
    let mut is_so = line.words.len() == want.len() && line.cut == *cut;
    for (word, want) in line.words.iter().zip(*want) {
        is_so = is_so && word.as_str() == *want;
    }
    Ok(is_so)
}
