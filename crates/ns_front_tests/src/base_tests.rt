//! Files and streams in memory, with ample memory, and what is fixed once: the limits of a command that names
//! none, and the size of the library.

use ns_base::limits::Limits;
use ns_base::mem_shelf::MemShelf;
use ns_base::mem_sink::MemSink;
use ns_base::no_memory::NoMemory;
use ns_base::shelf::{Shelf, ShelfFault};
use ns_base::sink::Sink;
use ns_base::sure_shelf::SureShelf;
use ns_base::sure_sink::SureSink;
use ns_lib::collections::collections;
use std::alloc::Global;

#[test]
fn shelves_and_sinks_fail_where_they_are_told_to(rt: HostRuntime) {
    let alloc = rt.alloc();
    assert!(rt; sure_shelf_keeps_what_it_took(alloc) == Ok(true));
    assert!(rt; listed_calls_of_a_shelf_fail(alloc) == Ok(true));
    assert!(rt; sink_takes_what_has_room(alloc) == Ok(true));
    assert!(rt; SureSink.put(b"abc").is_ok());
}

fn sure_shelf_keeps_what_it_took(alloc: Global) -> Result<bool, ShelfFault> {
    let mut shelf = SureShelf {
        files: Vec::new(alloc),
        misses: 0,
    };
    shelf.store("a", b"first")?;
    shelf.store("a", b"second")?;
    let loaded = shelf.load(alloc, "a", 100)?;
    let missed = shelf.load(alloc, "b", 100).err();
    Ok(
        loaded.as_slice() == b"second".as_slice()
            && missed == Some(ShelfFault::Missing)
            && shelf.misses == 1,
    )
}

/// The calls 1, 3 and 4 of five.
fn listed_calls_of_a_shelf_fail(alloc: Global) -> Result<bool, NoMemory> {
    let mut shelf = MemShelf::new(alloc, Vec::new(alloc));
    shelf.fail_at.extend_from_slice(&[1, 3, 4])?;
    let faults = [
        shelf.store("a", b"bytes").err(),
        shelf.store("a", b"others").err(),
        shelf.load(alloc, "a", 100).err(),
        shelf.load(alloc, "a", 100).err(),
        shelf.load(alloc, "b", 100).err(),
    ];
    let want = [
        None,
        Some(ShelfFault::Failed),
        None,
        Some(ShelfFault::Failed),
        Some(ShelfFault::Missing),
    ];
    Ok(faults == want && (shelf.misses, shelf.faults, shelf.store_faults) == (1, 1, 1))
}

/// The call 1 takes two bytes, and there is room for ten.
fn sink_takes_what_has_room(alloc: Global) -> Result<bool, NoMemory> {
    let mut sink = MemSink::new(alloc, 10)?;
    sink.fail_at.push((1, 2))?;
    let took = [
        sink.put(b"abc").is_ok(),
        sink.put(b"def").is_ok(),
        sink.put(b"ghijklm").is_ok(),
    ];
    Ok(
        took == [true, false, false]
            && sink.bytes.as_slice() == b"abcdeghijk".as_slice()
            && sink.faults == 2,
    )
}

#[test]
fn a_command_has_limits_and_a_library(rt: HostRuntime) {
    assert!(rt; Limits::DEFAULT.are_in_range() && collections().len() == 927);
}
