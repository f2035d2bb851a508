//! The line of a fault: which file, which stream, or that no memory was found.

ghost use Rattle.std.specs.Prelude.{◌≡◌, ◌≤◌, ◌++◌, codes, option_map, MatchResult};
ghost use Rattle.ns_base.specs.Count.{Rose};
ghost use Rattle.ns_base.specs.Sink.{WrotePrefix, with_bytes};
ghost use Rattle.ns_system.specs.Fault.{fault_line, unread_line, unstored_line, unwritten_line};
ghost use Rattle.ns_system.specs.Telling.{Puts, Took, WasTold};

use crate::telling::{TellingShelf, TellingSink};
use ns_base::sink::{PIECE, Sink, SinkFailed};
use ns_base::status::Status;

/// Tells on `err` why a command that ended with that status wasn't carried out, and where it failed. Of one that was carried out
/// nothing is told.
pub fn tell_fault<S: TellingShelf, O: TellingSink, E: Sink>(
    status: Status,
    shelf: &S,
    out: &O,
    err: &mut E,
)
    ensures { WasTold E.written E.faults
        (fault_line (S.unread shelf.now) (S.unstored shelf.now) (S.store_faults shelf.now) (O.faults out.now) status) err.old err.new }
{
    match status {
        Status::Done | Status::ProgramError | Status::Refused | Status::Limit => {}
        Status::ReadFault => tell_unread(shelf.unread(), err),
        Status::WriteFault => tell_unwritten(shelf, out, err),
        Status::Memory => tell("nspk: no memory\n", err),
    }
}

/// Tells which file can't be read.
fn tell_unread<E: Sink>(name: Option<&str>, err: &mut E)
    ensures { Took E.written E.faults (unread_line (option_map (λ name. name.now) name.entry)) err.old err.new }
{
    match name {
        Some(name) => tell_of(name, ": can't be read\n", err),
        None => tell("nspk: a file can't be read\n", err),
    }
}

/// Tells what can't be written: the file, where a store failed, or else the stream.
fn tell_unwritten<S: TellingShelf, O: TellingSink, E: Sink>(shelf: &S, out: &O, err: &mut E)
    ensures { Took E.written E.faults (unwritten_line (S.unstored shelf.now) (S.store_faults shelf.now) (O.faults out.now)) err.old err.new }
{
    match (shelf.failed_stores(), out.failed_puts()) {
        (0, 0) => tell("nspk: standard error can't be written\n", err),
        (0, _) => tell("nspk: standard output can't be written\n", err),
        _ => tell_unstored(shelf.unstored(), err),
    }
}

/// Tells which file can't be stored.
fn tell_unstored<E: Sink>(name: Option<&str>, err: &mut E)
    ensures { Took E.written E.faults (unstored_line (option_map (λ name. name.now) name.entry)) err.old err.new }
{
    match name {
        Some(name) => tell_of(name, ": can't be stored\n", err),
        None => tell("nspk: a file can't be stored\n", err),
    }
}

/// Tells this of the file of that name.
fn tell_of<E: Sink>(name: &str, what: &str, err: &mut E)
    ensures { Took E.written E.faults (codes "nspk: " ++ name.now ++ what.now) err.old err.new }
{
    let _ = put_named(name, what, err);
}

/// Tells a line.
fn tell<E: Sink>(line: &str, err: &mut E)
    ensures { Took E.written E.faults line.now err.old err.new }
{
    let _ = put_all(line.as_bytes(), err);
}

/// Puts what is said of the file of that name.
fn put_named<E: Sink>(name: &str, what: &str, err: &mut E) -> Result<(), SinkFailed>
    ensures { Puts E.written E.faults (codes "nspk: " ++ name.now ++ what.now) result err.old err.new }
{
    put_all(b"nspk: ", err)?;
    put_all(name.as_bytes(), err)?;
    put_all(what.as_bytes(), err)
}

/// Puts bytes in pieces.
fn put_all<E: Sink>(bytes: &[u8], err: &mut E) -> Result<(), SinkFailed>
    ensures { Puts E.written E.faults bytes.now result err.old err.new }
{
    let mut done = 0;
    while done < bytes.len() {
        let (_, left) = bytes.split_at(done);
        let n = left.len().min(PIECE);
        let (piece, _) = left.split_at(n);
        err.put(piece)?;
        done += n;
    }
    Ok(())
}
