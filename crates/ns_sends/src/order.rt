//! Sends in order, each once.

ghost use Rattle.std.specs.Prelude.{◌≡◌, None, IfOk};
ghost use Rattle.std.specs.Ordering.{is_lt};
ghost use Rattle.ns_static_rules.specs.Least.{comes_before};
ghost use Rattle.ns_static_all.specs.InOrder.{in_order, is_behind, once_behind};
ghost use Rattle.ns_sends.specs.Unanswered.{sent_key, line_key, column_key};

use crate::sent::SentAt;
use ns_base::no_memory::NoMemory;
use std::alloc::Global;
use std::cmp::Ordering;

/// Sends in order, each once.
pub fn in_order(alloc: Global, sends: Vec<SentAt>) -> Result<Vec<SentAt>, NoMemory>
    ensures { IfOk result (λ told. told.items ≡ in_order sent_key sends.items) }
{
    let mut sends = sends;
    sends.sort_unstable_by(|sent, other| order(*sent, *other));
    each_once(alloc, &sends)
}

/// Those of sorted sends that come behind the one before them.
fn each_once(alloc: Global, sends: &[SentAt]) -> Result<Vec<SentAt>, NoMemory>
    ensures { IfOk result (λ told. told.items ≡ once_behind sent_key None sends.now) }
{
    let mut told = Vec::with_capacity(alloc, sends.len())?;
    let mut last = None;
    'sends: for sent in sends {
        if is_behind(last, *sent) {
            told.push(*sent)?;
            last = Some(*sent);
        }
    }
    Ok(told)
}

/// By file, line, column, and the selector's number.
fn order(sent: SentAt, other: SentAt) -> Ordering
    ensures { is_lt result ≡ comes_before (sent_key sent) (sent_key other) }
{
    if comes_before(sent, other) {
        return Ordering::Less;
    }
    if comes_before(other, sent) {
        return Ordering::Greater;
    }
    Ordering::Equal
}

/// Whether the last send that was told, if there is one, comes before this one.
fn is_behind(last: Option<SentAt>, sent: SentAt) -> bool
    ensures { result ≡ is_behind sent_key last sent }
{
    match last {
        None => true,
        Some(last) => comes_before(last, sent),
    }
}

fn comes_before(sent: SentAt, other: SentAt) -> bool
    ensures { result ≡ comes_before (sent_key sent) (sent_key other) }
{
    if sent.place.file < other.place.file {
        return true;
    }
    if sent.place.file != other.place.file {
        return false;
    }
    comes_before_in_file(sent, other)
}

fn comes_before_in_file(sent: SentAt, other: SentAt) -> bool
    ensures { result ≡ comes_before (line_key sent) (line_key other) }
{
    if sent.place.line < other.place.line {
        return true;
    }
    if sent.place.line != other.place.line {
        return false;
    }
    comes_before_in_line(sent, other)
}

fn comes_before_in_line(sent: SentAt, other: SentAt) -> bool
    ensures { result ≡ comes_before (column_key sent) (column_key other) }
{
    if sent.place.col < other.place.col {
        return true;
    }
    if sent.place.col != other.place.col {
        return false;
    }
    sent.sel.0 < other.sel.0
}
