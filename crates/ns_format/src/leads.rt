//! The leads of lines: how many blanks stand before the first piece of each.

ghost use Rattle.std.specs.Prelude.{◌≡◌, ◌≤◌, ◌∷◌, ◌++◌, [], OnOk, length};
ghost use Rattle.ns_format.specs.Leads as spec;

use crate::piece::{Gap, Mark, Piece, Role};
use ns_base::no_memory::NoMemory;
use ns_tree::token::Kind;

/// What a token is to the leads.
fn role_of(kind: &Kind) -> Role
    ensures { result ≡ spec.role_of kind.now }
{
    match kind {
        Kind::Open => Role::Open,
        Kind::OpenBlock => Role::OtherOpen,
        Kind::OpenTuple => Role::OtherOpen,
        Kind::Close => Role::Close,
        Kind::CloseBlock => Role::OtherClose,
        Kind::CloseTuple => Role::OtherClose,
        Kind::Colon => Role::Colon,
        Kind::Oper(text) => role_of_operator(text.bytes()),
        _ => Role::Other,
    }
}

/// What an operator is to the leads.
fn role_of_operator(text: &[u8]) -> Role
    ensures { result ≡ spec.role_of_operator text.now }
{
    if text == b"|".as_slice() {
        Role::Bar
    } else {
        Role::Other
    }
}

/// What a piece is to the leads.
pub fn role_in(mark: &Mark) -> Role
    ensures { result ≡ spec.role_in mark.now }
{
    match mark {
        Mark::Token(kind) => role_of(kind),
        Mark::Comment => Role::Comment,
    }
}

/// The lead within a bracket that counts, by the one around it.
fn deeper(lead: usize) -> usize
    ensures { result ≡ spec.deeper lead }
{
    if lead < 64 { lead + 4 } else { lead }
}

/// The lead where so many of the innermost brackets have closed.
pub fn lead_behind(closed: usize, leads: &[usize]) -> usize
    ensures { result ≡ spec.lead_behind closed leads.now }
{
    let at = leads.len().saturating_sub(1).saturating_sub(closed);
    if at < leads.len() { leads[at] } else { 0 }
}

fn put(leads: &mut Vec<usize>, lead: usize) -> Result<(), NoMemory>
    ensures { OnOk result (leads.new.items ≡ leads.old.items ++ lead ∷ []) }
{
    leads.push(lead)?;
    Ok(())
}

/// Opens or closes what a piece of that role does.
pub fn open_behind(role: Role, side: bool, leads: &mut Vec<usize>) -> Result<(), NoMemory>
    ensures { OnOk result (leads.new.items ≡ spec.open_behind role side leads.old.items) }
{
    let inner = lead_behind(0, leads.as_slice());
    match role {
        Role::Open => put(leads, if side { inner } else { deeper(inner) }),
        Role::OtherOpen => put(leads, deeper(inner)),
        Role::Close => {
            leads.pop();
            Ok(())
        }
        Role::OtherClose => {
            leads.pop();
            Ok(())
        }
        _ => Ok(()),
    }
}

/// Whether a `(` behind a piece of that role is a side of a class.
pub fn side_behind(role: Role, side: bool) -> bool
    ensures { result ≡ spec.side_behind role side }
{
    match role {
        Role::Comment => side,
        Role::Close => true,
        Role::Colon => true,
        _ => false,
    }
}

fn is_closing(role: Role) -> bool
    ensures { result ≡ spec.is_closing role }
{
    matches!(role, Role::Close | Role::OtherClose)
}

/// Whether no line feed stands in the gap.
fn on_line(gap: Gap) -> bool
    ensures { result ≡ spec.on_line gap }
{
    matches!(gap, Gap::Nothing | Gap::Blanks)
}

/// Whether the piece is `)`, and nothing stands before it.
fn closes_at_once(role: Role, gap: Gap) -> bool
    ensures { result ≡ spec.closes_at_once role gap }
{
    match (role, gap) {
        (Role::Close, Gap::Nothing) => true,
        _ => false,
    }
}

/// How many closing brackets go on a line, with nothing but blanks before each.
fn closing(pieces: &[Piece]) -> usize
    ensures value { result ≡ spec.closing pieces.now }
    ensures within { result ≤ length pieces.now }
{
    let mut n = 0;
    'closing: for piece in pieces {
        if !on_line(piece.gap) {
            return n;
        }
        if !is_closing(role_in(&piece.mark)) {
            return n;
        }
        n += 1;
    }
    n
}

/// How many brackets close at the front of a line that goes on so behind a `|`.
fn closed_behind_bar(pieces: &[Piece]) -> usize
    ensures { result ≡ spec.closed_behind_bar pieces.now }
{
    match pieces {
        [] => 0,
        [piece, more @ ..] => {
            if closes_at_once(role_in(&piece.mark), piece.gap) {
                1 + closing(more)
            } else {
                0
            }
        }
    }
}

/// How many brackets close at the front of a line that begins with a piece of that role and goes
/// on so.
pub fn closed_at(role: Role, pieces: &[Piece]) -> usize
    ensures { result ≡ spec.closed_at role pieces.now }
{
    match role {
        Role::Close => 1 + closing(pieces),
        Role::OtherClose => 1 + closing(pieces),
        Role::Bar => closed_behind_bar(pieces),
        _ => 0,
    }
}
