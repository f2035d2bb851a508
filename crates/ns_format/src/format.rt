//! Lays out the lines of a source.

ghost use Rattle.std.specs.Prelude.{◌≡◌, ◌++◌, IfOk, OnOk, replicate};
ghost use Rattle.ns_format.specs.Format as spec;
ghost use Rattle.ns_format.specs.Leads.{lead_behind, closed_at};

use crate::leads::{closed_at, lead_behind, open_behind, role_in, side_behind};
use crate::piece::{Gap, Piece, Role};
use crate::pieces::pieces;
use ns_base::no_memory::NoMemory;
use ns_base::text::Text;
use std::alloc::Global;

/// The source with its lines laid out: its tokens and comments as they stand, with the gaps between
/// them made new. What is behind a fault of its tokens is left out, so refuse such a source first.
pub fn format(alloc: Global, source: &[u8]) -> Result<Text, NoMemory>
    ensures { IfOk result (λ text. text ≡ spec.formatted source.now) }
{
    let pieces = pieces(alloc, source)?;
    lay(alloc, pieces.as_slice())
}

/// What is written for these pieces. They are gone through once.
fn lay(alloc: Global, pieces: &[Piece]) -> Result<Text, NoMemory>
    ensures { IfOk result (λ text. text ≡ spec.laid pieces.now) }
{
    let mut out = Vec::new(alloc);
    let mut leads = Vec::new(alloc);
    leads.push(0)?;
    let mut side = false;
    let mut left = pieces;
    'pieces: while let [piece, more @ ..] = left {
        let role = role_in(&piece.mark);
        let lead = lead_of(piece.gap, role, more, leads.as_slice());
        put_gap(&mut out, piece.gap, lead)?;
        out.extend_from_slice(piece.text.bytes())?;
        open_behind(role, side, &mut leads)?;
        side = side_behind(role, side);
        left = more;
    }
    out.push(b'\n')?;
    Ok(Text::from_vec(out))
}

/// The lead of what stands behind a gap. What closes is counted only where a line begins, so each piece is gone through
/// at most twice.
fn lead_of(gap: Gap, role: Role, more: &[Piece], leads: &[usize]) -> usize
    ensures { spec.spaced gap result ≡ spec.spaced gap (lead_behind (closed_at role more.now) leads.now) }
{
    match gap {
        Gap::First | Gap::Nothing | Gap::Blanks => 0,
        Gap::Line | Gap::Lines => lead_behind(closed_at(role, more), leads),
    }
}

/// Writes what stands for a gap.
fn put_gap(out: &mut Vec<u8>, gap: Gap, lead: usize) -> Result<(), NoMemory>
    ensures { OnOk result (out.new.items ≡ out.old.items ++ spec.spaced gap lead) }
{
    match gap {
        Gap::First => Ok(()),
        Gap::Nothing => Ok(()),
        Gap::Blanks => put(out, b" "),
        Gap::Line => {
            put(out, b"\n")?;
            put_lead(out, lead)
        }
        Gap::Lines => {
            put(out, b"\n\n")?;
            put_lead(out, lead)
        }
    }
}

fn put(out: &mut Vec<u8>, text: &[u8]) -> Result<(), NoMemory>
    ensures { OnOk result (out.new.items ≡ out.old.items ++ text.now) }
{
    out.extend_from_slice(text)?;
    Ok(())
}

/// Writes so many blanks.
fn put_lead(out: &mut Vec<u8>, lead: usize) -> Result<(), NoMemory>
    ensures { OnOk result (out.new.items ≡ out.old.items ++ replicate lead 32) }
{
    let mut n = 0;
    'blanks: while n < lead {
        out.push(b' ')?;
        n += 1;
    }
    Ok(())
}
