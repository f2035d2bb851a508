//! The lines of a trace.

ghost use Rattle.std.specs.Prelude.{◌≡◌, ◌++◌, ◌∷◌, [], codes, drop, flat_map, take, IfOk, OnOk, Some, string_bytes};
ghost use Rattle.std.specs.Fmt.{decimal};
ghost use Rattle.ns_run_told.specs.Laws.{place_line};
ghost use Rattle.ns_run_trace.specs.Trace as spec;

use ns_base::no_memory::NoMemory;
use ns_json::saying::{FilePlace, Site, Trace};
use ns_machine_report::output::{put, put_number};
use std::alloc::Global;

/// The most sends that are told at one side where some are left out.
pub const MOST_TOLD: usize = 50;

/// Puts the lines of a trace: one for each send, and where some are left out how many, between the first and the last.
pub fn put_trace(alloc: Global, out: &mut Vec<u8>, trace: &Trace) -> Result<(), NoMemory>
    ensures { OnOk result (out.new.items ≡ out.old.items ++ spec.trace_lines trace.now) }
{
    let sites = trace.sites.as_slice();
    let (first, last) = halves(sites);
    put_sites(out, first)?;
    put_more(alloc, out, trace.left_out)?;
    put_sites(out, last)
}

/// The sends that are told first, and those that are told behind them.
#[tactic(auto, using(crate::proofs::Lined::few_first, crate::proofs::Lined::few_last))]
fn halves(sites: &[Site]) -> (&[Site], &[Site])
    ensures first { result.0.now ≡ take spec.most_told sites.now }
    ensures last { result.1.now ≡ drop spec.most_told sites.now }
{
    if sites.len() <= MOST_TOLD {
        return (sites, &[]);
    }
    sites.split_at(MOST_TOLD)
}

/// Puts a line for each of these sends.
fn put_sites(out: &mut Vec<u8>, sites: &[Site]) -> Result<(), NoMemory>
    ensures { OnOk result (out.new.items ≡ out.old.items ++ flat_map spec.site_line sites.now) }
{
    'sites: for site in sites {
        put_site(out, site)?;
    }
    Ok(())
}

/// Puts the line of a send.
pub fn put_site(out: &mut Vec<u8>, site: &Site) -> Result<(), NoMemory>
    ensures { OnOk result (out.new.items ≡ out.old.items ++ spec.site_line site.now) }
{
    put(out, b"  ".as_slice())?;
    put(out, site.class.bytes())?;
    put(out, b" ".as_slice())?;
    put(out, site.selector.bytes())?;
    put(out, b" at ".as_slice())?;
    put_place(out, &site.place)?;
    put(out, b"\n".as_slice())
}

/// Puts a place, or that there is none.
fn put_place(out: &mut Vec<u8>, place: &Option<FilePlace>) -> Result<(), NoMemory>
    ensures { OnOk result (out.new.items ≡ out.old.items ++ place_line place.now) }
{
    match place {
        Some(place) => put_file_place(out, place),
        None => put(out, b"image".as_slice()),
    }
}

fn put_file_place(out: &mut Vec<u8>, place: &FilePlace) -> Result<(), NoMemory>
    ensures { OnOk result (out.new.items ≡ out.old.items ++ place_line (Some place.now)) }
{
    put(out, place.file.bytes())?;
    put(out, b":".as_slice())?;
    put_number(out, place.line)?;
    put(out, b":".as_slice())?;
    put_number(out, place.col)
}

/// Puts how many sends are left out, where some are.
#[tactic(auto, using(crate::proofs::Lined::more_where_some))]
fn put_more(alloc: Global, out: &mut Vec<u8>, left_out: u64) -> Result<(), NoMemory>
    ensures { OnOk result (out.new.items ≡ out.old.items ++ spec.more_line left_out) }
{
    if left_out == 0 {
        return Ok(());
    }
    let line = more_line(alloc, left_out)?;
    put(out, line.as_bytes())
}

/// The line that tells how many are left out.
fn more_line(alloc: Global, left_out: u64) -> Result<String, NoMemory>
    ensures { IfOk result (λ line. string_bytes line ≡ codes "  .. " ++ decimal left_out ++ codes " more" ++ 10 ∷ []) }
{
    Ok(format!(in alloc; "  .. {left_out} more\n")?)
}
