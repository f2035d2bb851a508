//! Which of the open sends are told: those that are told alike once, and of many the first and the last.

ghost use Rattle.std.specs.Prelude.{◌≡◌, ◌+◌, ◌≤◌, ◌++◌, length, map, IfOk, OnOk};
ghost use Rattle.ns_run_trace.specs.Trace as spec;

use crate::lines::{MOST_TOLD, put_site};
use crate::site::told;
use ns_base::items::Items;
use ns_base::no_memory::NoMemory;
use ns_code::program::CodeProgram;
use ns_json::saying::{Site, Trace};
use ns_moves::site::Site as SendSite;
use std::alloc::Global;

/// The trace of open sends, the innermost first: without those whose line is the one before it, which is this before the first.
pub fn traced(
    alloc: Global,
    code: &CodeProgram,
    line: Vec<u8>,
    sites: &[SendSite],
) -> Result<Trace, NoMemory>
    ensures { IfOk result (λ trace. trace ≡ spec.trimmed (spec.told_once line.items (map (spec.told code.now) sites.now))) }
{
    let once = told_once(alloc, code, line, sites)?;
    let trace = trimmed(alloc, code, once.as_slice())?;
    Ok(trace)
}

/// The sends whose line isn't the one before it.
fn told_once(
    alloc: Global,
    code: &CodeProgram,
    line: Vec<u8>,
    sites: &[SendSite],
) -> Result<Vec<SendSite>, NoMemory>
    ensures { IfOk result (λ once. map (spec.told code.now) once.items ≡ spec.told_once line.items (map (spec.told code.now) sites.now)) }
{
    let mut before = line;
    let mut once = Vec::new(alloc);
    'sites: for site in sites {
        let next = line_of(alloc, code, *site)?;
        if next.as_slice() != before.as_slice() {
            once.push(*site)?;
            before = next;
        }
    }
    Ok(once)
}

/// The line of a send.
fn line_of(alloc: Global, code: &CodeProgram, site: SendSite) -> Result<Vec<u8>, NoMemory>
    ensures { IfOk result (λ line. line.items ≡ spec.site_line (spec.told code.now site)) }
{
    let site = told(alloc, code, site)?;
    let mut line = Vec::new(alloc);
    put_site(&mut line, &site)?;
    Ok(line)
}

/// All of these sends, or the first and the last where they are many.
#[tactic(auto, using(crate::proofs::Trimmed::few_are_whole, crate::proofs::Trimmed::many_are_shortened))]
fn trimmed(alloc: Global, code: &CodeProgram, sites: &[SendSite]) -> Result<Trace, NoMemory>
    ensures { IfOk result (λ trace. trace ≡ spec.trimmed (map (spec.told code.now) sites.now)) }
{
    if sites.len() <= MOST_TOLD + MOST_TOLD {
        return whole(alloc, code, sites);
    }
    shortened(alloc, code, sites)
}

/// All of these sends.
fn whole(alloc: Global, code: &CodeProgram, sites: &[SendSite]) -> Result<Trace, NoMemory>
    ensures { IfOk result (λ trace. trace ≡ spec.whole (map (spec.told code.now) sites.now)) }
{
    let mut told = Vec::with_capacity(alloc, sites.len())?;
    put_told(alloc, &mut told, code, sites)?;
    Ok(Trace {
        sites: Items::from_vec(told),
        left_out: 0,
    })
}

/// The first and the last of these sends.
#[tactic(auto, using(crate::proofs::Trimmed::shortened_is))]
fn shortened(alloc: Global, code: &CodeProgram, sites: &[SendSite]) -> Result<Trace, NoMemory>
    requires { spec.most_told + spec.most_told ≤ length sites.now }
    ensures { IfOk result (λ trace. trace ≡ spec.shortened (map (spec.told code.now) sites.now)) }
{
    let (first, _) = sites.split_at(MOST_TOLD);
    let (_, last) = sites.split_at(sites.len() - MOST_TOLD);
    let mut told = Vec::with_capacity(alloc, MOST_TOLD + MOST_TOLD)?;
    put_told(alloc, &mut told, code, first)?;
    put_told(alloc, &mut told, code, last)?;
    Ok(Trace {
        sites: Items::from_vec(told),
        left_out: (sites.len() - (MOST_TOLD + MOST_TOLD)) as u64,
    })
}

/// Puts these sends by their names.
fn put_told(
    alloc: Global,
    told_so_far: &mut Vec<Site>,
    code: &CodeProgram,
    sites: &[SendSite],
) -> Result<(), NoMemory>
    ensures { OnOk result (told_so_far.new.items ≡ told_so_far.old.items ++ map (spec.told code.now) sites.now) }
{
    'sites: for site in sites {
        told_so_far.push(told(alloc, code, *site)?)?;
    }
    Ok(())
}
