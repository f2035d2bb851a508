//! Lookups, and calls of the rows. A call that may not be made, since something that it is given isn't
//! live, answers none.

ghost use Rattle.std.specs.Prelude.{◌≡◌, All};
ghost use Rattle.ns_find.specs.Memo.{PlaceIsRight};
ghost use Rattle.ns_world_setting.specs.Program.{program_code as the_code};
ghost use Rattle.ns_world_setting.specs.Ready.{WorldIsReady};

use crate::looking::{are_live, is_cell, is_class, is_live};
use crate::setting::Setting;
use ns_base::selector::Sel;
use ns_classes::apply::{MakeFault, apply};
use ns_facets::board::Board;
use ns_facets::facet::facet;
use ns_find::find::{find, find_private, super_start};
use ns_find::found::{Found, Sending};
use ns_find::memo::{Memo, find_kept};
use ns_kdata::datum::datum;
use ns_mirror::mirror::mirror;
use ns_mirror::row::Mirrored;
use ns_world::ending::Fault;
use ns_world::kernel::Start;
use ns_world::kernel_class::KernelRow;
use ns_world::kernel_parts::{DataRow, FacetRow, MirrorRow};
use ns_world::value::Value;

/// What a row of data answers.
#[tactic(auto, using(crate::proofs::Readiness::lawful_for, crate::proofs::Telling::live_for, crate::proofs::Telling::all_live_for))]
pub fn ask_datum(
    w: &mut Setting,
    row: DataRow,
    receiver: Value,
    args: &[Value],
) -> Option<Result<Value, Fault>>
    requires code { w.old.code ≡ the_code }
    requires ready { WorldIsReady w.old.world }
{
    if !is_live(&w.world, receiver) {
        return None;
    }
    if !are_live(&w.world, args) {
        return None;
    }
    Some(datum(&mut w.world, &w.code, row, receiver, args))
}

/// What a row of a facet answers.
#[tactic(auto, using(crate::proofs::Readiness::lawful_for, crate::proofs::Telling::all_live_for))]
pub fn ask_facet(
    w: &mut Setting,
    row: FacetRow,
    receiver: u32,
    args: &[Value],
    board: &mut Board,
) -> Option<Result<Value, Fault>>
    requires code { w.old.code ≡ the_code }
    requires ready { WorldIsReady w.old.world }
{
    if !are_live(&w.world, args) {
        return None;
    }
    Some(facet(&mut w.world, &w.code, row, receiver, args, board))
}

/// What a row of a mirror answers.
#[tactic(auto, using(crate::proofs::Readiness::lawful_for, crate::proofs::Telling::all_values_for))]
pub fn ask_mirror(
    w: &mut Setting,
    row: MirrorRow,
    receiver: u32,
    args: &[Value],
) -> Option<Result<Mirrored, Fault>>
    requires code { w.old.code ≡ the_code }
    requires ready { WorldIsReady w.old.world }
{
    if !is_cell(&w.world, receiver) {
        return None;
    }
    if !are_live(&w.world, args) {
        return None;
    }
    Some(mirror(&mut w.world, &w.code, row, receiver, args))
}

/// What the lookup of a send to a value finds.
#[tactic(auto, using(crate::proofs::Readiness::lawful_for, crate::proofs::Starting::starts_there))]
pub fn ask_lookup(w: &Setting, receiver: Value, sel: u32, kind: Sending) -> Option<Found>
    requires code { w.now.code ≡ the_code }
    requires ready { WorldIsReady w.now.world }
{
    if !is_live(&w.world, receiver) {
        return None;
    }
    let start = w.world.start(receiver);
    Some(find(&w.world, &w.code, start, Sel(sel), kind))
}

/// What the same lookup finds where lookups are kept.
#[tactic(auto, using(crate::proofs::Readiness::lawful_for, crate::proofs::Starting::starts_there))]
pub fn ask_kept_lookup(
    w: &Setting,
    memo: &mut Memo,
    receiver: Value,
    sel: u32,
    kind: Sending,
) -> Option<Found>
    requires code { w.now.code ≡ the_code }
    requires ready { WorldIsReady w.now.world }
    requires memo { All (PlaceIsRight w.now.world.world.cells w.now.code) memo.old }
    ensures memo { All (PlaceIsRight w.now.world.world.cells w.now.code) memo.new }
{
    if !is_live(&w.world, receiver) {
        return None;
    }
    let start = w.world.start(receiver);
    Some(find_kept(&w.world, &w.code, memo, start, Sel(sel), kind))
}

/// What a lookup finds from a class of the kernel on.
#[tactic(auto, using(crate::proofs::Readiness::lawful_for))]
pub fn ask_kernel_lookup(w: &Setting, row: KernelRow, sel: u32) -> Found
    requires code { w.now.code ≡ the_code }
    requires ready { WorldIsReady w.now.world }
{
    find(
        &w.world,
        &w.code,
        Start::Kernel(row),
        Sel(sel),
        Sending::Plain,
    )
}

/// What a send to `super` finds in code of a holder.
#[tactic(auto, using(crate::proofs::Readiness::lawful_for))]
pub fn ask_super_lookup(w: &Setting, holder: u32, class_side: bool, sel: u32) -> Option<Found>
    requires code { w.now.code ≡ the_code }
    requires ready { WorldIsReady w.now.world }
{
    if !is_class(&w.world, holder) {
        return None;
    }
    let start = super_start(&w.world, holder, class_side);
    Some(find(&w.world, &w.code, start, Sel(sel), Sending::Inner))
}

/// The private member of a holder's instance side.
#[tactic(auto, using(crate::proofs::Readiness::lawful_for))]
pub fn ask_private(w: &Setting, holder: u32, sel: u32) -> Option<Found>
    requires code { w.now.code ≡ the_code }
    requires ready { WorldIsReady w.now.world }
{
    if !is_class(&w.world, holder) {
        return None;
    }
    Some(find_private(&w.world, &w.code, holder, false, Sel(sel)))
}

/// What one more class of Base over a value is.
#[tactic(auto, using(crate::proofs::Readiness::lawful_for, crate::proofs::Telling::live_for, crate::proofs::Starting::base_at_top))]
pub fn ask_class(w: &mut Setting, over: Value) -> Option<Result<u32, MakeFault>>
    requires code { w.old.code ≡ the_code }
    requires ready { WorldIsReady w.old.world }
{
    if !is_live(&w.world, over) {
        return None;
    }
    Some(apply(&mut w.world, &w.code, 0, Value::Nil, Value::Nil, over))
}
