//! What a cell must be.

ghost use Rattle.std.specs.Prelude.{◌≡◌, [], Some, option_map};
ghost use Rattle.ns_world.specs.Heap.{find_cell};
ghost use Rattle.ns_frozen.specs.Freezing.{cell_frozen};
ghost use Rattle.ns_frozen.specs.Cells as spec;
ghost use Rattle.ns_frozen.specs.Thawing.{cell_thawed};
ghost use Rattle.ns_frozen_seen.specs.Seen.{IsSeen, heap_of};
ghost use Rattle.ns_frozen_valid.specs.Cells as own;

use ns_code::body::BodyCode;
use ns_code::kinds::BLOCK;
use ns_frozen::cell::CellData;
use ns_frozen::plain::PlainValue;
use ns_frozen_fitting::environments::fits_environment;
use ns_frozen_seen::plain::is_nil;
use ns_frozen_seen::seen::Seen;
use ns_world::kernel::NO_CLASS;
use ns_world::value::Value;

/// What a block has beside its body.
#[derive(Clone, Copy)]
pub struct BlockParts {
    pub env: Value,
    pub home: u64,
    pub receiver: Value,
    pub holder: u32,
}

/// Whether a cell of that number is as it must be, where so many methods have begun.
pub fn is_good_cell(seen: &Seen<'_>, homes: u64, number: u128, cell: &CellData<'_>) -> bool
    requires seen { IsSeen seen.now }
    requires there { option_map cell_frozen (find_cell (heap_of seen.now) number) ≡ Some cell.now }
    ensures { result ≡ spec.is_good_cell seen.now.code.now (heap_of seen.now) homes number (cell_thawed seen.now.code.now [] cell.now) }
{
    match cell {
        CellData::Object { class, words } => {
            is_good_object(seen, number, *class, words.as_slice())
        }
        CellData::Class {
            decl,
            encl,
            holder,
            over,
        } => seen.has_links(number, *decl, *over) && is_placed(seen, *decl, *encl, *holder),
        CellData::Block {
            body,
            env,
            home,
            receiver,
            holder,
        } => {
            let parts = BlockParts {
                env: *env,
                home: *home,
                receiver: *receiver,
                holder: *holder,
            };
            is_good_block(seen, homes, *body, parts)
        }
        CellData::Environment { parent, locals } => {
            seen.is_environment_or_nil(*parent) && seen.are_live(locals.as_slice())
        }
        CellData::Array(items) => seen.are_live(items.as_slice()),
        CellData::Text(_) => true,
        CellData::Facet(_) => true,
        CellData::Mirror(mirrored) => seen.is_live(*mirrored),
        CellData::Message { sel, args } => seen.has_elements_for(*sel, *args),
    }
}

/// Whether an object is.
fn is_good_object(seen: &Seen<'_>, number: u128, class: u32, words: &[PlainValue]) -> bool
    requires { IsSeen seen.now }
    ensures { result ≡ own.is_good_object seen.now.code.now (heap_of seen.now) number class words.now }
{
    if class == NO_CLASS {
        words.is_empty()
    } else {
        seen.is_instance(number, class, words)
    }
}

/// Whether a class of that declaration has enclosing two as it asks for.
fn is_placed(seen: &Seen<'_>, decl: u32, encl: Value, holder: Value) -> bool
    requires { IsSeen seen.now }
    ensures { result ≡ own.is_placed seen.now.code.now (heap_of seen.now) decl encl holder }
{
    match seen.code.classes.as_slice().get(decl as usize) {
        Some(class) => has_enclosing(seen, class.outer, encl, holder),
        None => false,
    }
}

/// Whether the enclosing two of a class are those that its declaration asks for.
fn has_enclosing(seen: &Seen<'_>, outer: Option<u32>, encl: Value, holder: Value) -> bool
    requires { IsSeen seen.now }
    ensures { result ≡ spec.has_enclosing seen.now.code.now (heap_of seen.now) outer encl holder }
{
    match outer {
        None => is_nil(encl) && is_nil(holder),
        Some(outer) => is_enclosed(seen, outer, encl, holder),
    }
}

/// Whether they are an object with a holder of the outer declaration.
fn is_enclosed(seen: &Seen<'_>, outer: u32, encl: Value, holder: Value) -> bool
    requires { IsSeen seen.now }
    ensures { result ≡ own.is_enclosed seen.now.code.now (heap_of seen.now) outer encl holder }
{
    match holder {
        Value::Ref(holder) => seen.has_holder(holder, encl) && seen.declares(outer, holder),
        _ => false,
    }
}

/// Whether a block is.
fn is_good_block(seen: &Seen<'_>, homes: u64, body: u32, parts: BlockParts) -> bool
    requires { IsSeen seen.now }
    ensures { result ≡ own.is_good_block seen.now.code.now (heap_of seen.now) homes body parts }
{
    match seen.code.bodies.as_slice().get(body as usize) {
        Some(code) => is_block_of(seen, homes, body, parts, code),
        None => false,
    }
}

/// Whether a block's seen, holder, environment and home fit its body, which is a block's.
fn is_block_of(seen: &Seen<'_>, homes: u64, number: u32, parts: BlockParts, body: &BodyCode) -> bool
    requires { IsSeen seen.now }
    ensures { result ≡ spec.is_block_of seen.now.code.now (heap_of seen.now) homes number parts.env parts.home parts.receiver parts.holder body.now }
{
    body.kind == BLOCK
        && seen.fits_body(body, parts.receiver, parts.holder)
        && fits_environment(
            seen,
            seen.kept.as_slice(),
            u64::from(number) + 1,
            body.parent,
            parts.env,
        )
        && seen.bodies.has_block_home(homes, number, parts.home)
}
