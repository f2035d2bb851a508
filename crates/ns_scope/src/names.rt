//! What a body and a side declare.

ghost use Rattle.std.specs.Prelude.{◌≡◌, ◌++◌, ◌∷◌, [], IfOk, OnOk, length, not};
ghost use Rattle.ns_tree.specs.Plain as p;
ghost use Rattle.ns_tree.specs.PlainOf.{bars_of, slots_of, init_of, side_of, members_of, what_of, class_of, class_side_of, method_of};
ghost use Rattle.ns_scope.specs.Table.{has, put_first};
ghost use Rattle.ns_scope.specs.Names.{declare, table_of, setting_of, numbered, param_settings, slot_settings, bars_settings, locals_of};
ghost use Rattle.ns_scope.specs.Names.{access_or, setter_of, getter_setter, slot_members, bars_members, selector_of, start_of, what_member};
ghost use Rattle.ns_scope.specs.Names.{members_named, side_members, instance_members, class_members};

use crate::table::Table;
use ns_base::key::{FEW, Key, Origin};
use ns_base::no_memory::NoMemory;
use ns_base::text::Text;
use ns_tree::tree::{Access, Class, Member, Method, Named, Side, Slot, SlotInit, What};
use std::alloc::Global;

/// A name that is declared: its text, the number of its token, and what it stands for.
#[derive(Drop)]
pub struct Declared<V> {
    pub name: Text,
    pub at: u32,
    pub value: V,
}

/// A parameter or local of a body: its number in the body, and whether it can be set.
#[derive(Clone, Copy)]
pub struct Local {
    pub index: u32,
    pub setting: Setting,
}

/// Whether a local can be set.
#[derive(Clone, Copy)]
pub enum Setting {
    Fixed,
    Mutable,
}

/// What each name stands for. The first that declares it decides.
pub fn table_of<V: Copy>(alloc: Global, declared: &[Declared<V>]) -> Result<Table<V>, NoMemory>
    ensures { IfOk result (λ table. table ≡ table_of declared.now) }
{
    let mut table = Table::new(alloc, key_of(declared));
    for one in declared {
        put_declared(alloc, &mut table, one)?;
    }
    Ok(table)
}

/// The key of a table of these names.
pub fn key_of<V>(declared: &[Declared<V>]) -> Key {
    if declared.len() <= FEW {
        return Key::of_few();
    }
    let mut origin = Origin::new();
    for one in declared {
        origin.add(one.name.bytes());
    }
    origin.key()
}

/// Puts a name in, unless it is there. Tells whether it is new.
pub fn put_declared<V: Copy>(
    alloc: Global,
    table: &mut Table<V>,
    declared: &Declared<V>,
) -> Result<bool, NoMemory>
    ensures new { IfOk result (λ new. new ≡ not (has table.old declared.now.name)) }
    ensures put { OnOk result (table.new ≡ put_first table.old declared.now.name declared.now.value) }
{
    let name = Text::of(alloc, declared.name.bytes())?;
    table.put_first(name, declared.value)
}

// ---- locals

/// The parameters of a body, and then its locals.
#[tactic(auto, using(crate::proofs::Numbers::numbered_append))]
pub fn locals(
    alloc: Global,
    params: &[Named],
    slots: &Option<Vec<Slot>>,
) -> Result<Vec<Declared<Local>>, NoMemory>
    ensures { IfOk result (λ all. all.items ≡ locals_of params.now (bars_of slots.now)) }
{
    let mut all = Vec::new(alloc);
    put_params(&mut all, params)?;
    put_bars(&mut all, slots)?;
    Ok(all)
}

fn put_params(all: &mut Vec<Declared<Local>>, params: &[Named]) -> Result<(), NoMemory>
    ensures { OnOk result (all.new.items ≡ all.old.items ++ numbered (length all.old.items) (param_settings params.now)) }
{
    for param in params {
        put_local(all, param, Setting::Fixed)?;
    }
    Ok(())
}

fn put_bars(all: &mut Vec<Declared<Local>>, slots: &Option<Vec<Slot>>) -> Result<(), NoMemory>
    ensures { OnOk result (all.new.items ≡ all.old.items ++ numbered (length all.old.items) (bars_settings (bars_of slots.now))) }
{
    match slots {
        None => Ok(()),
        Some(slots) => put_slots(all, slots),
    }
}

fn put_slots(all: &mut Vec<Declared<Local>>, slots: &[Slot]) -> Result<(), NoMemory>
    ensures { OnOk result (all.new.items ≡ all.old.items ++ numbered (length all.old.items) (slot_settings (slots_of slots.now))) }
{
    for slot in slots {
        put_local(all, &slot.name, setting_of(&slot.init))?;
    }
    Ok(())
}

/// A further local, which gets the next number.
fn put_local(all: &mut Vec<Declared<Local>>, name: &Named, setting: Setting) -> Result<(), NoMemory>
    ensures { OnOk result (all.new.items ≡ all.old.items ++ numbered (length all.old.items) ((name.now, setting) ∷ [])) }
{
    let alloc = *all.allocator();
    match u32::try_from(all.len()) {
        Err(_) => Err(NoMemory),
        Ok(index) => {
            let value = Local { index, setting };
            all.push(declare(alloc, name.text.bytes(), name.at, value)?)?;
            Ok(())
        }
    }
}

/// A local of the form `x = e.` can't be set.
fn setting_of(init: &SlotInit) -> Setting
    ensures { result ≡ setting_of (init_of init.now) }
{
    match init {
        SlotInit::Bare { stop: _ } => Setting::Mutable,
        SlotInit::Fixed(_) => Setting::Fixed,
        SlotInit::Mutable(_) => Setting::Mutable,
    }
}

fn declare<V: Copy>(alloc: Global, name: &[u8], at: u32, value: V) -> Result<Declared<V>, NoMemory>
    ensures { IfOk result (λ declared. declared ≡ declare name.now at value) }
{
    Ok(Declared {
        name: Text::of(alloc, name)?,
        at,
        value,
    })
}

// ---- members

/// The members of the instance side, which are protected without a word.
pub fn instance_members(
    alloc: Global,
    slots: &Option<Vec<Slot>>,
    side: &Side,
) -> Result<Vec<Declared<Access>>, NoMemory>
    ensures { IfOk result (λ all. all.items ≡ instance_members (bars_of slots.now) (side_of side.now)) }
{
    let mut all = Vec::new(alloc);
    put_bars_members(&mut all, slots)?;
    put_side_members(&mut all, Access::Protected, side)?;
    Ok(all)
}

/// The members of the class side, which are public without a word.
pub fn class_members(alloc: Global, side: &Option<Side>) -> Result<Vec<Declared<Access>>, NoMemory>
    ensures { IfOk result (λ all. all.items ≡ class_members (class_side_of side.now)) }
{
    let mut all = Vec::new(alloc);
    put_class_members(&mut all, side)?;
    Ok(all)
}

fn put_class_members(all: &mut Vec<Declared<Access>>, side: &Option<Side>) -> Result<(), NoMemory>
    ensures { OnOk result (all.new.items ≡ all.old.items ++ class_members (class_side_of side.now)) }
{
    match side {
        None => Ok(()),
        Some(side) => put_side_members(all, Access::Public, side),
    }
}

fn put_bars_members(
    all: &mut Vec<Declared<Access>>,
    slots: &Option<Vec<Slot>>,
) -> Result<(), NoMemory>
    ensures { OnOk result (all.new.items ≡ all.old.items ++ bars_members (bars_of slots.now)) }
{
    match slots {
        None => Ok(()),
        Some(slots) => put_slot_members(all, slots),
    }
}

fn put_slot_members(all: &mut Vec<Declared<Access>>, slots: &[Slot]) -> Result<(), NoMemory>
    ensures { OnOk result (all.new.items ≡ all.old.items ++ slot_members (slots_of slots.now)) }
{
    for slot in slots {
        let access = access_or(Access::Protected, slot.access);
        put_getter_setter(all, setting_of(&slot.init), &slot.name, access)?;
    }
    Ok(())
}

/// The access of a member: its own, or another where it is written without one.
pub fn access_or(other: Access, access: Option<Access>) -> Access
    ensures { result ≡ access_or other access }
{
    match access {
        None => other,
        Some(access) => access,
    }
}

/// A getter, and a setter where the slot is mutable.
fn put_getter_setter(
    all: &mut Vec<Declared<Access>>,
    setting: Setting,
    name: &Named,
    access: Access,
) -> Result<(), NoMemory>
    ensures { OnOk result (all.new.items ≡ all.old.items ++ getter_setter setting name.now.text name.now.at access) }
{
    put_member(all, name.text.bytes(), name.at, access)?;
    match setting {
        Setting::Fixed => Ok(()),
        Setting::Mutable => {
            let alloc = *all.allocator();
            let setter = setter_of(alloc, name.text.bytes())?;
            put_member(all, setter.bytes(), name.at, access)
        }
    }
}

fn setter_of(alloc: Global, name: &[u8]) -> Result<Text, NoMemory>
    ensures { IfOk result (λ text. text ≡ setter_of name.now) }
{
    let mut bytes = Vec::from_slice(alloc, name)?;
    bytes.push(b':')?;
    Ok(Text::from_vec(bytes))
}

fn put_member(
    all: &mut Vec<Declared<Access>>,
    name: &[u8],
    at: u32,
    access: Access,
) -> Result<(), NoMemory>
    ensures { OnOk result (all.new.items ≡ all.old.items ++ declare name.now at access ∷ []) }
{
    let alloc = *all.allocator();
    all.push(declare(alloc, name, at, access)?)?;
    Ok(())
}

fn put_side_members(
    all: &mut Vec<Declared<Access>>,
    other: Access,
    side: &Side,
) -> Result<(), NoMemory>
    ensures { OnOk result (all.new.items ≡ all.old.items ++ side_members other (side_of side.now)) }
{
    put_members(all, other, &side.members)
}

fn put_members(
    all: &mut Vec<Declared<Access>>,
    other: Access,
    members: &[Member],
) -> Result<(), NoMemory>
    ensures { OnOk result (all.new.items ≡ all.old.items ++ members_named other (members_of members.now)) }
{
    for member in members {
        put_what(all, access_or(other, member.access), &member.what)?;
    }
    Ok(())
}

fn put_what(all: &mut Vec<Declared<Access>>, access: Access, what: &What) -> Result<(), NoMemory>
    ensures { OnOk result (all.new.items ≡ all.old.items ++ what_member access (what_of what.now) ∷ []) }
{
    match what {
        What::Class(class) => put_class(all, access, class),
        What::Method(method) => put_method(all, access, method),
    }
}

fn put_class(all: &mut Vec<Declared<Access>>, access: Access, class: &Class) -> Result<(), NoMemory>
    ensures { OnOk result (all.new.items ≡ all.old.items ++ what_member access (p.class_member (class_of class.now)) ∷ []) }
{
    put_member(all, class.name.text.bytes(), class.name.at, access)
}

fn put_method(
    all: &mut Vec<Declared<Access>>,
    access: Access,
    method: &Method,
) -> Result<(), NoMemory>
    ensures { OnOk result (all.new.items ≡ all.old.items ++ what_member access (p.method_member (method_of method.now)) ∷ []) }
{
    let alloc = *all.allocator();
    let name = selector(alloc, &method.pattern.parts)?;
    put_member(all, name.bytes(), start_of(&method.pattern.parts), access)
}

/// The parts of a pattern, joined.
pub fn selector(alloc: Global, parts: &[Named]) -> Result<Text, NoMemory>
    ensures { IfOk result (λ text. text ≡ selector_of parts.now) }
{
    let mut bytes = Vec::new(alloc);
    for part in parts {
        bytes.extend_from_slice(part.text.bytes())?;
    }
    Ok(Text::from_vec(bytes))
}

/// The number of the first part's token.
fn start_of(parts: &[Named]) -> u32
    ensures { result ≡ start_of parts.now }
{
    match parts {
        [] => 0,
        [part, ..] => part.at,
    }
}
