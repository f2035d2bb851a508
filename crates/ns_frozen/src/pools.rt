//! What the cells of a state hold, kept together, so that each cell takes little memory.

ghost use Rattle.std.specs.Prelude.{◌≡◌, ◌<◌, ◌≤◌, ◌+◌, [], ◌∷◌, ◌++◌, length, drop, IfOk, OnOk, OnErr};
ghost use Rattle.std.specs.List.{slice_index_or};
ghost use Rattle.ns_world.specs.declared.value.Value.TheVariants.{Nil};
ghost use Rattle.ns_frozen.specs.declared.cell.CellData.TheVariants as cell;
ghost use Rattle.ns_frozen.specs.Heads as spec;

use crate::cell::CellData;
use crate::lent::Lent;
use crate::plain::PlainValue;
use ns_base::no_memory::NoMemory;
use ns_base::selector::Sel;
use ns_world::cell::FacetKind;
use ns_world::value::Value;
use std::alloc::Global;

/// A cell in twelve bytes: what there is little of it holds, and of the rest it says at which place of the pools that begins,
/// and how much there is. The class of an object stands behind its words, the parent of an environment behind its locals.
#[derive(Drop)]
pub enum Head {
    Object { at: u32, count: u32 },
    Class { decl: u32, at: u32 },
    Block(u32),
    Environment { at: u32, count: u32 },
    Array { at: u32, count: u32 },
    Text { at: u32, count: u32 },
    Facet(FacetKind),
    Mirror(PlainValue),
    Message { sel: Sel, at: u32 },
}

const _: () = prove!(size_of::<Head>() == 12);

/// The values of a class.
#[derive(Drop)]
pub struct ClassParts {
    pub encl: PlainValue,
    pub holder: PlainValue,
    pub over: PlainValue,
}

const _: () = prove!(size_of::<ClassParts>() == 27);

/// A block.
#[derive(Clone, Copy)]
pub struct BlockData {
    pub body: u32,
    pub env: Value,
    pub receiver: Value,
    pub holder: u32,
    pub home: u64,
}

/// A cell that is to be put, whose words, if it has any, are there already.
#[derive(Clone, Copy)]
pub enum NewData<'a> {
    Object(u32),
    Class {
        decl: u32,
        encl: Value,
        holder: Value,
        over: Value,
    },
    Block(BlockData),
    Environment(Value),
    Array,
    Text(&'a [u8]),
    Facet(FacetKind),
    Mirror(Value),
    Message {
        sel: Sel,
        args: Value,
    },
}

/// Words and what stands behind them; the bytes of texts; the values of classes; blocks; and the arguments of messages.
#[derive(Drop)]
pub struct Pools {
    values: Vec<PlainValue>,
    bytes: Vec<u8>,
    classes: Vec<ClassParts>,
    blocks: Vec<BlockData>,
    arguments: Vec<PlainValue>,
}

impl Pools {
    /// Empty pools.
    pub fn new(alloc: Global) -> Pools
        ensures { spec.AreEmpty result }
    {
        Pools {
            values: Vec::new(alloc),
            bytes: Vec::new(alloc),
            classes: Vec::new(alloc),
            blocks: Vec::new(alloc),
            arguments: Vec::new(alloc),
        }
    }

    /// How many words there are.
    pub fn words(&self) -> usize
        ensures { result ≡ length self.now.values.items }
    {
        self.values.len()
    }

    /// The cell of a head.
    pub fn shown(&self, head: &Head) -> CellData<'_>
        requires { spec.IsThere self.now head.now }
        ensures { result ≡ spec.shown self.now head.now }
    {
        match head {
            Head::Object { at, count } => CellData::Object {
                class: class_named(self.behind(*at, *count)),
                words: self.run(*at, *count),
            },
            Head::Class { decl, at } => class_of(*decl, &self.classes, *at),
            Head::Block(at) => block_of(&self.blocks, *at),
            Head::Environment { at, count } => CellData::Environment {
                parent: self.behind(*at, *count),
                locals: self.run(*at, *count),
            },
            Head::Array { at, count } => CellData::Array(self.run(*at, *count)),
            Head::Text { at, count } => CellData::Text(Lent::of(run(&self.bytes, *at, *count))),
            Head::Facet(kind) => CellData::Facet(*kind),
            Head::Mirror(mirrored) => CellData::Mirror(mirrored.value()),
            Head::Message { sel, at } => CellData::Message {
                sel: *sel,
                args: value_at(&self.arguments, *at as usize),
            },
        }
    }

    /// So many words from a place on.
    fn run(&self, at: u32, count: u32) -> Lent<'_, PlainValue>
        requires { at + count ≤ length self.now.values.items }
        ensures { result ≡ spec.run at count self.now.values.items }
    {
        Lent::of(run(&self.values, at, count))
    }

    /// What stands behind them.
    fn behind(&self, at: u32, count: u32) -> Value
        requires { at + count < length self.now.values.items }
        ensures { result ≡ slice_index_or self.now.values.items (at + count) Nil }
    {
        value_at(&self.values, at as usize + count as usize)
    }

    /// Puts one more word.
    pub fn word(&mut self, word: Value) -> Result<(), NoMemory>
        ensures keeps { spec.ShowsSame self.old self.new }
        ensures words { OnOk result (self.new.values.items ≡ self.old.values.items ++ word ∷ []) }
    {
        self.values.push(PlainValue::of(word))?;
        Ok(())
    }

    /// The head of one more cell, whose words are those from a place on.
    pub fn head(&mut self, cell: NewData<'_>, from: usize) -> Result<Head, NoMemory>
        requires { from ≤ length self.old.values.items }
        ensures keeps { spec.ShowsSame self.old self.new }
        ensures head { IfOk result (spec.IsHeadOf self.new (spec.data_of cell.entry (drop from self.old.values.items))) }
    {
        match cell {
            NewData::Object(class) => self.object(class, from),
            NewData::Class {
                decl,
                encl,
                holder,
                over,
            } => self.class(decl, encl, holder, over),
            NewData::Block(parts) => self.block(parts),
            NewData::Environment(parent) => self.environment(parent, from),
            NewData::Array => self.array(from),
            NewData::Text(bytes) => self.text(bytes),
            NewData::Facet(kind) => Ok(Head::Facet(kind)),
            NewData::Mirror(mirrored) => Ok(Head::Mirror(PlainValue::of(mirrored))),
            NewData::Message { sel, args } => self.message(sel, args),
        }
    }

    /// Words from a place on as an array.
    fn array(&self, from: usize) -> Result<Head, NoMemory>
        requires { from ≤ length self.now.values.items }
        ensures { IfOk result (spec.IsHeadOf self.now (cell.Array (drop from self.now.values.items))) }
    {
        let at = narrow(from)?;
        let count = narrow(self.values.len() - from)?;
        Ok(Head::Array { at, count })
    }

    /// The same as an object of a class.
    fn object(&mut self, class: u32, from: usize) -> Result<Head, NoMemory>
        requires { from ≤ length self.old.values.items }
        ensures keeps { spec.ShowsSame self.old self.new }
        ensures head { IfOk result (spec.IsHeadOf self.new (cell.Object class (drop from self.old.values.items))) }
    {
        let at = narrow(from)?;
        let count = narrow(self.values.len() - from)?;
        self.word(Value::Ref(class))?;
        Ok(Head::Object { at, count })
    }

    /// The same as an environment with a parent.
    fn environment(&mut self, parent: Value, from: usize) -> Result<Head, NoMemory>
        requires { from ≤ length self.old.values.items }
        ensures keeps { spec.ShowsSame self.old self.new }
        ensures head { IfOk result (spec.IsHeadOf self.new (cell.Environment parent (drop from self.old.values.items))) }
    {
        let at = narrow(from)?;
        let count = narrow(self.values.len() - from)?;
        self.word(parent)?;
        Ok(Head::Environment { at, count })
    }

    /// A class.
    fn class(
        &mut self,
        decl: u32,
        encl: Value,
        holder: Value,
        over: Value,
    ) -> Result<Head, NoMemory>
        ensures keeps { spec.ShowsSame self.old self.new }
        ensures head { IfOk result (spec.IsHeadOf self.new (cell.Class decl encl holder over)) }
    {
        let at = put(
            &mut self.classes,
            ClassParts {
                encl: PlainValue::of(encl),
                holder: PlainValue::of(holder),
                over: PlainValue::of(over),
            },
        )?;
        Ok(Head::Class { decl, at })
    }

    /// A block.
    fn block(&mut self, parts: BlockData) -> Result<Head, NoMemory>
        ensures keeps { spec.ShowsSame self.old self.new }
        ensures head { IfOk result (spec.IsHeadOf self.new (spec.block_of parts)) }
    {
        let at = put(&mut self.blocks, parts)?;
        Ok(Head::Block(at))
    }

    /// A text.
    fn text(&mut self, bytes: &[u8]) -> Result<Head, NoMemory>
        ensures keeps { spec.ShowsSame self.old self.new }
        ensures head { IfOk result (spec.IsHeadOf self.new (cell.Text bytes.now)) }
    {
        let at = narrow(self.bytes.len())?;
        let count = narrow(bytes.len())?;
        self.bytes.extend_from_slice(bytes)?;
        Ok(Head::Text { at, count })
    }

    /// A message.
    fn message(&mut self, sel: Sel, args: Value) -> Result<Head, NoMemory>
        ensures keeps { spec.ShowsSame self.old self.new }
        ensures head { IfOk result (spec.IsHeadOf self.new (cell.Message sel args)) }
    {
        let at = put(&mut self.arguments, PlainValue::of(args))?;
        Ok(Head::Message { sel, at })
    }
}

/// Puts an entry into a pool, at the next place. More entries than have numbers find no memory.
fn put<T: Drop>(pool: &mut Vec<T>, entry: T) -> Result<u32, NoMemory>
    ensures at { IfOk result (λ at. at ≡ length pool.old.items) }
    ensures put { IfOk result (λ _. pool.new.items ≡ pool.old.items ++ entry ∷ []) }
    ensures err { OnErr result (pool.new.items ≡ pool.old.items) }
{
    let at = narrow(pool.len())?;
    pool.push(entry)?;
    Ok(at)
}

/// A number of four bytes; what has more finds no memory.
fn narrow(number: usize) -> Result<u32, NoMemory>
    ensures { IfOk result (λ narrow. narrow ≡ number) }
{
    match u32::try_from(number) {
        Ok(narrow) => Ok(narrow),
        Err(_) => Err(NoMemory),
    }
}

/// So many items of a pool from a place on.
fn run<T>(pool: &[T], at: u32, count: u32) -> &[T]
    requires { at + count ≤ length pool.now }
    ensures { result.now ≡ spec.run at count pool.now }
{
    let (_, behind) = pool.split_at(at as usize);
    behind.split_at(count as usize).0
}

/// The value at a place.
fn value_at(values: &[PlainValue], at: usize) -> Value
    requires { at < length values.now }
    ensures { result ≡ slice_index_or values.now at Nil }
{
    values[at].value()
}

/// The class that a value names.
fn class_named(value: Value) -> u32
    ensures { result ≡ spec.class_named value }
{
    match value {
        Value::Ref(class) => class,
        _ => 0,
    }
}

/// The class whose values stand at a place.
fn class_of<'a>(decl: u32, classes: &[ClassParts], at: u32) -> CellData<'a>
    requires { at < length classes.now }
    ensures { result ≡ spec.class_at decl at classes.now }
{
    let parts = &classes[at as usize];
    CellData::Class {
        decl,
        encl: parts.encl.value(),
        holder: parts.holder.value(),
        over: parts.over.value(),
    }
}

/// The block at a place.
fn block_of<'a>(blocks: &[BlockData], at: u32) -> CellData<'a>
    requires { at < length blocks.now }
    ensures { result ≡ spec.block_at at blocks.now }
{
    let parts = &blocks[at as usize];
    CellData::Block {
        body: parts.body,
        env: parts.env,
        receiver: parts.receiver,
        holder: parts.holder,
        home: parts.home,
    }
}
