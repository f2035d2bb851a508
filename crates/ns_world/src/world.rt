//! The world of a run: its cells, its output, and the charges.

ghost use Rattle.std.specs.Prelude.{◌≡◌, ℕ, ◌+◌, ◌-◌, ◌*◌, ◌<◌, ◌≤◌, [], ◌∷◌, ◌++◌, length, true, false, Some, slice_get, IsTrue, IsSome, OnOk, OnErr};
ghost use Rattle.ns_base.specs.Limits.{InRange};
ghost use Rattle.ns_world.specs.declared.ending.LimitKind.TheVariants.{Steps, Depth, Out};
ghost use Rattle.ns_world.specs.declared.cell.NewCell.TheVariants as cell_is;
ghost use Rattle.ns_world.specs.declared.value.Value.{Value};
ghost use Rattle.ns_world.specs.declared.value.Value.TheVariants as value_is;
ghost use Rattle.ns_world.specs.Blocks.{IsBlockOf};
ghost use Rattle.ns_world.specs.Cell.{fresh, filled_environment, ArrayCell, TextCell};
ghost use Rattle.ns_world.specs.Heap.{has_superclass, words_at, word_at, word_of_object, open_words_at, bytes_at, byte_at, row_at, find_cell, shape_at, cell_number, next_number, is_class, is_chain_start, chain_of, superclass_of};
ghost use Rattle.ns_world.specs.Seek.{first_such, is_facet, is_top};
ghost use Rattle.ns_world.specs.Head.{head_at};
ghost use Rattle.ns_world.specs.Starts.{has_class, class_name_at, is_receiver, start_of};
ghost use Rattle.ns_world.specs.declared.kernel.Start.TheVariants.{Instance};
ghost use Rattle.ns_world.specs.Layout.{declaration_of, base_of};
ghost use Rattle.ns_world.specs.World.{SameRoom, MakesCell, Charges, empty_world, counters_of, stepped, entered, left, printed, written, stored, byte_written};

use crate::cell::{BlockParts, CellLimit, FacetKind, NewCell};
use crate::ending::{Counters, LimitKind};
use crate::head::{
    Head, base_at_head, declared_at_head, is_class_head, kernel_class_row, start_at_head,
};
use crate::heap::Heap;
use crate::kernel::{ClassName, NO_CLASS, Start};
use crate::kernel_class::KernelRow;
use crate::lay::{size_of_cell, text_words};
use crate::seek::Sought;
use crate::value::Value;
use ns_base::limits::Limits;
use ns_base::no_memory::NoMemory;
use std::alloc::Global;
use std::marker::Model;

/// Cells, limits, what was used of them, and output. A clause sees these as plain data, and beside
/// them for how many cells and bytes of output memory was reserved.
#[derive(Drop)]
pub struct World {
    heap: Heap,
    limits: Limits,
    steps: u64,
    depth: u64,
    output: Vec<u8>,
    out_room: u64,
}

impl Model for World {
    ghost use Rattle.std.specs.Prelude.{◌≤◌};
    ghost use Rattle.std.specs.Vec.{vec_capacity};
    ghost use Rattle.ns_world.specs.World.{WorldView, IsWithin};

    ghost Value = { WorldView };

    ghost view = { λ w. record {
      world = record { cells = w.heap.cells; limits = w.limits; steps = w.steps; depth = w.depth; output = w.output.items };
      cell_room = w.heap.room;
      out_room = w.out_room;
    } };

    ghost invariant = { λ w.
        IsWithin (record { cells = w.heap.cells; limits = w.limits; steps = w.steps; depth = w.depth; output = w.output.items })
        × (w.out_room ≤ vec_capacity w.output) };
}

impl World {
    /// A world without cells, for limits that are in range. Nothing is reserved.
    pub fn new(alloc: Global, limits: Limits) -> World
        requires { InRange limits }
        ensures { result ≡ record { world = empty_world limits; cell_room = 0; out_room = 0 } }
    {
        World {
            heap: Heap::new(alloc),
            limits,
            steps: 0,
            depth: 0,
            output: Vec::new(alloc),
            out_room: 0,
        }
    }

    /// Reserves memory for so many cells, and for all the output. After a refusal nothing has
    /// changed.
    pub fn reserve(&mut self, cells: u64) -> Result<(), NoMemory>
        ensures world { self.new.world ≡ self.old.world }
        ensures cells { OnOk result (cells ≤ self.new.cell_room) }
        ensures out { OnOk result (self.new.world.limits.out ≤ self.new.out_room) }
        ensures never_less { (self.old.cell_room ≤ self.new.cell_room) × (self.old.out_room ≤ self.new.out_room) }
        ensures err { OnErr result (self.new ≡ self.old) }
    {
        let out = self.limits.out;
        let more = (out as usize).saturating_sub(self.output.len());
        self.output.reserve_exact(more)?;
        self.heap.reserve(cells)?;
        if self.out_room < out {
            self.out_room = out;
        }
        Ok(())
    }

    /// Charges a cell's size, makes it and gives its number; or answers the limit on cells, exactly
    /// where the size would pass it, and changes nothing. Takes no memory.
    #[inline(always)]
    pub fn make(&mut self, cell: NewCell) -> Result<u32, CellLimit>
        requires room { self.old.world.limits.cells ≤ self.old.cell_room }
        requires superclass { IsTrue (has_superclass self.old.world.cells (fresh cell)) }
        ensures makes { MakesCell self.old (fresh cell) result self.new }
        ensures limits { self.new.world.limits ≡ self.old.world.limits }
        ensures room { SameRoom self.old self.new }
    {
        if self.limits.cells < self.heap.size() + size_of_cell(cell) {
            return Err(CellLimit);
        }
        Ok(self.heap.make(cell))
    }

    /// Makes an array that holds these values, charged as any cell.
    pub fn make_array(&mut self, items: &[Value]) -> Result<u32, CellLimit>
        requires room { self.old.world.limits.cells ≤ self.old.cell_room }
        ensures makes { MakesCell self.old (ArrayCell items.now) result self.new }
        ensures limits { self.new.world.limits ≡ self.old.world.limits }
        ensures room { SameRoom self.old self.new }
    {
        if self.limits.cells - self.heap.size() <= items.len() as u64 {
            return Err(CellLimit);
        }
        Ok(self.heap.make_array(items))
    }

    /// Makes an environment whose first locals hold these values, and so many others nil, charged
    /// as any cell.
    #[inline(always)]
    pub fn make_environment(
        &mut self,
        parent: Value,
        first: &[Value],
        others: u32,
    ) -> Result<u32, CellLimit>
        requires room { self.old.world.limits.cells ≤ self.old.cell_room }
        ensures makes { MakesCell self.old (filled_environment parent first.now others) result self.new }
        ensures limits { self.new.world.limits ≡ self.old.world.limits }
        ensures room { SameRoom self.old self.new }
    {
        let left = self.limits.cells - self.heap.size();
        if left <= u64::from(others) || left - u64::from(others) <= first.len() as u64 {
            return Err(CellLimit);
        }
        Ok(self.heap.make_environment(parent, first, others))
    }

    /// Makes a text of a row of bytes and another behind it, charged as any cell.
    pub fn make_text(&mut self, first: &[u8], second: &[u8]) -> Result<u32, CellLimit>
        requires room { self.old.world.limits.cells ≤ self.old.cell_room }
        ensures makes { MakesCell self.old (TextCell (first.now ++ second.now)) result self.new }
        ensures limits { self.new.world.limits ≡ self.old.world.limits }
        ensures room { SameRoom self.old self.new }
    {
        let bytes = first.len() as u64 + second.len() as u64;
        let left = self.limits.cells - self.heap.size();
        if 4_294_967_295 < bytes || left <= text_words(bytes as u32) {
            return Err(CellLimit);
        }
        Ok(self.heap.make_text(first, second))
    }

    /// A value behind the head of a live cell: an entry of an object, the enclosing object, the
    /// enclosing holder and the superclass of a class, self and the environment of a block, a local
    /// of an environment, an element of an array, what a mirror mirrors, the arguments of a message.
    #[inline(always)]
    pub fn read(&self, at: u32, word: u32) -> Value
        requires { word < length (words_at self.now.world.cells at) }
        ensures { result ≡ word_at self.now.world.cells at word }
    {
        self.heap.read(at, word)
    }

    /// A value behind the head of the cell that a reference names; nil for any other value.
    #[inline]
    pub fn word_of_object(&self, object: Value, word: u32) -> Value
        requires { (at : ℕ) → object ≡ value_is.Ref at → word < length (words_at self.now.world.cells at) }
        ensures { result ≡ word_of_object self.now.world.cells object word }
    {
        match object {
            Value::Ref(at) => self.read(at, word),
            _ => Value::Nil,
        }
    }

    /// Writes a value of an object, an environment or an array.
    #[inline(always)]
    pub fn write(&mut self, at: u32, word: u32, value: Value)
        requires { word < length (open_words_at self.old.world.cells at) }
        ensures { self.new ≡ record self.old { world = written self.old.world at word value } }
    {
        self.heap.write(at, word, value);
    }

    /// Writes a value of what a reference names; of any other value nothing.
    #[inline(always)]
    pub fn store(&mut self, object: Value, word: u32, value: Value)
        requires { (at : ℕ) → object ≡ value_is.Ref at → word < length (open_words_at self.old.world.cells at) }
        ensures { self.new ≡ record self.old { world = stored self.old.world object word value } }
    {
        match object {
            Value::Ref(at) => self.write(at, word, value),
            _ => {}
        }
    }

    /// A byte of a text.
    pub fn byte(&self, at: u32, place: u32) -> u8
        requires { place < length (bytes_at self.now.world.cells at) }
        ensures { result ≡ byte_at self.now.world.cells at place }
    {
        self.heap.byte(at, place)
    }

    /// Eight bytes of a text, the row of that number.
    pub fn row(&self, at: u32, row: u32) -> [u8; 8]
        requires { 8 * row + 8 ≤ length (bytes_at self.now.world.cells at) }
        ensures { result ≡ row_at self.now.world.cells at row }
    {
        self.heap.row(at, row)
    }

    /// Writes a byte of a text.
    pub fn set_byte(&mut self, at: u32, place: u32, byte: u8)
        requires { place < length (bytes_at self.old.world.cells at) }
        ensures { self.new ≡ record self.old { world = byte_written self.old.world at place byte } }
    {
        self.heap.set_byte(at, place, byte);
    }

    /// The kind, the sizes and the fixed parts with which a live cell was made.
    #[inline(always)]
    pub fn cell(&self, at: u32) -> NewCell
        requires { IsSome (find_cell self.now.world.cells at) }
        ensures { result ≡ shape_at self.now.world.cells at }
    {
        self.heap.cell(at)
    }

    /// The number of the environment around an environment, 0 where there is none.
    #[inline(always)]
    pub fn parent(&self, at: u32) -> u32
        requires { IsSome (find_cell self.now.world.cells at) }
        ensures { (parent : Value) (locals : ℕ) → shape_at self.now.world.cells at ≡ cell_is.Environment parent locals → result ≡ cell_number parent }
    {
        self.heap.parent(at)
    }

    /// What the block of that number was made with, where its self is a cell and around it is an environment or none, as with most.
    #[inline(always)]
    pub fn block(&self, at: u32) -> Option<BlockParts>
        requires { IsSome (find_cell self.now.world.cells at) }
        ensures { IsBlockOf (shape_at self.now.world.cells at) result }
    {
        self.heap.block(at)
    }

    /// The kind and the size of a live cell, which stand in its first word.
    #[inline(always)]
    pub fn head(&self, at: u32) -> Head
        requires { IsSome (find_cell self.now.world.cells at) }
        ensures { result ≡ head_at self.now.world.cells at }
    {
        self.heap.head(at)
    }

    /// The number behind a live cell: that of the next, or how many cells are used.
    pub fn next(&self, at: u32) -> u32
        requires { IsSome (find_cell self.now.world.cells at) }
        ensures { result ≡ next_number self.now.world.cells at }
    {
        self.heap.next(at)
    }

    /// Whether a live cell is a class.
    #[tactic(auto, using(crate::proofs::HeadTests::class_told))]
    pub fn is_class(&self, at: u32) -> bool
        requires { IsSome (find_cell self.now.world.cells at) }
        ensures { result ≡ is_class (find_cell self.now.world.cells at) }
    {
        is_class_head(self.heap.head(at))
    }

    /// The declaration of a class.
    #[inline(always)]
    #[tactic(auto, using(crate::proofs::HeadTests::declaration_told))]
    pub fn declaration(&self, class: u32) -> u32
        requires { IsTrue (is_class (find_cell self.now.world.cells class)) }
        ensures { result ≡ declaration_of self.now.world.cells class }
    {
        declared_at_head(self.heap.head(class))
    }

    /// The base of a class: in a lawful world how many entries the classes above it have.
    #[inline(always)]
    #[tactic(auto, using(crate::proofs::HeadTests::base_told))]
    pub fn base(&self, class: u32) -> u32
        requires { IsTrue (is_class (find_cell self.now.world.cells class)) }
        ensures { result ≡ base_of self.now.world.cells class }
    {
        base_at_head(self.heap.head(class))
    }

    /// Whether a value can be a receiver: it refers to no cell, or to one that is there and no environment. Any value may be
    /// asked for, and the answer comes by one read.
    pub fn is_receiver(&self, value: Value) -> bool
        ensures { result ≡ is_receiver self.now.world.cells value }
    {
        match value {
            Value::Ref(at) => self.heap.is_receiver(at),
            _ => true,
        }
    }

    /// Where the lookup of a send to this value starts. An environment is no receiver.
    #[inline(always)]
    #[tactic(auto, using(crate::proofs::HeadTests::start_told))]
    pub fn start(&self, value: Value) -> Start
        requires { IsTrue (is_receiver self.now.world.cells value) }
        ensures { result ≡ start_of self.now.world.cells value }
    {
        match value {
            Value::Nil => Start::Kernel(KernelRow::UndefinedObject),
            Value::True => Start::Kernel(KernelRow::Boolean),
            Value::False => Start::Kernel(KernelRow::Boolean),
            Value::Int(_) => Start::Kernel(KernelRow::Integer),
            Value::Sym(_) => Start::Kernel(KernelRow::Symbol),
            Value::Kernel(class) => Start::Kernel(kernel_class_row(class)),
            Value::Ref(at) => start_at_head(self.heap.head(at), at),
        }
    }

    /// The name of the class of a start, by which an error names its receiver.
    #[inline(always)]
    pub fn class_name(&self, start: Start) -> ClassName
        requires { IsTrue (has_class self.now.world.cells start) }
        ensures { result ≡ class_name_at self.now.world.cells start }
    {
        match start {
            Start::Instance(class) => self.name_of_instance(class),
            Start::ClassSide { class, .. } => ClassName::ClassOf(self.declaration(class)),
            Start::Kernel(row) => ClassName::Kernel(row),
        }
    }

    #[inline(always)]
    fn name_of_instance(&self, class: u32) -> ClassName
        requires { IsTrue (has_class self.now.world.cells (Instance class)) }
        ensures { result ≡ class_name_at self.now.world.cells (Instance class) }
    {
        if class == NO_CLASS {
            return ClassName::Kernel(KernelRow::Object);
        }
        ClassName::Declared(self.declaration(class))
    }

    /// The class so many steps up the chain of a class, none exactly past its end. The number of no
    /// class stands for the empty chain.
    pub fn chain(&self, class: u32, k: u32) -> Option<u32>
        requires { IsTrue (is_chain_start self.now.world.cells class) }
        ensures { result ≡ slice_get (chain_of self.now.world.cells class) k }
    {
        self.heap.chain(class, k)
    }

    /// Whether a chain has come to its end: whether this is the number of no class.
    pub fn is_past(&self, class: u32) -> bool
        requires { IsTrue (is_chain_start self.now.world.cells class) }
        ensures past { result ≡ true → chain_of self.now.world.cells class ≡ [] }
        ensures class { result ≡ false → IsTrue (is_class (find_cell self.now.world.cells class)) }
        ensures first { result ≡ false → slice_get (chain_of self.now.world.cells class) 0 ≡ Some class }
    {
        self.heap.is_past(class)
    }

    /// The superclass of a class, the number of no class where it is the kernel's.
    pub fn superclass(&self, class: u32) -> u32
        requires { IsTrue (is_class (find_cell self.now.world.cells class)) }
        ensures class { result ≡ superclass_of self.now.world.cells class }
        ensures chain { chain_of self.now.world.cells class ≡ class ∷ chain_of self.now.world.cells result }
        ensures start { IsTrue (is_chain_start self.now.world.cells result) }
    {
        self.heap.superclass(class)
    }

    /// The number of the first facet of that kind, none exactly where none was made.
    pub fn granted(&self, kind: FacetKind) -> Option<u32>
        ensures { result ≡ first_such (is_facet kind) self.now.world.cells }
    {
        self.heap.first(Sought::Facet(kind))
    }

    /// The number of the first class of that declaration whose enclosing object is nil, none
    /// exactly where none was made.
    pub fn top(&self, decl: u32) -> Option<u32>
        ensures { result ≡ first_such (is_top decl) self.now.world.cells }
    {
        self.heap.first(Sought::Top(decl))
    }

    /// Charges one step.
    #[inline(always)]
    pub fn step(&mut self) -> Result<(), LimitKind>
        ensures charges { Charges (stepped self.old.world) Steps self.old result self.new }
        ensures limits { self.new.world.limits ≡ self.old.world.limits }
        ensures room { SameRoom self.old self.new }
    {
        if self.limits.steps <= self.steps {
            return Err(LimitKind::Steps);
        }
        self.steps += 1;
        Ok(())
    }

    /// Charges one frame.
    #[inline(always)]
    pub fn enter(&mut self) -> Result<(), LimitKind>
        ensures charges { Charges (entered self.old.world) Depth self.old result self.new }
        ensures limits { self.new.world.limits ≡ self.old.world.limits }
        ensures room { SameRoom self.old self.new }
    {
        if self.limits.depth <= self.depth {
            return Err(LimitKind::Depth);
        }
        self.depth += 1;
        Ok(())
    }

    /// Gives one frame back.
    #[inline(always)]
    pub fn leave(&mut self)
        requires { 0 < self.old.world.depth }
        ensures { self.new ≡ record self.old { world = left self.old.world } }
    {
        self.depth -= 1;
    }

    /// Charges and appends output. A print that doesn't fit writes nothing.
    pub fn print(&mut self, bytes: &[u8]) -> Result<(), LimitKind>
        requires room { self.old.world.limits.out ≤ self.old.out_room }
        ensures charges { Charges (printed self.old.world bytes.now) Out self.old result self.new }
        ensures limits { self.new.world.limits ≡ self.old.world.limits }
        ensures room { SameRoom self.old self.new }
    {
        if self.limits.out - (self.output.len() as u64) < bytes.len() as u64 {
            return Err(LimitKind::Out);
        }
        let _put = self.output.extend_from_slice(bytes);
        Ok(())
    }

    /// What was used of each limit.
    #[inline(always)]
    pub fn counters(&self) -> Counters
        ensures { result ≡ counters_of self.now.world }
    {
        Counters {
            steps: self.steps,
            cells: self.heap.size(),
            depth: self.depth,
            out: self.output.len() as u64,
        }
    }

    /// The limits.
    pub fn limits(&self) -> Limits
        ensures { result ≡ self.now.world.limits }
    {
        self.limits
    }

    /// What was printed.
    pub fn output(&self) -> &[u8]
        ensures { result.now ≡ self.now.world.output }
    {
        self.output.as_slice()
    }

    /// Goes on with other counts of steps and of frames.
    pub fn resume(&mut self, steps: u64, depth: u64)
        requires steps { steps ≤ self.old.world.limits.steps }
        requires depth { depth ≤ self.old.world.limits.depth }
        ensures { self.new ≡ record self.old { world = record self.old.world { steps = steps; depth = depth } } }
    {
        self.steps = steps;
        self.depth = depth;
    }

    /// Forgets all cells and all output, with all counters 0. What was reserved stays.
    pub fn clear(&mut self)
        ensures { self.new ≡ record self.old { world = empty_world self.old.world.limits } }
    {
        self.heap.clear();
        self.output.clear();
        self.steps = 0;
        self.depth = 0;
    }
}
