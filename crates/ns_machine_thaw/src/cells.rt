//! The cells that plain data stands for, made one behind the other.

ghost use Rattle.std.specs.Prelude.{◌≡◌, ◌+◌, ◌<◌, ◌≤◌, ◌∷◌, length, IsTrue};
ghost use Rattle.ns_moves.specs.Room.{HasCellRoom};
ghost use Rattle.ns_frozen.specs.declared.cell.CellData.TheVariants.{Class as ClassData};
ghost use Rattle.ns_frozen.specs.Thawing.{cell_thawed, cells_onto};
ghost use Rattle.ns_world.specs.declared.cell.NewCell.TheVariants as new;
ghost use Rattle.ns_world.specs.Cell.{ObjectCell, EnvironmentCell, ArrayCell, TextCell, cell_size, fresh};
ghost use Rattle.ns_world.specs.Heap.{heap_size, is_superclass, has_superclass, no_class};
ghost use Rattle.ns_world.specs.Layout.{entries_above, entries_of};
ghost use Rattle.ns_world.specs.World.{SameRoom};
ghost use Rattle.ns_machine_thaw.specs.Cells.{CellsFit, CellIsPut, StandsOver, EndsWith, with_words};

use ns_code::program::CodeProgram;
use ns_frozen::cell::CellData;
use ns_frozen::plain::PlainValue;
use ns_frozen::stored::Cells;
use ns_world::cell::NewCell;
use ns_world::value::Value;
use ns_world::world::World;

/// Makes cells in their order, behind those that are there. Each then has its number: the sum of the sizes of those
/// before it.
pub fn put_cells(world: &mut World, code: &CodeProgram, cells: &Cells)
    requires room { HasCellRoom world.old }
    requires fit { CellsFit code.now world.old.world.limits.cells (cells_onto code.now world.old.world.cells cells.now) }
    ensures world { world.new.world ≡ record world.old.world { cells = cells_onto code.now world.old.world.cells cells.now } }
    ensures room { SameRoom world.old world.new }
{
    'cells: for place in 0..cells.len() {
        let cell = cells.at(place);
        put_cell(world, code, &cell);
    }
}

/// Makes a cell. What it refers to may stand behind it; but its superclass, where it is a class.
#[tactic(auto, using(crate::proofs::Fitting::last_superclass, crate::proofs::Fitting::last_within, crate::proofs::Fitting::last_small))]
fn put_cell(world: &mut World, code: &CodeProgram, cell: &CellData<'_>)
    requires room { HasCellRoom world.old }
    requires fit { CellsFit code.now world.old.world.limits.cells (cell_thawed code.now world.old.world.cells cell.now ∷ world.old.world.cells) }
    ensures { CellIsPut (cell_thawed code.now world.old.world.cells cell.now) world.old world.new }
{
    match cell {
        CellData::Object { class, words } => put_object(world, *class, words.as_slice()),
        CellData::Class {
            decl,
            encl,
            holder,
            over,
        } => put_class(world, code, *decl, *encl, *holder, *over),
        CellData::Block {
            body,
            env,
            home,
            receiver,
            holder,
        } => put_fresh(world, new_block(*body, *env, *receiver, *holder, *home)),
        CellData::Environment { parent, locals } => {
            put_environment(world, *parent, locals.as_slice())
        }
        CellData::Array(items) => put_array(world, items.as_slice()),
        CellData::Text(text) => put_text(world, text.as_slice()),
        CellData::Facet(kind) => put_fresh(world, NewCell::Facet(*kind)),
        CellData::Mirror(mirrored) => put_fresh(world, NewCell::Mirror(*mirrored)),
        CellData::Message { sel, args } => put_fresh(
            world,
            NewCell::Message {
                sel: *sel,
                args: *args,
            },
        ),
    }
}

/// A block with these parts.
fn new_block(body: u32, env: Value, receiver: Value, holder: u32, home: u64) -> NewCell
    ensures { result ≡ new.Block body env home receiver holder }
{
    NewCell::Block {
        body,
        env,
        home,
        receiver,
        holder,
    }
}

/// Makes a cell that has all that it holds from the start.
#[tactic(auto, using(crate::proofs::Fitting::made_fits))]
fn put_fresh(world: &mut World, cell: NewCell)
    requires room { HasCellRoom world.old }
    requires superclass { IsTrue (has_superclass world.old.world.cells (fresh cell)) }
    requires fits { heap_size world.old.world.cells + cell_size (fresh cell) ≤ world.old.world.limits.cells }
    ensures { CellIsPut (fresh cell) world.old world.new }
{
    let _number = world.make(cell);
}

/// Makes a class. Its base is how many entries the instances of its superclass have.
fn put_class(
    world: &mut World,
    code: &CodeProgram,
    decl: u32,
    encl: Value,
    holder: Value,
    over: Value,
)
    requires room { HasCellRoom world.old }
    requires over { StandsOver code.now world.old.world.cells over }
    requires fits { heap_size world.old.world.cells + 4 ≤ world.old.world.limits.cells }
    ensures { CellIsPut (cell_thawed code.now world.old.world.cells (ClassData decl encl holder over)) world.old world.new }
{
    let base = base_over(world, code, over);
    put_fresh(
        world,
        NewCell::Class {
            decl,
            base,
            encl,
            holder,
            over,
        },
    );
}

/// How many entries the instances of a superclass have.
#[tactic(auto, using(crate::proofs::Fitting::base_is, crate::proofs::Fitting::base_small))]
fn base_over(world: &World, code: &CodeProgram, over: Value) -> u32
    requires { StandsOver code.now world.now.world.cells over }
    ensures { result ≡ entries_above world.now.world.cells code.now over }
{
    match over {
        Value::Ref(class) => world.base(class) + entries(code, world.declaration(class)),
        _ => 0,
    }
}

/// How many entries a declaration adds.
fn entries(code: &CodeProgram, decl: u32) -> u32
    requires { entries_of code.now decl ≤ 33553920 }
    ensures { result ≡ entries_of code.now decl }
{
    match code.classes.as_slice().get(decl as usize) {
        Some(class) => (class.slots.len() + class.nested.len()) as u32,
        None => 0,
    }
}

/// Makes an environment and writes its locals.
#[tactic(auto, using(crate::proofs::Fitting::made_fits))]
fn put_environment(world: &mut World, parent: Value, locals: &[PlainValue])
    requires room { HasCellRoom world.old }
    requires small { heap_size world.old.world.cells + (1 + length locals.now) < no_class }
    requires fits { heap_size world.old.world.cells + (1 + length locals.now) ≤ world.old.world.limits.cells }
    ensures { CellIsPut (EnvironmentCell parent locals.now) world.old world.new }
{
    let at = world.counters().cells as u32;
    put_fresh(
        world,
        NewCell::Environment {
            parent,
            locals: locals.len() as u32,
        },
    );
    write_words(world, at, locals);
}

/// Makes an array and writes its elements.
#[tactic(auto, using(crate::proofs::Fitting::made_fits))]
fn put_array(world: &mut World, items: &[PlainValue])
    requires room { HasCellRoom world.old }
    requires small { heap_size world.old.world.cells + (1 + length items.now) < no_class }
    requires fits { heap_size world.old.world.cells + (1 + length items.now) ≤ world.old.world.limits.cells }
    ensures { CellIsPut (ArrayCell items.now) world.old world.new }
{
    let at = world.counters().cells as u32;
    put_fresh(
        world,
        NewCell::Array {
            size: items.len() as u32,
        },
    );
    write_words(world, at, items);
}

/// Makes a text.
#[tactic(auto, using(crate::proofs::Fitting::made_fits))]
fn put_text(world: &mut World, bytes: &[u8])
    requires room { HasCellRoom world.old }
    requires fits { heap_size world.old.world.cells + cell_size (TextCell bytes.now) ≤ world.old.world.limits.cells }
    ensures { CellIsPut (TextCell bytes.now) world.old world.new }
{
    let _number = world.make_text(b"".as_slice(), bytes);
}

/// Makes an object and writes its words.
#[tactic(auto, using(crate::proofs::Fitting::made_fits))]
fn put_object(world: &mut World, class: u32, words: &[PlainValue])
    requires room { HasCellRoom world.old }
    requires small { heap_size world.old.world.cells + (1 + length words.now) < no_class }
    requires fits { heap_size world.old.world.cells + (1 + length words.now) ≤ world.old.world.limits.cells }
    ensures { CellIsPut (ObjectCell class words.now) world.old world.new }
{
    let at = world.counters().cells as u32;
    put_fresh(
        world,
        NewCell::Object {
            class,
            words: words.len() as u32,
        },
    );
    write_words(world, at, words);
}

/// Writes the words of the last cell, which is an object, an environment or an array.
fn write_words(world: &mut World, at: u32, words: &[PlainValue])
    requires last { EndsWith at (length words.now) world.old.world.cells }
    requires small { length words.now ≤ 4294967295 }
    ensures { world.new ≡ record world.old { world = record world.old.world { cells = with_words words.now world.old.world.cells } } }
{
    'words: for word in 0..words.len() {
        world.write(at, word as u32, words[word].value());
    }
}
