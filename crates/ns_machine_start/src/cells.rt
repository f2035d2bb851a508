//! The cells that each run of some code has: facets, and the classes of its top-level declarations.

ghost use Rattle.std.specs.Prelude.{◌∷◌, ◌≤◌, [], length, IsTrue, Option};
ghost use Rattle.ns_world.specs.Cell.{fresh};
ghost use Rattle.ns_world.specs.Heap.{has_superclass};
ghost use Rattle.ns_moves.specs.Start.{facet_if, facets_of, top_if, tops_of, standing_cells};
ghost use Rattle.ns_moves.specs.Room.{HasCellRoom};
ghost use Rattle.ns_machine_start.specs.Making.{CellsAreMade};

use ns_code::class::ClassCode;
use ns_code::program::CodeProgram;
use ns_facets::row::Grants;
use ns_world::cell::{CellLimit, FacetKind, NewCell};
use ns_world::value::{KClass, Value};
use ns_world::world::World;

/// Makes the facets and the top-level classes.
pub fn make_standing(world: &mut World, code: &CodeProgram, grants: Grants) -> Result<(), CellLimit>
    requires room { HasCellRoom world.old }
    requires classes { length code.now.classes ≤ 4294967295 }
    ensures { CellsAreMade (standing_cells code.now grants) world.old result world.new }
{
    make_facets(world, grants)?;
    make_tops(world, code.classes.as_slice())
}

/// Makes Manifest and Platform, and the facets that are granted.
fn make_facets(world: &mut World, grants: Grants) -> Result<(), CellLimit>
    requires room { HasCellRoom world.old }
    ensures { CellsAreMade (facets_of grants) world.old result world.new }
{
    make_cell(world, NewCell::Facet(FacetKind::Manifest))?;
    make_cell(world, NewCell::Facet(FacetKind::Platform))?;
    make_facet_if(world, grants.console, FacetKind::Console)?;
    make_facet_if(world, grants.mirrors, FacetKind::Mirrors)?;
    make_facet_if(world, grants.kernel, FacetKind::Kernel)?;
    make_facet_if(world, grants.board, FacetKind::Board)
}

/// Makes a facet, where it is granted.
fn make_facet_if(world: &mut World, granted: bool, kind: FacetKind) -> Result<(), CellLimit>
    requires room { HasCellRoom world.old }
    ensures { CellsAreMade (facet_if granted kind) world.old result world.new }
{
    if granted {
        return make_cell(world, NewCell::Facet(kind));
    }
    Ok(())
}

/// Makes the classes of the top-level declarations.
fn make_tops(world: &mut World, classes: &[ClassCode]) -> Result<(), CellLimit>
    requires room { HasCellRoom world.old }
    requires numbers { length classes.now ≤ 4294967295 }
    ensures { CellsAreMade (tops_of 0 classes.now) world.old result world.new }
{
    'classes: for decl in 0..classes.len() {
        make_top_if(world, classes[decl].outer, decl as u32)?;
    }
    Ok(())
}

/// Makes the class of a declaration, where it is a top-level one.
fn make_top_if(world: &mut World, outer: Option<u32>, decl: u32) -> Result<(), CellLimit>
    requires room { HasCellRoom world.old }
    ensures { CellsAreMade (top_if outer decl) world.old result world.new }
{
    match outer {
        Some(_) => Ok(()),
        None => make_cell(
            world,
            NewCell::Class {
                decl,
                base: 0,
                encl: Value::Nil,
                holder: Value::Nil,
                over: Value::Kernel(KClass::Object),
            },
        ),
    }
}

/// Makes a cell.
fn make_cell(world: &mut World, cell: NewCell) -> Result<(), CellLimit>
    requires room { HasCellRoom world.old }
    requires superclass { IsTrue (has_superclass world.old.world.cells (fresh cell)) }
    ensures { CellsAreMade (fresh cell ∷ []) world.old result world.new }
{
    match world.make(cell) {
        Ok(_) => Ok(()),
        Err(limit) => Err(limit),
    }
}
