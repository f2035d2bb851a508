//! What stays true of a world while a run goes on. Each function does nothing, and its contract is
//! the law.

ghost use Rattle.std.specs.Prelude.{◌≡◌, ℕ, ◌≤◌, List, Option, Some, IsTrue, IsSome};
ghost use Rattle.ns_base.specs.declared.selector.Sel.{Sel};
ghost use Rattle.ns_code.specs.declared.body.BodyCode.{BodyCode};
ghost use Rattle.ns_code.specs.declared.program.CodeProgram.{CodeProgram};
ghost use Rattle.ns_world.specs.declared.kernel.Start.{Start};
ghost use Rattle.ns_world.specs.declared.value.Value.{Value};
ghost use Rattle.ns_world.specs.Cell.{Cell};
ghost use Rattle.ns_world.specs.Heap.{heap_size, find_cell, chain_of, shape_at, bytes_at};
ghost use Rattle.ns_world.specs.Layout.{declaration_of, layout_of, entry_word};
ghost use Rattle.ns_world.specs.Starts.{start_of, has_class, class_name_at};
ghost use Rattle.ns_world.specs.World.{World, made, stepped, entered, left, printed, written, byte_written};
ghost use Rattle.ns_world.specs.Lawful.{IsLiveValue, IsEnvironmentOrNil, HasHolder, FitsBody, FitsEnvironment, BlockIsLawful, MessageIsLawful};
ghost use Rattle.ns_world.specs.Later.{MayCome, IsLater, RunsOn, Lasts, Unchanged, IsClassAt, IsStartAt};

/// Each world is as late as itself, and what is later than a later world is later.
pub fn later_worlds_compose()
    ensures same { (world : World) → IsLater world world }
    ensures on { (first second third : World) → IsLater first second → IsLater second third → IsLater first third }
    ensures runs { (code : CodeProgram) (first second third : World) → RunsOn code first second → RunsOn code second third → RunsOn code first third }
{}

/// Each call of `World` leads to a later world: a cell is made that may come, a word is written, a
/// step or a frame is charged, a frame is given back, and bytes are printed. So do counters that
/// are set without a fall of the steps, and a byte that is written of a text that wasn't there.
pub fn calls_lead_on()
    ensures made { (world after : World) (cell : Cell) → MayCome world.cells cell → made world cell ≡ Some after → IsLater world after }
    ensures written { (world : World) (at word : ℕ) (value : Value) → IsLater world (written world at word value) }
    ensures steps { (world after : World) → stepped world ≡ Some after → IsLater world after }
    ensures frames { (world after : World) → entered world ≡ Some after → IsLater world after }
    ensures left { (world : World) → IsLater world (left world) }
    ensures output { (world after : World) (bytes : List ℕ) → printed world bytes ≡ Some after → IsLater world after }
    ensures counted { (world : World) (steps depth : ℕ) → world.steps ≤ steps → IsLater world (record world { steps = steps; depth = depth }) }
    ensures bytes { (old new : World) (at place byte : ℕ) → IsLater old new → heap_size old.cells ≤ at → IsLater old (byte_written new at place byte) }
{}

/// A cell keeps its kind, its sizes and its fixed parts, and a text its bytes. The lookups of a
/// value start where they did, and the class of a start has its name.
pub fn cells_stay()
    ensures there { (number : ℕ) → Lasts (λ heap code. IsSome (find_cell heap number)) }
    ensures shapes { (number : ℕ) → Unchanged (λ heap code. IsSome (find_cell heap number)) (λ heap code. shape_at heap number) }
    ensures texts { (number : ℕ) → Unchanged (λ heap code. IsSome (find_cell heap number)) (λ heap code. bytes_at heap number) }
    ensures starts { (value : Value) → Unchanged (λ heap code. IsLiveValue heap code value) (λ heap code. start_of heap value) }
    ensures names { (start : Start) → Unchanged (λ heap code. IsTrue (has_class heap start)) (λ heap code. class_name_at heap start) }
{}

/// A class stays as it is, and its chain, its declaration, the entries of its instances and their
/// words are those that they were.
pub fn classes_stay()
    ensures classes { (class : ℕ) → Unchanged (IsClassAt class) (λ heap code. find_cell heap class) }
    ensures starts { (class : ℕ) → Lasts (IsStartAt class) }
    ensures chains { (class : ℕ) → Unchanged (IsStartAt class) (λ heap code. chain_of heap class) }
    ensures declared { (class : ℕ) → Unchanged (IsClassAt class) (λ heap code. declaration_of heap class) }
    ensures layouts { (class : ℕ) → Unchanged (IsStartAt class) (λ heap code. layout_of heap code class) }
    ensures words { (holder entry : ℕ) → Unchanged (IsClassAt holder) (λ heap code. entry_word heap code holder entry) }
{}

/// What running code and what waits ask of their values lasts: a live value stays live, an
/// environment is one, and an object has each holder in its chain; what fits a body fits it, and
/// what a block or a message holds may be held there.
pub fn what_lives_stays()
    ensures values { (value : Value) → Lasts (λ heap code. IsLiveValue heap code value) }
    ensures environments { (value : Value) → Lasts (λ heap code. IsEnvironmentOrNil heap value) }
    ensures holders { (value : Value) (holder : ℕ) → Lasts (λ heap code. HasHolder heap value holder) }
    ensures bodies { (body : BodyCode) (self : Value) (holder : ℕ) → Lasts (λ heap code. FitsBody heap code body self holder) }
    ensures locals { (depth : ℕ) (body : Option ℕ) (env : Value) → Lasts (λ heap code. FitsEnvironment depth heap code body env) }
    ensures blocks { (body : ℕ) (env self : Value) (holder : ℕ) → Lasts (λ heap code. BlockIsLawful heap code body env self holder) }
    ensures messages { (sel : Sel) (args : Value) → Lasts (λ heap code. MessageIsLawful heap code sel args) }
{}
