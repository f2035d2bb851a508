//! The names of classes.

ghost use Rattle.std.specs.Prelude.{◌≡◌, ◌≤◌, IsTrue};
ghost use Rattle.ns_world.specs.World.{IsWithin};
ghost use Rattle.ns_world.specs.Starts.{is_receiver, has_class, start_of};
ghost use Rattle.ns_kdata.specs.Outcome.{Gives};
ghost use Rattle.ns_mirror.specs.Naming as spec;

use ns_code::program::CodeProgram;
use ns_kdata::making::make_text;
use ns_world::ending::Fault;
use ns_world::kernel::ClassName;
use ns_world::kernel_class::KernelRow;
use ns_world::value::Value;
use ns_world::world::World;

/// `className`: a text of the name of a value's class.
pub fn class_name(world: &mut World, code: &CodeProgram, value: Value) -> Result<Value, Fault>
    requires room { world.old.world.limits.cells ≤ world.old.cell_room }
    requires within { IsWithin world.old.world }
    requires receiver { IsTrue (is_receiver world.old.world.cells value) }
    requires class { IsTrue (has_class world.old.world.cells (start_of world.old.world.cells value)) }
    ensures { Gives (spec.class_name world.old.world code.now value) world.old result world.new }
{
    match world.class_name(world.start(value)) {
        ClassName::Declared(decl) => make_text(world, b"".as_slice(), declared_text(code, decl)),
        ClassName::ClassOf(decl) => {
            make_text(world, declared_text(code, decl), b" class".as_slice())
        }
        ClassName::Kernel(row) => make_text(world, b"".as_slice(), kernel_text(row)),
    }
}

/// The name of a declaration.
pub fn declared_text(code: &CodeProgram, decl: u32) -> &[u8]
    ensures { result.now ≡ spec.declared_text code.now decl }
{
    match code.classes.as_slice().get(decl as usize) {
        Some(class) => code.selector_text(class.name),
        None => b"".as_slice(),
    }
}

/// The name of a class of the kernel.
pub fn kernel_text(row: KernelRow) -> &'static [u8]
    ensures { result.now ≡ spec.kernel_text row }
{
    match row {
        KernelRow::Object => b"Object".as_slice(),
        KernelRow::ObjectClass => b"Object class".as_slice(),
        KernelRow::ArrayClass => b"Array class".as_slice(),
        KernelRow::Class => b"Class".as_slice(),
        KernelRow::UndefinedObject => b"UndefinedObject".as_slice(),
        KernelRow::Boolean => b"Boolean".as_slice(),
        KernelRow::Integer => b"Integer".as_slice(),
        KernelRow::String => b"String".as_slice(),
        KernelRow::Symbol => b"Symbol".as_slice(),
        KernelRow::Array => b"Array".as_slice(),
        KernelRow::Block => b"Block".as_slice(),
        KernelRow::Manifest => b"Manifest".as_slice(),
        KernelRow::Platform => b"Platform".as_slice(),
        KernelRow::Kernel => b"Kernel".as_slice(),
        KernelRow::Console => b"Console".as_slice(),
        KernelRow::Board => b"Board".as_slice(),
        KernelRow::Mirrors => b"Mirrors".as_slice(),
        KernelRow::Mirror => b"Mirror".as_slice(),
        KernelRow::Message => b"Message".as_slice(),
    }
}
