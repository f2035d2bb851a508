//! Bytes, numbers and names of classes, each put behind the bytes that are there.

ghost use Rattle.std.specs.Prelude.{◌≡◌, ◌++◌, OnOk};
ghost use Rattle.std.specs.Fmt.{decimal, signed_decimal};
ghost use Rattle.ns_world.specs.declared.kernel.ClassName.TheVariants.{ClassOf};
ghost use Rattle.ns_mirror.specs.Naming as naming;

use ns_base::no_memory::NoMemory;
use ns_code::program::CodeProgram;
use ns_kdata::decimal::decimal_text;
use ns_mirror::naming::{declared_text, kernel_text};
use ns_world::kernel::ClassName;

/// Puts bytes.
pub fn put(out: &mut Vec<u8>, bytes: &[u8]) -> Result<(), NoMemory>
    ensures { OnOk result (out.new.items ≡ out.old.items ++ bytes.now) }
{
    out.extend_from_slice(bytes)?;
    Ok(())
}

/// Puts a number in decimal.
pub fn put_number(out: &mut Vec<u8>, number: u32) -> Result<(), NoMemory>
    ensures { OnOk result (out.new.items ≡ out.old.items ++ decimal number) }
{
    put_signed(out, i64::from(number))
}

/// Puts a number with its sign in decimal.
pub fn put_signed(out: &mut Vec<u8>, number: i64) -> Result<(), NoMemory>
    ensures { OnOk result (out.new.items ≡ out.old.items ++ signed_decimal number) }
{
    let mut room = [0; 20];
    put(out, decimal_text(number, &mut room))
}

/// Puts the name of a class.
pub fn put_class(out: &mut Vec<u8>, code: &CodeProgram, class: ClassName) -> Result<(), NoMemory>
    ensures { OnOk result (out.new.items ≡ out.old.items ++ naming.class_text code.now class) }
{
    match class {
        ClassName::Declared(decl) => put(out, declared_text(code, decl)),
        ClassName::ClassOf(decl) => put_class_of(out, code, decl),
        ClassName::Kernel(row) => put(out, kernel_text(row)),
    }
}

/// Puts the name of the class object of a declaration.
fn put_class_of(out: &mut Vec<u8>, code: &CodeProgram, decl: u32) -> Result<(), NoMemory>
    ensures { OnOk result (out.new.items ≡ out.old.items ++ naming.class_text code.now (ClassOf decl)) }
{
    put(out, declared_text(code, decl))?;
    put(out, b" class".as_slice())
}
