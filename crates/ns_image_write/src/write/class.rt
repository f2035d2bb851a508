//! Class records.

ghost use Rattle.std.specs.Prelude.{◌≡◌, ◌++◌, OnOk};
ghost use Rattle.ns_code.specs.Fits.{ClassFits};
ghost use Rattle.ns_image.specs.Bytes as spec;

use crate::write::output::{Part, put_byte, put_counted_half, put_flag, put_reference, put_word};
use ns_base::no_memory::NoMemory;
use ns_code::class::{ClassCode, MethodCode, NestedCode, SlotCode};

impl Part for SlotCode {
    ghost layout = { spec.slot };

    ghost fits = { λ _. Unit {0} };

    fn put(&self, out: &mut Vec<u8>) -> Result<(), NoMemory> {
        put_word(out, self.name.0)?;
        put_byte(out, self.access)?;
        put_flag(out, self.mutable)
    }
}

impl Part for NestedCode {
    ghost layout = { spec.nested };

    ghost fits = { λ _. Unit {0} };

    fn put(&self, out: &mut Vec<u8>) -> Result<(), NoMemory> {
        put_word(out, self.class)?;
        put_byte(out, self.access)
    }
}

impl Part for MethodCode {
    ghost layout = { spec.method };

    ghost fits = { λ _. Unit {0} };

    fn put(&self, out: &mut Vec<u8>) -> Result<(), NoMemory> {
        put_word(out, self.sel.0)?;
        put_byte(out, self.access)?;
        put_word(out, self.body)
    }
}

impl Part for ClassCode {
    ghost layout = { spec.class };

    ghost fits = { ClassFits };

    fn put(&self, out: &mut Vec<u8>) -> Result<(), NoMemory> {
        put_fields(out, self)?;
        put_members(out, self)
    }
}

fn put_fields(out: &mut Vec<u8>, class: &ClassCode) -> Result<(), NoMemory>
    requires { ClassFits class.now }
    ensures { OnOk result (out.new.items ≡ out.old.items ++ spec.class_fields class.now) }
{
    put_word(out, class.name.0)?;
    put_reference(out, class.outer)?;
    put_word(out, class.factory.0)?;
    put_byte(out, class.params)?;
    put_reference(out, class.clause)?;
    put_word(out, class.init)?;
    put_word(out, class.super_sel.0)
}

fn put_members(out: &mut Vec<u8>, class: &ClassCode) -> Result<(), NoMemory>
    requires { ClassFits class.now }
    ensures { OnOk result (out.new.items ≡ out.old.items ++ spec.members class.now) }
{
    put_counted_half(out, class.slots.as_slice())?;
    put_counted_half(out, class.nested.as_slice())?;
    put_counted_half(out, class.methods.as_slice())?;
    put_counted_half(out, class.side_methods.as_slice())
}
