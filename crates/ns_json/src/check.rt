//! Static faults, and sends that nothing can answer.

ghost use Rattle.std.specs.Prelude.{◌≡◌, ◌++◌, OnOk};

use crate::object::Object;
use crate::put::{close_object, open_object};
use crate::run::put_place;
use crate::saying::{Fault, Unanswered};
use ns_base::no_memory::NoMemory;

impl Object for Fault {
    ghost use Rattle.ns_json.specs.Report.{fault_members};

    ghost members = { fault_members };

    fn put_object(&self, out: &mut Vec<u8>) -> Result<(), NoMemory> {
        open_object(out, "cause", self.cause.bytes())?;
        put_place(out, &self.place)?;
        close_object(out)
    }
}

impl Object for Unanswered {
    ghost use Rattle.ns_json.specs.Report.{unanswered_members};

    ghost members = { unanswered_members };

    fn put_object(&self, out: &mut Vec<u8>) -> Result<(), NoMemory> {
        open_object(out, "selector", self.selector.bytes())?;
        put_place(out, &self.place)?;
        close_object(out)
    }
}
