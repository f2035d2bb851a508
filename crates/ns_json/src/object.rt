//! What is told as an object of JSON.

ghost use Rattle.std.specs.Prelude.{◌≡◌, ◌++◌, List, OnOk};
ghost use Rattle.ns_json.specs.Json.{Member, object_text};

use ns_base::no_memory::NoMemory;

/// What is told as an object.
pub trait Object {
    /// Its members.
    ghost members: { Self → List Member };

    /// Puts the object behind the bytes that are there.
    fn put_object(&self, out: &mut Vec<u8>) -> Result<(), NoMemory>
        ensures { OnOk result (out.new.items ≡ out.old.items ++ object_text (members self.now)) };
}
