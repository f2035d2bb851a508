//! The selectors that the machine sends by itself.

ghost use Rattle.std.specs.Prelude.{◌≡◌, ◌≤◌, length};
ghost use Rattle.ns_code.specs.Own.{own_text, own_place};
ghost use Rattle.ns_code.specs.Selector.{own_number};

use crate::program::CodeProgram;
use ns_base::selector::Sel;

/// The machine's own selectors, in the order of their numbers behind the code's names.
#[derive(Clone, Copy)]
pub enum Own {
    PackageUsing,
    MainArgs,
    DoesNotUnderstand,
}

impl Own {
    /// The text of the selector.
    pub fn text(self) -> &'static [u8]
        ensures { result.now ≡ own_text self }
    {
        match self {
            Own::PackageUsing => b"packageUsing:".as_slice(),
            Own::MainArgs => b"main:args:".as_slice(),
            Own::DoesNotUnderstand => b"doesNotUnderstand:".as_slice(),
        }
    }

    /// Its place among them.
    fn place(self) -> u32
        ensures { result ≡ own_place self }
    {
        match self {
            Own::PackageUsing => 0,
            Own::MainArgs => 1,
            Own::DoesNotUnderstand => 2,
        }
    }
}

impl CodeProgram {
    /// The number of an own selector: that of the name where the code names it, else behind the
    /// names.
    pub fn own_selector(&self, own: Own) -> Sel
        requires { length self.now.names ≤ 65536 }
        ensures { result.0 ≡ own_number self.now own }
    {
        let mut number: u32 = 0;
        'names: for name in self.names.as_slice() {
            if name.bytes() == own.text() {
                return Sel(number);
            }
            number += 1;
        }
        Sel(number + own.place())
    }
}
