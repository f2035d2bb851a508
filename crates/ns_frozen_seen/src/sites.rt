//! Sites, which name a file, a class and a selector of the code.

ghost use Rattle.std.specs.Prelude.{◌≡◌, nat_lt, length, true};
ghost use Rattle.std.specs.Option.{option_map_or};
ghost use Rattle.ns_base.specs.declared.place.Place.{Place as PlaceOf};
ghost use Rattle.ns_moves.specs.Fitting.{names_class};
ghost use Rattle.ns_frozen.specs.Frames.{is_site};
ghost use Rattle.ns_frozen_seen.specs.Seen.{IsSeen};

use crate::seen::Seen;
use ns_base::place::Place;
use ns_moves::site::Site;
use ns_world::kernel::ClassName;

impl Seen<'_> {
    /// Whether a site names a file of the code, where it has a place, a class and a selector.
    pub fn is_site(&self, site: Site) -> bool
        requires { IsSeen self.now }
        ensures { result ≡ is_site self.now.code.now site }
    {
        self.has_file(site.place) && self.names_class(site.class) && self.has_selector(site.sel)
    }

    /// Whether a place stands in a file of the code, where there is one.
    fn has_file(&self, place: Option<Place>) -> bool
        ensures { result ≡ option_map_or (λ (place : PlaceOf). nat_lt place.file (length self.now.code.now.files)) place true }
    {
        match place {
            Some(place) => (place.file as usize) < self.code.files.len(),
            None => true,
        }
    }

    /// Whether a class name names a declaration of the code, or a class of the kernel.
    fn names_class(&self, name: ClassName) -> bool
        ensures { result ≡ names_class self.now.code.now name }
    {
        match name {
            ClassName::Declared(decl) => (decl as usize) < self.code.classes.len(),
            ClassName::ClassOf(decl) => (decl as usize) < self.code.classes.len(),
            ClassName::Kernel(_) => true,
        }
    }
}
