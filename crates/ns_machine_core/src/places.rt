//! The places that sites name by their numbers.

ghost use Rattle.std.specs.Prelude.{◌≡◌, ◌<◌, length, slice_get, slice_set};

use ns_base::place::Place;
use std::marker::Model;

/// A list of places, of which each can be written again. A clause sees the list alone.
#[derive(Drop)]
pub struct Places {
    all: Vec<Place>,
}

impl Model for Places {
    ghost use Rattle.std.specs.Prelude.{List};
    ghost use Rattle.ns_base.specs.declared.place.Place.{Place as SourcePlace};

    ghost Value = { List SourcePlace };

    ghost view = { λ p. p.all.items };
}

impl Places {
    /// The list of these places, whose memory it takes over.
    pub fn from_vec(places: Vec<Place>) -> Places
        ensures { result ≡ places.items }
    {
        Places { all: places }
    }

    /// The place of that number, if there is one.
    #[inline(always)]
    pub fn get(&self, number: u32) -> Option<Place>
        ensures { result ≡ slice_get self.now number }
    {
        self.all.get(number as usize).copied()
    }

    /// Writes another place under a number.
    pub fn set(&mut self, number: u32, place: Place)
        requires { number < length self.old }
        ensures { self.new ≡ slice_set self.old number place }
    {
        self.all[number as usize] = place;
    }
}
