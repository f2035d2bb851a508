//! The way up a chain of classes by places, in few steps: of each class the place of its superclass is kept, and that of a class
//! far above it. No way is as long as the chain: leaps of one length are joined to a longer one.

ghost use Rattle.std.specs.Prelude.{◌≡◌, ◌<◌, ◌≤◌, true, get_or, length, IfSome};
ghost use Rattle.ns_frozen.specs.Live.{has_chain};
ghost use Rattle.ns_frozen_seen.specs.Climbs as spec;
ghost use Rattle.ns_frozen_seen.specs.Seen.{IsSeen, heap_of};

use crate::keepers::{kept_at, number_at};
use crate::seen::Seen;
use ns_frozen_tables::chain::chain_in;

/// The places of two classes further up in the chain of a class: that of its superclass, and that of one far above. A place that
/// doesn't stand before the class's own tells nothing.
#[derive(Clone, Copy)]
pub struct Climb {
    pub over: u32,
    pub far: u32,
}

/// What tells nothing.
const NOWHERE: Climb = Climb {
    over: u32::MAX,
    far: u32::MAX,
};

impl Seen<'_> {
    /// A class further up in the chain of one that has a chain, from which a walk finds a holder as from that.
    #[tactic(auto, using(crate::proofs::Climbed::walks_here))]
    pub fn climbed(&self, class: u32, holder: u32) -> u32
        requires seen { IsSeen self.now }
        requires chain { has_chain self.now.code.now (heap_of self.now) class ≡ true }
        ensures { spec.Walks self.now.code.now (heap_of self.now) class result (spec.holds holder) }
    {
        match self.place(class) {
            Some(place) => self.climbed_from(place, holder),
            None => class,
        }
    }

    /// The same from the class at a place.
    fn climbed_from(&self, from: u32, holder: u32) -> u32
        requires seen { IsSeen self.now }
        requires there { from < length self.now.chains.numbers.items }
        requires chain { has_chain self.now.code.now (heap_of self.now) (get_or self.now.chains.numbers.items from 0) ≡ true }
        ensures { spec.Walks self.now.code.now (heap_of self.now) (get_or self.now.chains.numbers.items from 0) result (spec.holds holder) }
    {
        let mut place = from;
        'classes: while let Some(above) = self.higher(place, holder) {
            place = above;
        }
        number_at(self.chains.numbers.as_slice(), place as usize)
    }

    /// The place of a class that is further up than the one at a place, and not above a holder, if such a one is kept.
    fn higher(&self, place: u32, holder: u32) -> Option<u32>
        requires { IsSeen self.now }
        ensures { IfSome result (spec.LeadsUp self.now.code.now (heap_of self.now) self.now.chains.numbers.items place holder) }
    {
        match kept_at(self.keepers.as_slice(), place) {
            Some(keeper) => self.higher_by(place, holder, keeper.climb),
            None => None,
        }
    }

    /// The same by what is kept of the class.
    fn higher_by(&self, place: u32, holder: u32, climb: Climb) -> Option<u32>
        requires { has_chain self.now.code.now (heap_of self.now) (get_or self.now.chains.numbers.items place 0) ≡ true →
            spec.IsClimb self.now.code.now (heap_of self.now) self.now.chains.numbers.items place climb }
        ensures { IfSome result (spec.LeadsUp self.now.code.now (heap_of self.now) self.now.chains.numbers.items place holder) }
    {
        if self.leads(place, climb.far, holder) {
            return Some(climb.far);
        }
        if self.leads(place, climb.over, holder) {
            return Some(climb.over);
        }
        None
    }

    /// Whether a place stands before another, and its class isn't above a holder.
    fn leads(&self, place: u32, above: u32, holder: u32) -> bool
        ensures { result ≡ true → (above < place) × (holder ≤ get_or self.now.chains.numbers.items above 0) }
    {
        above < place && holder <= number_at(self.chains.numbers.as_slice(), above as usize)
    }

    /// The way up from a class whose superclass stands at a place, if it has one.
    pub fn climb_over(&self, over: Option<u32>) -> Climb
        requires seen { IsSeen self.now }
        requires there { IfSome over (λ at. at < length self.now.chains.numbers.items) }
        ensures { spec.IsClimbOver self.now.code.now (heap_of self.now) self.now.chains.numbers.items over result }
    {
        match over {
            Some(at) => Climb {
                over: at,
                far: self.far_above(at),
            },
            None => NOWHERE,
        }
    }

    /// A place far above a class whose superclass stands at that place: where two leaps of one length lead from it, or itself.
    #[tactic(auto, using(crate::proofs::Climbed::up_here))]
    fn far_above(&self, over: u32) -> u32
        requires seen { IsSeen self.now }
        requires there { over < length self.now.chains.numbers.items }
        ensures { has_chain self.now.code.now (heap_of self.now) (get_or self.now.chains.numbers.items over 0) ≡ true →
            spec.IsUp self.now.code.now (heap_of self.now) self.now.chains.numbers.items over result }
    {
        match self.leap(over) {
            Some(middle) => self.far_past(over, middle),
            None => over,
        }
    }

    /// The same where the first leap leads to that place.
    fn far_past(&self, over: u32, middle: u32) -> u32
        requires seen { IsSeen self.now }
        requires there { over < length self.now.chains.numbers.items }
        requires middle { has_chain self.now.code.now (heap_of self.now) (get_or self.now.chains.numbers.items over 0) ≡ true →
            spec.IsUp self.now.code.now (heap_of self.now) self.now.chains.numbers.items over middle }
        ensures { has_chain self.now.code.now (heap_of self.now) (get_or self.now.chains.numbers.items over 0) ≡ true →
            spec.IsUp self.now.code.now (heap_of self.now) self.now.chains.numbers.items over result }
    {
        match self.leap(middle) {
            Some(end) => {
                if self.are_even(over, middle, end) {
                    end
                } else {
                    over
                }
            }
            None => over,
        }
    }

    /// Whether there are as many links from the first of three places to the second as from there to the third.
    fn are_even(&self, first: u32, second: u32, third: u32) -> bool {
        self.links_at(first).abs_diff(self.links_at(second))
            == self.links_at(second).abs_diff(self.links_at(third))
    }

    /// The place far above the class at a place, where one is kept.
    fn leap(&self, place: u32) -> Option<u32>
        requires { IsSeen self.now }
        ensures { IfSome result (λ far. has_chain self.now.code.now (heap_of self.now) (get_or self.now.chains.numbers.items place 0) ≡ true →
            spec.IsUp self.now.code.now (heap_of self.now) self.now.chains.numbers.items place far) }
    {
        match kept_at(self.keepers.as_slice(), place) {
            Some(keeper) => {
                if keeper.climb.far < place {
                    Some(keeper.climb.far)
                } else {
                    None
                }
            }
            None => None,
        }
    }

    /// How many links the class at a place has.
    fn links_at(&self, place: u32) -> u32 {
        chain_in(self.chains.chains.as_slice(), place as usize).links
    }
}
