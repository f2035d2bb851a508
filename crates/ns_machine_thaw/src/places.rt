//! The places of sites, which are written behind those of the code.

ghost use Rattle.std.specs.Prelude.{◌≡◌, ◌+◌, ◌<◌, ◌≤◌, List, length};
ghost use Rattle.ns_base.specs.declared.place.Place.{Place as SourcePlace};
ghost use Rattle.ns_machine_frames.specs.View.{site_shown};
ghost use Rattle.ns_machine_plan.specs.Steps.{no_place};
ghost use Rattle.ns_machine_thaw.specs.Frames.{site_number, SiteIsPlaced, SiteIsWritten, SitesAreWritten};

use ns_frozen::frame::FrozenFrame;
use ns_machine_core::places::Places;
use ns_machine_frames::frame::KeptSite;
use ns_machine_plan::step::NO_PLACE;
use ns_moves::site::Site;

/// Writes the places of the sites of frames, from a number on.
pub fn put_sites(places: &mut Places, first: u32, frames: &[FrozenFrame])
    requires few { length places.old ≤ no_place }
    requires numbers { first + length frames.now ≤ length places.old }
    ensures { SitesAreWritten first frames.now places.old places.new }
{
    'frames: for number in 0..frames.len() {
        put_site(places, first + number as u32, frames[number].site);
    }
}

/// Writes the place of a site under a number, where it has one.
#[tactic(auto, using(crate::proofs::Placed::site_written, crate::proofs::Placed::site_spared))]
pub fn put_site(places: &mut Places, number: u32, site: Site)
    requires few { length places.old ≤ no_place }
    requires there { number < length places.old }
    ensures { SiteIsWritten number site places.old places.new }
{
    match site.place {
        Some(place) => places.set(number, place),
        None => {}
    }
}

/// A site whose place stands under a number, if it has one.
pub fn kept_site(site: Site, number: u32) -> KeptSite
    ensures { (places : List SourcePlace) → SiteIsPlaced places number site → site_shown places result ≡ site }
{
    KeptSite {
        place: place_number(site, number),
        class: site.class,
        sel: site.sel,
    }
}

/// The number of the place of a site.
fn place_number(site: Site, number: u32) -> u32
    ensures { result ≡ site_number number site.place }
{
    match site.place {
        Some(_) => number,
        None => NO_PLACE,
    }
}
