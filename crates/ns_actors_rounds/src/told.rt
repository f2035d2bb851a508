//! What is told of actors, in text and in parts.

use ns_actors::told::Acted;
use ns_base::items::Items;
use ns_json::saying::Actor;

/// What is told of actors that rest, and each of them in parts.
#[derive(Drop)]
pub struct ToldActors {
    pub told: Acted,
    pub parts: Items<Actor>,
}
