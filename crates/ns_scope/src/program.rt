//! A program: the trees of its files.

use ns_base::items::Items;
use ns_base::key::Key;
use ns_base::place::Place;
use ns_base::text::Text;
use ns_tree::tree::Unit;

/// The unit of each file in order, the files' names, and for each file the place of each of its
/// tokens and then that of its end.
#[derive(Drop)]
pub struct Program {
    pub units: Items<Unit>,
    pub files: Items<Text>,
    pub marks: Items<Items<Place>>,
    /// The key of tables of its names.
    pub key: Key,
}
