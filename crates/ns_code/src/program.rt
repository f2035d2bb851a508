//! A program in code.

use crate::body::BodyCode;
use crate::classes::Classes;
use crate::names::Names;
use ns_base::items::Items;
use ns_base::text::Text;

/// How many names code has at most.
pub const MOST_NAMES: usize = 65_536;

/// A program: the names of its files, its names and literal texts, its class declarations and
/// its bodies. Each is known by its number in its list.
#[derive(Drop)]
pub struct CodeProgram {
    pub files: Items<Text>,
    pub names: Names,
    pub texts: Items<Text>,
    pub classes: Classes,
    pub bodies: Items<BodyCode>,
}
