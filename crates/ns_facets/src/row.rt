//! Which facets are granted.

/// Which facets a program is granted beside the manifest and the platform.
#[derive(Clone, Copy)]
pub struct Grants {
    pub console: bool,
    pub kernel: bool,
    pub mirrors: bool,
    pub board: bool,
}
