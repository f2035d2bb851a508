//! What a command does with an image, but for its run.

/// What is done with an image.
#[derive(Drop)]
pub enum ImageTask<'a> {
    /// Its code is listed, with the members of its classes or without.
    Listing {
        members: bool,
    },
    /// The module of the class of this name is audited for the selectors that these options deny.
    Audit {
        options: &'a [String],
        class: &'a str,
    },
    /// It is a snapshot, from which the run goes on.
    Resume,
}
