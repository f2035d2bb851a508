//! The kinds of bodies, the sides of a class and the access of members, by number.

/// The body of a method.
pub const METHOD: u8 = 0;
/// The body of a block.
pub const BLOCK: u8 = 1;
/// The body of an initialiser.
pub const INITIALISER: u8 = 2;
/// The body of a clause's head.
pub const CLAUSE: u8 = 3;

/// The side of instances.
pub const INSTANCES: u8 = 0;
/// The side of the class.
pub const CLASS: u8 = 1;

/// The access of public members.
pub const PUBLIC: u8 = 0;
/// The access of protected members.
pub const PROTECTED: u8 = 1;
/// The access of private members.
pub const PRIVATE: u8 = 2;
