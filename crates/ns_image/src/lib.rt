//! Images: the bytes of code, and code read from bytes.
//! `specs/Bytes.antt` says the image of code, field by field, and `specs/Reading.antt` what is read of any bytes.
//! Stands between code and run.
#![tactic(auto)]

pub mod fault;
pub mod laws;
pub mod read;
pub mod spelling;
