//! What a host hands over to a program: values by their kinds and numbers, and texts, which become cells; and how it is told a value.
//! `specs/Hands.antt` says which value each is, and `specs/Laid.antt` which cells the texts are and what they cost.
//! Stands between ns_frozen and ns_reply.
#![tactic(auto)]

pub mod laws;
pub mod lay;
pub mod value;
