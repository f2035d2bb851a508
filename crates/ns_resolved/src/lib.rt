//! Programs in which every name has its meaning, flat: classes and bodies by number, with the tables of their code.
//! `specs/Classes.antt` says what a program is so (`meant`); there is nothing to call.
//! Stands between scope and gen and model.
#![tactic(auto)]

pub mod laws;
