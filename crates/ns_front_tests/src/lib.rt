//! Tests of what reads a program, by tables, from bytes to what names mean.
//! They try tokens with their spans, texts that are trees or stop to be one, names in bodies, the library's size, and
//! files in memory.
//! Stands on lex, parse, scope and lib.
#![tactic(auto)]

#[cfg(test)]
mod base_tests;
#[cfg(test)]
mod name_tests;
#[cfg(test)]
mod reading;
#[cfg(test)]
mod token_tests;
#[cfg(test)]
mod tree_tests;
