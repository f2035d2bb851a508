//! The tree of a source.

use ns_lex::scan::lex;
use ns_parse::parse::parse;
use ns_parse_tokens::fault::ParseFault;
use ns_tree::tree::Unit;
use std::alloc::Global;

/// The tree of a source, or the token at which it stops to be one. Want of memory stands for a source
/// that is too long or can't be cut into tokens.
pub fn read(alloc: Global, source: &[u8]) -> Result<Unit, ParseFault> {
    if source.len() > 1_048_576 {
        return Err(ParseFault::Memory);
    }
    match lex(alloc, source) {
        Ok(tokens) => parse(alloc, tokens),
        Err(_) => Err(ParseFault::Memory),
    }
}
