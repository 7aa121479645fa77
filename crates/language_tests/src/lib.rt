//! Tests of tokens, of the parser and of the canonical text, over texts that were written by hand
//! from the grammar and from the rules of that text, in a crate of their own, so that the crates that
//! they test are proved once.
#![tactic(auto)]

ghost use Rattle.std.specs.Prelude.{◌<◌, ◌-◌, ◌^◌, length, IfSome};
ghost use Rattle.bpl_parse.specs.Program.{IsFaultOf};

use bpl_parse::{Fault, parse_decls};
use std::alloc::Global;

#[cfg(test)]
mod tests;

/// The fault of a text, if it has one; what is read of any other is dropped.
pub fn fault_of(alloc: Global, text: &[u8]) -> Option<Fault>
    requires { length text.now < 2 ^ 32 - 1 }
    ensures { IfSome result (λ fault. IsFaultOf text.now fault) }
{
    match parse_decls(alloc, text) {
        Ok(_) => None,
        Err(fault) => Some(fault),
    }
}
