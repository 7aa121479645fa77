// Texts with their tokens, texts that are read, texts that are refused, and canonical texts.
use crate::fault_of;
use bpl_ast::Decl;
use bpl_parse::{Fault, parse_decls};
use std::alloc::Global;
use std::process::Abort;

mod canonical;
mod declarations;
mod each_production;
mod nestings;
mod tokens;

/// The declarations of a text, or its fault.
fn declared(rt: &impl Abort, alloc: Global, text: &[u8]) -> Result<Vec<Decl>, Fault> {
    assert!(rt; text.len() < u32::MAX as usize);
    parse_decls(alloc, text)
}

fn is_refused(rt: &impl Abort, alloc: Global, text: &[u8], expected: Fault) {
    assert!(rt; text.len() < u32::MAX as usize);
    assert_eq!(rt; fault_of(alloc, text), Some(expected), "{text:?}");
}
