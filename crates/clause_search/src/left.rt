// What searches leave for others.
ghost use Rattle.std.specs.Prelude.{◌≡◌, ◌<◌, length, IfOk, IfSome};

use logic_core::copy::copy_sorts;
use logic_core::def::Signature;
use numbered_facts::{Kept, Store};
use numbered_terms::Terms;
use std::alloc::{AllocError, Global};

// What so many searches left is kept.
const MOST: usize = 4;

/// What a search left, and over how many variables and definitions.
#[derive(Drop)]
pub struct Left {
    vars: usize,
    defs: usize,
    kept: Kept,
}

// Lets it go.
fn discard(_left: Left) {}

impl Left {
    // Whether it may be right over the signature: of as many definitions, and of no more variables.
    fn may_fit(&self, signature: &Signature) -> bool {
        self.defs == signature.defs().len() && self.vars <= signature.vars().len()
    }
}

// The place of the last that may be right over the signature.
fn last_fitting(all: &[Left], signature: &Signature) -> Option<usize>
    ensures { IfSome result (λ at. at < length all.now) }
{
    let count = all.len();
    for behind in 0..count {
        let at = count - 1 - behind;
        if all[at].may_fit(signature) {
            return Some(at);
        }
    }
    None
}

// The last that may be right over the signature, taken out.
fn take_fitting(all: &mut Vec<Left>, signature: &Signature) -> Option<Left> {
    match last_fitting(all, signature) {
        Some(at) => Some(all.remove(at)),
        None => None,
    }
}

// A store without terms, over the signature.
fn new_store<'a>(alloc: Global, signature: &'a Signature) -> Result<Store<'a>, AllocError>
    ensures vars { IfOk result (λ s. s.vars ≡ signature.now.vars) }
    ensures defs { IfOk result (λ s. s.defs ≡ signature.now.defs) }
{
    let vars = copy_sorts(alloc, signature.vars())?;
    Ok(Store::new(Terms::new(alloc), vars, signature.defs()))
}

/// A store over the signature. It begins with the last that is right there, which is taken out.
pub fn store_over<'a>(
    alloc: Global,
    all: &mut Vec<Left>,
    signature: &'a Signature,
) -> Result<Store<'a>, AllocError>
    ensures vars { IfOk result (λ s. s.vars ≡ signature.now.vars) }
    ensures defs { IfOk result (λ s. s.defs ≡ signature.now.defs) }
{
    if let Some(left) = take_fitting(all, signature) {
        if let Some(store) = left.kept.store(signature.vars(), signature.defs())? {
            return Ok(store);
        }
    }
    new_store(alloc, signature)
}

// One more comes behind, and where they are too many the first goes.
fn join(all: &mut Vec<Left>, store: Store<'_>) -> Result<(), AllocError> {
    let vars = store.vars().len();
    let defs = store.defs().len();
    if let Some(kept) = Kept::of(store)? {
        all.push(Left { vars, defs, kept })?;
    }
    if all.len() > MOST {
        discard(all.remove(0));
    }
    Ok(())
}

/// These and what the store leaves, where there is memory for it.
pub fn joined(mut all: Vec<Left>, store: Store<'_>) -> Vec<Left> {
    match join(&mut all, store) {
        Ok(()) => all,
        Err(_) => all,
    }
}
