//! The names in the canonical texts of declarations, with a body and without, and the declarations for
//! which they stand.
#![tactic(auto)]

// The names in a declaration that no variable hides.
mod expr_uses;
mod stmt_uses;
pub mod uses;

// Line by line.
pub mod line_uses;

// The declarations for which names stand.
pub mod leads;

pub use leads::leads_of;
pub use uses::{contract_uses, decl_uses};
