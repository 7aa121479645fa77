//! Edits of a program: from its declarations and a request that opens a program or edits the present
//! one to the declarations after it, or to why it is refused. `edited` gives exactly what the
//! request makes of the declarations, by what its texts spell.
#![tactic(auto)]

// Why an edit is refused.
pub mod fault;

// The names of declarations, and of axioms.
mod names;

// The declaration that a put's text is.
mod puts;

// Puts and drops at their places, and all of it.
pub mod edits;
mod places;

// The declarations that take the places of others, where an edit does nothing else.
pub mod replaced;

// An edit makes one thing of declarations.
pub mod laws;

pub use edits::edited;
pub use fault::EditFault;
pub use replaced::{Replacement, replacements_of};
