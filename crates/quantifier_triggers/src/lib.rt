//! Triggers of quantifiers, as in Detlefs, Nelson and Saxe's "Simplify" (2005): the tuples of terms for which a
//! quantifier is instantiated, each pattern of its trigger matched against each ground term; and triggers for
//! quantifiers that have none, chosen among the terms of the body that mention the quantifier's variables.
//! A term with chosen triggers means the same.
#![tactic(auto)]

// The terms found for a quantifier's variables.
pub mod found;

// A pattern and a term, and a trigger and ground terms.
pub mod pattern;
mod trigger;

// What the tuples are.
pub mod laws;

// The terms of a body that may stand in a trigger.
mod candidates;
mod outside;

// The trigger of a quantifier, and those of a term.
mod choice;
mod term;

// What chosen triggers keep.
mod choice_laws;

pub use choice_laws::{
    chosen_triggers_meet_the_rules, left_out_only_uncovered, obligations_are_kept,
};
pub use term::with_triggers;
pub use trigger::{matches, matches_over};
