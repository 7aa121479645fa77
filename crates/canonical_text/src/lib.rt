//! The canonical text of Boogie programs: one text for each tree, with parentheses exactly where the
//! grammar needs them. It spells the same program but for places and spans, or a token of it lies too
//! deep.
#![tactic(auto)]

// Which signs need parentheses.
mod level;
mod parens;
mod sign;

// Lines, and pages of them.
mod line;
mod page;

// The text, from types up.
mod print_actions;
pub mod print_decls;
mod print_exprs;
mod print_heads;
mod print_stmts;
mod print_types;

// What is read back from it, over the definitions alone.
pub mod laws;

pub use laws::{
    canonical_text_spells_the_same, canonical_text_spells_the_same_or_is_deep,
    canonical_tokens_are_found, declarations_are_read_back, expressions_are_read_back,
    programs_are_read_back, same_programs_have_one_text, some_canonical_text_is_deep,
    texts_tell_declarations, types_are_read_back,
};
pub use print_decls::{print, print_contract, print_expression, print_lines, print_text};
