//! The grammar of Boogie (Leino, This is Boogie 2, 2008) as data, what becomes of tokens that are read
//! by it, and the laws that join the two: what is read goes as far as the tokens go, and the fault's
//! token is the first with which they don't begin what is read, or that lies too deep.
#![tactic(auto)]

pub mod laws;
pub mod text_laws;

pub use laws::{
    equal_parts_have_one_fate, expressions_are_exact, expressions_are_spelled, trees_are_unique,
    types_are_exact, types_are_spelled,
};
pub use text_laws::{
    fails_at_the_fault, faultless_or_fault, faults_are_found, fine_is_faultless, never_both,
    one_fault, one_program, programs_are_exact, programs_are_unique,
};
