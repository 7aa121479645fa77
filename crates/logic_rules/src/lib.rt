//! The rules of the search for connectives, equations, definitions and quantifiers, defined: close, flatten,
//! skolem, rewrite, unfold, split and instantiate. There is no code here: the rules over terms and those over
//! numbers are other crates'.
#![tactic(auto)]
