//! Terms as data: sorts and their codes, terms, definitions, values, when two are the same, the sorts of terms, and numbers
//! of 128 bits. Definitions alone: the types that keep terms are logic_core's, and the language's own crates need none.
#![tactic(auto)]
