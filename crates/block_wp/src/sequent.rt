// Sequents.
use logic_core::{Def, Formula, Sequence};

/// A goal, and the definitions over which it stands.
#[derive(Drop)]
pub struct Sequent {
    /// The definitions, by number.
    pub defs: Sequence<Def>,
    /// What is to be shown.
    pub goal: Formula,
}
