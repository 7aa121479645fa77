// Goals.
use flow_core::Mark;
use obligation_text::obligation::Obligation;

/// An assertion of a procedure and what is to be proved of it.
#[derive(Drop)]
pub struct Goal {
    /// Where the assertion stands, and why it is to hold.
    pub mark: Mark,
    /// What is to be valid.
    pub obligation: Obligation,
}
