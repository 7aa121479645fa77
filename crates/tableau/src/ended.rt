// How a search ended.

use proof_core::proof::Proof;
use tableau_branch::played::Played;

/// What a search says of an obligation.
#[derive(Clone, Copy, PartialEq, Eq, Debug)]
pub enum Verdict {
    /// There is a proof.
    Proved,
    /// No rule can be applied any more.
    Open,
    /// The next step costs more turns than are left.
    Turns,
    /// A number leaves 128 bits.
    Wide,
}

/// A search that ended: its verdict, and what the proof needs of its moves.
#[derive(Drop)]
pub struct Run {
    pub verdict: Verdict,
    pub moves: Vec<Played>,
}

/// What a search answers: its verdict, and the proof where that is Proved.
#[derive(Drop)]
pub struct Answer {
    pub verdict: Verdict,
    pub proof: Option<Proof>,
}
