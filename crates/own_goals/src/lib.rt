//! The goals of a program on a board of a session's own, on which nobody else works: they are claimed,
//! searched one after another, and gathered. What a session does with it are the calls of any board of
//! goals, and its answers are the search's, whether they were found now or were at hand.
#![tactic(auto)]

// Claims, searches and deposits.
mod settling;

// Answers at hand.
mod recall;
mod told;

// The board.
pub mod alone;

pub use alone::Alone;
