//! The tokens of a program's text: where it can be cut into blanks, comments and tokens, each the
//! longest that begins at its place, and else the first byte at which none of them begins. (Words and
//! signs: Leino, This is Boogie 2, 2008.)
#![tactic(auto)]

mod bytes;
pub mod faults;
pub mod kinds;
pub mod lexing;
mod pieces;
mod signs;
mod words;

pub use faults::LexFault;
pub use kinds::{Token, TokenKind};
pub use lexing::tokens;
