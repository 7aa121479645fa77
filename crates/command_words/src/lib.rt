//! The words of the command line, and the command that they are. `read_words` reads exactly the
//! words that have a reading: those that clap's simple command takes, whose mode is one of the
//! five, and whose options the mode takes, each a number within its range.
#![tactic(auto)]

// What is read, and why nothing is.
pub mod command;
pub mod fault;

// The numbers of the options, mode by mode.
mod number;
mod options;

// The words.
mod command_line;
pub mod reading;

pub use command::{Command, Mode};
pub use fault::Usage;
pub use reading::read_words;
