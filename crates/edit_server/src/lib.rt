//! The server: it reads a program, or makes one, searches for a proof of each of its goals, and reports;
//! or it checks proofs that come with a program, names points that no execution reaches, or keeps one
//! program open and answers request lines. `run` is the call that the program makes; its clauses are what
//! is promised, with any number of workers. `run_alone` waits for nobody; `serve_on` is a command on a
//! board that others work on, and tells each of its calls there.
#![tactic(auto)]

// Which command is answered, and what is answered where the input isn't one text.
mod generated;
mod modes;
mod session;

// Beside workers.
mod running;
mod serving;

// The call.
mod command;
mod writing;

// That a generated program has one summary.
pub mod laws;

pub use command::{run, run_alone};
pub use command_words::{Command, Mode, Usage, read_words};
pub use edit_session::{LineSession, serve};
pub use line_server::Ending;
pub use serving::serve_on;
pub use text_answers::Status;
