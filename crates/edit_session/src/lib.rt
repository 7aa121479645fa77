//! A session: the program that is open, edits of it, and the board of its goals, which it has to itself
//! or shares with workers. Each request is answered as the definitions have it, whatever was kept before; a request that is refused,
//! or for which there is no memory, leaves declarations, version, kept answers and claims as they were.
//! Each report is the report from scratch of the program that is open, and what it calls correct is safe.
//!
//! A session goes over lines: each line of a source is read as a request and answered, and the reply is
//! written. What is answered and written over a whole source is a session as the definitions have it,
//! and each of its reports is true.
#![tactic(auto)]

// The goals that were built: names, marks and questions.
mod goals;

// The texts of requests, the lines of replies, and the replies that refuse a program.
mod lines;
mod refusals;
mod reported;
mod texts;

// The program that is open, and declarations that are to be.
pub mod program;

// The body of one declaration, where it alone is another one.
mod alone;

// The program after some of its procedures have got other clauses or bodies.
mod revising;

// Between which places procedures differ.
mod changed;

// Calls on the board, and the replies that tell them.
mod board_calls;

// The session.
pub mod session;

// What its reports are worth.
pub mod laws;

// What answers lines, that the lines of an input make a session, and the session over a source.
pub mod answerer;
pub mod line_laws;
pub mod line_session;

pub use answerer::LineSession;
pub use line_session::serve;
pub use session::Session;
