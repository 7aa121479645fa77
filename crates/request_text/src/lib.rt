//! What a session reads and writes: the request that a line is, the bytes of a reply, and the text of
//! generated programs. Lines and replies are JSON (RFC 8259).
#![tactic(auto)]

// Requests.
mod fields;
mod names;
mod reading;
pub mod request;

// Replies.
mod replies;
pub mod reply;

// Programs of any size, for trying the server.
mod generator;

pub use generator::generate;
pub use reading::{LONGEST, read_request};
pub use replies::write_reply;
pub use reply::Reply;
pub use request::{BadRequest, Put, Request};
