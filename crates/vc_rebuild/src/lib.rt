//! A program's goals, built anew only where an edit changed what they depend on: a procedure whose
//! dependency text stands among those before keeps its obligations, and takes its marks from the
//! present program. (Leino and Wüstholz, Fine-grained caching of verification results, CAV 2015, keep
//! answers so.)
#![tactic(auto)]

// Dependency texts, and texts with their digests.
mod digest;
mod text;

// Programs without gotos.
mod gotos;

// Goals that share their obligations, and what is kept of a procedure and of a program.
pub mod built;
pub mod kept;
pub mod shared;

// A body that alone is another one.
mod apart;
pub mod change;

// A procedure kept or built, and then a program.
mod candidate;
mod collected;
mod large;
mod procedure;
pub mod program;
mod put_body;

pub use built::{Built, Rebuilt};
pub use change::{ChangedBody, changed_body};
pub use kept::BuiltProc;
pub use program::{rebuild, rebuild_changed, texts_fix_obligations};
pub use shared::KeptGoal;
