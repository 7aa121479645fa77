//! Points of a program that no execution reaches (as Boogie finds them with `/smoke`). The points of a procedure are the ends
//! of the branches of its ifs, of the bodies of its loops, and of its whole body. At each of them what is
//! false is asserted, so that an execution which reaches it fails with the point's mark, and the search is
//! asked for a proof of it. `smoke` gives exactly the lines of `specs/Smoke.antt`; a point that a line
//! names is reached from none of its procedure's entry states. Points, marks and modules with a point are
//! exactly those of `specs/`; a module with a point stays typed, and its gotos still go forward.
#![tactic(auto)]

// Points, and those of a procedure.
pub mod point;
pub mod proc_points;

// A point put into a procedure and into a module.
pub mod module;
mod put;

// What is promised of every module with a point.
pub mod point_laws;

// The points of a program.
pub mod program_point;

// Points put into their procedures, many at once.
mod pointed;

// What the search says of a point.
mod search;

// The lines.
mod lines;
pub mod report;

// What the lines are worth.
pub mod laws;

pub use module::with_point;
pub use point::{Point, PointKind};
pub use proc_points::points;
pub use program_point::ProgramPoint;
pub use put::proc_with_point;
pub use report::{Smoked, smoke};
