//! Calls replaced by their contracts: the arguments and each modified global's old value are kept in
//! variables that the call owns, what the callee requires is asserted, and after a havoc of what it
//! may change what it ensures is assumed. `cut_calls` gives exactly the procedure so defined, and
//! each failing execution has a failing one without calls.
#![tactic(auto)]

// Numbers of variables.
mod number;

// What a contract says, and its variables as the caller sees them.
mod contract;
mod table;

// What stands for a call: its own variables, and its statements.
mod assignment;
mod call;
mod own;

// Bodies and procedures without calls.
mod body;
pub mod procedure;

// What the replacement keeps.
pub mod laws;

pub use procedure::cut_calls;
