//! User types and unique constants: a program is read without them, after which carriers are integers,
//! and the first place is found at which it takes a user type for another type. It does so by a second
//! reading, in which each user type is another sort.
#![tactic(auto)]

// The user types for which types stand.
mod users;

// Programs without user types: the two readings, and the carriers of constants.
mod constants;
pub mod erased;
pub mod readings;
mod replaced;

// The places at which carriers are taken for something else.
pub mod carriers;

pub use carriers::{first_carrier_fault, first_carrier_fault_over};
pub use erased::{erase, erase_over};
pub use readings::Reading;
