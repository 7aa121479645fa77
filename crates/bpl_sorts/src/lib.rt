//! The types of what a program declares, with its user types: a program is checked to take no user type
//! for another type, and the types of what it declares are given. Laws say that the two readings of user
//! types tell types, that an expression with a sort in both has a type, and that a term with a type tells
//! the carriers of a user type apart by equality alone.
#![tactic(auto)]

// The types of what a program declares.
mod declared_types;
mod function_types;
mod procedure_types;
mod type_names;
pub mod value_types;
mod variable_types;

// Whether carriers are taken for something else.
pub mod carriers;

// What the readings tell of types, and what a program can tell of carriers.
pub mod laws;

pub use carriers::{CarrierFault, check_carriers};
pub use user_types::{Reading, erase, erase_over, first_carrier_fault, first_carrier_fault_over};
pub use value_types::{Ty, Types};
