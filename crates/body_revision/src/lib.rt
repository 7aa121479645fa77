//! Declarations that are revisions of others, and the program with the ones in the others' places: a
//! procedure with other clauses or another body, an implementation with another body, or an axiom with
//! another expression. `is_revised` tells such a pair: all that stands before the clauses, or before an
//! implementation's body, is equal, places included, and a procedure names in `modifies` what the other
//! names. A caller's faults and terms depend on no other clause, nothing depends on an axiom but its own
//! term, and what the program declares is the same but for these: so each revision is looked at by
//! itself, and the program stays without faults exactly where none of them has a fault of its own. Of the
//! module the procedures, the axioms and the texts of their declarations are new; all else is that of the
//! module before, and nothing of it is made again. Where there are user types, what is declared in their
//! two readings, as integers and told apart, is made of the declarations' heads alone.
#![tactic(auto)]

// Equal names, types, parameters and expressions.
mod arguments;
mod exprs;
mod names;
mod parts;
mod specs;
mod types;

// Values of functions that apply the same.
mod values;

// Equal heads.
mod functions;
pub mod heads;

// What the program declares, in the readings of its user types too, and the faults.
pub mod declared_names;
pub mod faultless;
pub mod readings;

// The module: what is new and where it stands, the procedure, the axiom or the value, and the whole.
mod axioms;
mod function_values;
pub mod module;
pub(crate) mod places;
mod procedures;
pub mod putting;
pub mod revised;

// Several revisions, and what readings have to do with them.
pub mod laws;

pub use declared_names::DeclaredNames;
pub use heads::is_revised;
pub use putting::put_revision;
pub use readings::read_heads;
pub use revised::{ModulePart, Revision};
