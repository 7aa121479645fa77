// Whether carriers are taken for something else, and the types of what is declared where they are not.
ghost use Rattle.std.specs.Prelude.{◌≡◌, None, IfOk, IfErr};
ghost use Rattle.bpl_declaration_faults.specs.DeclFaults.{fault_of};
ghost use Rattle.user_types.specs.CarrierFaults.{carrier_fault};
ghost use Rattle.user_types.specs.Erased.{erased};
ghost use Rattle.bpl_sorts.specs.CarrierFaults.{IsCarrierFault};
ghost use Rattle.bpl_sorts.specs.DeclaredTypes.{declared_types};
ghost use Rattle.bpl_sorts.specs.TypesView.{IsListed, AreItsTypes};

use crate::declared_types::declared_types;
use crate::value_types::Types;
use bpl_ast::Program;
use bv_base::place::Place;
use std::alloc::{AllocError, Global};
use thiserror::Error;
use user_types::first_carrier_fault;

/// Why the carriers of a program's user types are not told from other values.
#[derive(Clone, Copy, PartialEq, Eq, Debug, Drop, Error)]
pub enum CarrierFault {
    /// At this place of this declaration stands something of another type than its place needs, or
    /// a user type as a map's domain.
    #[error("a user type is taken for another type")]
    Carrier { decl: usize, at: Place },
    /// Memory ran out.
    #[error("out of memory")]
    Memory,
}

impl From<AllocError> for CarrierFault {
    ghost use Rattle.bpl_sorts.specs.declared.carriers.CarrierFault.TheVariants.{Memory};

    ghost from_gives = { λ _ e. e ≡ Memory };

    fn from(_: AllocError) -> CarrierFault {
        CarrierFault::Memory
    }
}

// The types of what a program declares that takes carriers for carriers of their own user type alone.
fn passing_types(alloc: Global, program: &Program) -> Result<Types, AllocError>
    requires faultless { fault_of (erased program.now) ≡ None }
    requires passing { carrier_fault program.now ≡ None }
    ensures types { IfOk result (IsListed (declared_types program.now)) }
    ensures typed { IfOk result (AreItsTypes program.now) }
{
    declared_types(alloc, program)
}

/// The types of what a program declares, where it takes carriers for carriers of their own user type
/// alone. Where the erased program has no fault, user types are different from `int` and from each
/// other; the fault is the first by declaration and place at which an operand, argument, right side,
/// index or condition has another type than its place needs, an implementation has parameters of
/// other types, or a map's domain is a user type. Without one, each expression of the program's own
/// declarations has its type, where what is declared has the types of the answer. `Memory` comes
/// where memory runs out, and may come in place of any answer.
pub fn check_carriers(alloc: Global, program: &Program) -> Result<Types, CarrierFault>
    requires { fault_of (erased program.now) ≡ None }
    ensures faultless { IfOk result (λ _. carrier_fault program.now ≡ None) }
    ensures types { IfOk result (IsListed (declared_types program.now)) }
    ensures typed { IfOk result (AreItsTypes program.now) }
    ensures fault { IfErr result (IsCarrierFault program.now) }
{
    match first_carrier_fault(alloc, program)? {
        Some((decl, at)) => Err(CarrierFault::Carrier { decl, at }),
        None => Ok(passing_types(alloc, program)?),
    }
}
