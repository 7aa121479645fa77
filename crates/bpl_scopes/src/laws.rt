// What the first fault of a declaration is. The functions do nothing; their contracts are laws.
ghost use Rattle.bpl_scopes.specs.FaultLaws.{FirstIsFirst, NoneIsNone};

/// The first fault of a list is one of its faults, and none of them stands before it.
pub fn first_fault_is_first()
    ensures { FirstIsFirst }
{}

/// There is no first fault only where there is none.
pub fn no_fault_is_no_fault()
    ensures { NoneIsNone }
{}
