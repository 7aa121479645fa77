// Laws of faults: where the first fault of a text stands, and what becomes of whole programs.
ghost use Rattle.bpl_grammar.specs.FaultLaw.{FailsAtTheFault, FaultlessOrFault, FineIsFaultless, NeverBoth, OneFault};
ghost use Rattle.bpl_grammar.specs.ProgramLaw.{FaultsAreFound, OneProgram, ProgramsAreExact, ProgramsAreUnique};

/// All is well with tokens exactly where they spell the part and none has a fault.
pub fn fine_is_faultless()
    ensures { FineIsFaultless }
{}

/// Tokens stop to go on with a part exactly where the first fault stands, and with its mark.
pub fn fails_at_the_fault()
    ensures { FailsAtTheFault }
{}

/// Every text spells the part without a fault, or has a fault.
pub fn faultless_or_fault()
    ensures { FaultlessOrFault }
{}

/// No text spells the part without a fault and has one.
pub fn never_both()
    ensures { NeverBoth }
{}

/// A text has one fault at most.
pub fn one_fault()
    ensures { OneFault }
{}

/// A text that is read spells the program that reading gives, and a text that isn't has the fault
/// that it gives.
pub fn programs_are_exact()
    ensures { ProgramsAreExact }
{}

/// A text spells no other program than the one that is read.
pub fn programs_are_unique()
    ensures { ProgramsAreUnique }
{}

/// The fault that a text has is the one that reading gives.
pub fn faults_are_found()
    ensures { FaultsAreFound }
{}

/// A text spells one program at most.
pub fn one_program()
    ensures { OneProgram }
{}
