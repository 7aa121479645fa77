// The module of a program without faults.
ghost use Rattle.bpl_resolve.specs.ModuleLaws.{FaultlessIsTyped, FaultlessGoesForward};

/// The module of a program without faults is typed.
pub fn faultless_modules_are_typed()
    ensures { FaultlessIsTyped }
{}

/// In the module of a program without faults the labels of each body are distinct, and each goto goes
/// to a later statement.
pub fn faultless_gotos_go_forward()
    ensures { FaultlessGoesForward }
{}
