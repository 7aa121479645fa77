//! What is promised of the definitions, over all modules. Each function does nothing; its contract is
//! a law.
ghost use Rattle.smoke_report.specs.Kept.{WithPointStaysTyped, WithPointGoesForward};

/// What a module's type keeps holds of the module with a point.
pub fn with_point_stays_typed()
    ensures { WithPointStaysTyped }
{}

/// Where the labels of a module's bodies are distinct and its gotos go forward, so it is with a point.
pub fn with_point_goes_forward()
    ensures { WithPointGoesForward }
{}
