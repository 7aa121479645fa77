// Replacing a closed term by another, and a call by its definition's body.
ghost use Rattle.logic_laws.specs.ReplaceLaws.{ReplacingKeepsSorts, ReplacingKeepsValues, CallsAreBodies};

/// With a closed term replaced by one of its sort, a term keeps its own sort.
pub fn replacing_keeps_sorts()
    ensures { ReplacingKeepsSorts }
{}

/// With a closed term replaced by one of its sort and value, a term keeps its own value.
pub fn replacing_keeps_values()
    ensures { ReplacingKeepsValues }
{}

/// A call has the value of its definition's body with the arguments for the parameters.
pub fn calls_are_bodies()
    ensures { CallsAreBodies }
{}
