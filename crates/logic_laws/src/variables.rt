// A term means the same over more variables, and whatever the values of those that it doesn't mention.
ghost use Rattle.logic_laws.specs.VariableLaws.{MoreVariablesKeepSorts, MoreVariablesKeepAssignments, MoreVariablesKeepValues, OtherVariablesDontMatter};

/// Over more variables a term keeps its sort.
pub fn more_variables_keep_sorts()
    ensures { MoreVariablesKeepSorts }
{}

/// An assignment with values of their sorts for more variables is one.
pub fn more_variables_keep_assignments()
    ensures { MoreVariablesKeepAssignments }
{}

/// With values for more variables a term keeps its value.
pub fn more_variables_keep_values()
    ensures { MoreVariablesKeepValues }
{}

/// Two assignments that agree on the variables that a term and the definitions mention give the term the same value.
pub fn other_variables_dont_matter()
    ensures { OtherVariablesDontMatter }
{}
