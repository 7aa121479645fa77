// What a binder's body says with closed terms for the binder's variables.
ghost use Rattle.logic_laws.specs.BinderLaws.{SubstitutingKeepsSorts, SubstitutingKeepsValues, InstancesHold, WitnessesExist};

/// A body keeps its sort with terms of the binder's sorts for its variables.
pub fn substituting_keeps_sorts()
    ensures { SubstitutingKeepsSorts }
{}

/// A body with closed terms for the binder's variables has the value that it has where the variables have the values of the terms.
pub fn substituting_keeps_values()
    ensures { SubstitutingKeepsValues }
{}

/// Where a `ForAll` holds, so does its body with terms of its sorts.
pub fn instances_hold()
    ensures { InstancesHold }
{}

/// Where an `Exists` holds, its body doesn't fail for all values of its sorts.
pub fn witnesses_exist()
    ensures { WitnessesExist }
{}
