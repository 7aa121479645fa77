// The variables of a branch.
ghost use Rattle.std.specs.Prelude.{◌≡◌, OnOk};
ghost use Rattle.tableau_branch.specs.Variables.{with_variables};

use crate::branch::Branch;
use logic_core::sort::Sort;
use std::alloc::AllocError;

/// More variables, with the next numbers.
pub fn add_variables(branch: &mut Branch, mut sorts: Vec<Sort>) -> Result<(), AllocError>
    ensures { OnOk result (branch.new ≡ with_variables sorts.items branch.old) }
{
    branch.vars.append(&mut sorts)?;
    Ok(())
}
