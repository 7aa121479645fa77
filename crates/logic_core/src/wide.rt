// Sums and products of numbers of 128 bits.
ghost use Rattle.std.specs.Prelude.{◌≡◌, IfErr};
ghost use Rattle.logic_core.specs.Gives.{Gives};
ghost use Rattle.logic_core.specs.declared.fault.NormalFault.TheVariants.{Wide};
ghost use Rattle.logic_terms.specs.Wide.{checked_add, checked_mul};

use crate::fault::NormalFault;

/// The sum. Wide exactly where it leaves 128 bits.
pub fn checked_add(a: i128, b: i128) -> Result<i128, NormalFault>
    ensures gives { Gives result (checked_add a b) }
    ensures wide { IfErr result (λ e. e ≡ Wide) }
{
    a.checked_add(b).ok_or(NormalFault::Wide)
}

/// The product. Wide exactly where it leaves 128 bits.
pub fn checked_mul(a: i128, b: i128) -> Result<i128, NormalFault>
    ensures gives { Gives result (checked_mul a b) }
    ensures wide { IfErr result (λ e. e ≡ Wide) }
{
    a.checked_mul(b).ok_or(NormalFault::Wide)
}
