// Two values that may both find no memory.
ghost use Rattle.std.specs.Prelude.{◌≡◌, Ok, IfOk, IsOk};

use sub_types::NoMemory;

/// Both values, or `NoMemory` where either found none. A struct of values that may each find none is made from them at once,
/// so that none has to be let go half-way.
pub fn zip<A: Drop, B: Drop>(
    first: Result<A, NoMemory>,
    second: Result<B, NoMemory>,
) -> Result<(A, B), NoMemory>
    ensures first { IfOk result (λ both. first ≡ Ok both.0) }
    ensures second { IfOk result (λ both. second ≡ Ok both.1) }
    ensures found { IsOk first → IsOk second → IsOk result }
{
    Ok((first?, second?))
}
