// Readers that a folder has given and not got back.
ghost use Rattle.std.specs.Prelude.{◌≡◌, ◌+◌, IfOk};

use sub_types::NoMemory;

/// One more. So many readers as a count can't hold don't lie in any memory.
pub(crate) fn one_more(lent: u64) -> Result<u64, NoMemory>
    ensures { IfOk result (λ more. more ≡ lent + 1) }
{
    lent.checked_add(1).ok_or(NoMemory)
}
