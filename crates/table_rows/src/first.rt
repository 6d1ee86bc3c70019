// The first of the rows with a fault.
ghost use Rattle.std.specs.Prelude.{ℕ, Option};
ghost use Rattle.std.specs.Option.{option_or};
ghost use Rattle.sub_types.specs.declared.fault.FaultKind.{FaultKind};
ghost use Rattle.table_rows.specs.First.{IsFirst};

use sub_types::FaultKind;

/// A row, from 0, and what is wrong with it.
#[derive(Clone, Copy, Debug, PartialEq, Eq, Hash)]
pub(crate) struct RowFault {
    pub row: usize,
    pub kind: FaultKind,
}

/// The earlier of two faults, and the first of them where both stand in one row.
pub(crate) fn earlier(first: Option<RowFault>, second: Option<RowFault>) -> Option<RowFault>
    ensures { (f g : ℕ → Option FaultKind) (rows : ℕ) → IsFirst f rows first → IsFirst g rows second
        → IsFirst (λ k. option_or (f k) (g k)) rows result }
{
    match (first, second) {
        (None, second) => second,
        (first, None) => first,
        (Some(first), Some(second)) => {
            if second.row < first.row {
                Some(second)
            } else {
                Some(first)
            }
        }
    }
}
