// Columns that kernels made, with their types.
ghost use Rattle.std.specs.Prelude.{◌≡◌, ◌<◌, ℕ, List, length, map, Ok, IfSome};
ghost use Rattle.std.specs.Simd.Lanes.{zip2};
ghost use Rattle.sub_types.specs.Nullable.{bool_value};
ghost use Rattle.sub_types.specs.declared.value.Value as values;
ghost use Rattle.plan_denote.specs.Computed as computed;
ghost use Rattle.call_kernels.specs.Made.{IsMade, at_places};

use batch::Column;
use col_fixed::BoolCol;
use kernels::Stop;
use sub_types::{Kind, Ty};

/// Truth values as a column of a type, if it is theirs. They never stop.
pub(crate) fn truths(ty: Ty, column: Option<BoolCol>) -> Option<(Column, Stop)>
    ensures { (f : values.Value → values.Value → computed.Computed) (a b : List values.Value) (n : ℕ) → length a ≡ n → length b ≡ n
        → IfSome column (λ truths. map (λ truth. Ok (bool_value truth)) truths ≡ zip2 f a b)
        → IfSome result (λ out. IsMade (at_places f a b) n ty out.0 out.1) }
{
    match column {
        Some(known) => match ty.kind {
            Kind::Bool => Some((Column::of_truths(ty, known), Stop::Never)),
            _ => None,
        },
        None => None,
    }
}
