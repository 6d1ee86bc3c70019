// Which kinds are cast to which (Substrait `Cast`).
ghost use Rattle.std.specs.Prelude.{◌≡◌};
ghost use Rattle.plan_verdict.specs.Casts as spec;

use func_table::is_equal;
use sub_types::Kind;

/// Whether a value of one kind is cast to another.
pub fn can_cast(from: Kind, to: Kind) -> bool
    ensures { result ≡ spec.can_cast from to }
{
    is_equal(from, to) || is_cast_of(from, to)
}

fn is_cast_of(from: Kind, to: Kind) -> bool
    ensures { result ≡ spec.is_cast_of from to }
{
    match (from, to) {
        (Kind::I8 | Kind::I16 | Kind::I32 | Kind::I64, to) => is_cast_of_whole(to),
        (Kind::Text, to) => is_whole(to),
        (Kind::Decimal { scale, .. }, Kind::Decimal { scale: wide, .. }) => scale <= wide,
        (Kind::Date, Kind::Timestamp) => true,
        _ => false,
    }
}

fn is_cast_of_whole(kind: Kind) -> bool
    ensures { result ≡ spec.is_cast_of_whole kind }
{
    match kind {
        Kind::Decimal { .. } | Kind::Text => true,
        kind => is_whole(kind),
    }
}

fn is_whole(kind: Kind) -> bool
    ensures { result ≡ spec.is_whole kind }
{
    matches!(kind, Kind::I8 | Kind::I16 | Kind::I32 | Kind::I64)
}
