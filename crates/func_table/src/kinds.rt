// The short names of kinds, and when kinds are the same or equal.
ghost use Rattle.std.specs.Prelude.{◌≡◌};
ghost use Rattle.func_table.specs.Kinds as spec;

use sub_types::Kind;

/// The short name of a kind, of which keys are made.
pub(crate) fn short_name(kind: Kind) -> &'static str
    ensures { result.now ≡ spec.short_name kind }
{
    match kind {
        Kind::Bool => "bool",
        Kind::I8 => "i8",
        Kind::I16 => "i16",
        Kind::I32 => "i32",
        Kind::I64 => "i64",
        Kind::Text => "str",
        Kind::Binary => "vbin",
        Kind::Date => "date",
        Kind::Timestamp => "ts",
        Kind::Decimal { .. } => "dec",
    }
}

/// Whether two kinds are equal, but for the precision of decimals.
pub(crate) fn is_same(a: Kind, b: Kind) -> bool
    ensures { result ≡ spec.is_same a b }
{
    match (a, b) {
        (Kind::Decimal { scale: a, .. }, Kind::Decimal { scale: b, .. }) => a == b,
        (a, b) => a == b,
    }
}

/// Whether two kinds are equal.
pub fn is_equal(a: Kind, b: Kind) -> bool
    ensures { result ≡ spec.is_equal a b }
{
    a == b
}
