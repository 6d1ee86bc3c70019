// How values are stored.
use sub_types::Kind;

/// How the values of a column are stored: as bits, as numbers of a width, or as bytes.
#[derive(Clone, Copy, Debug, PartialEq, Eq, Hash)]
pub enum Storage {
    Bool,
    I8,
    I16,
    I32,
    I64,
    I128,
    Bytes,
}

impl Storage {
    ghost use Rattle.std.specs.Prelude.{◌≡◌};
    ghost use Rattle.batch.specs.ColumnValues.{kind_storage};

    /// How the values of a kind are stored.
    pub fn of_kind(kind: Kind) -> Storage
        ensures { result ≡ kind_storage kind }
    {
        match kind {
            Kind::Bool => Storage::Bool,
            Kind::I8 => Storage::I8,
            Kind::I16 => Storage::I16,
            Kind::I32 | Kind::Date => Storage::I32,
            Kind::I64 | Kind::Timestamp => Storage::I64,
            Kind::Decimal { .. } => Storage::I128,
            Kind::Text | Kind::Binary => Storage::Bytes,
        }
    }
}
