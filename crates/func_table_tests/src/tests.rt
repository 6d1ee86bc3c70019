// Rows, calls and options of the table of functions.
mod calls;
mod rows;

use sub_types::Kind;

const BOOL: Kind = Kind::Bool;

const I8: Kind = Kind::I8;

const I16: Kind = Kind::I16;

const I32: Kind = Kind::I32;

const I64: Kind = Kind::I64;

const TEXT: Kind = Kind::Text;

const BINARY: Kind = Kind::Binary;

const DATE: Kind = Kind::Date;

const TIMESTAMP: Kind = Kind::Timestamp;

const DECIMAL: Kind = Kind::Decimal {
    precision: 10,
    scale: 2,
};

// As many digits behind the point, and more before it.
const WIDE: Kind = Kind::Decimal {
    precision: 38,
    scale: 2,
};

// One digit more behind the point.
const FINE: Kind = Kind::Decimal {
    precision: 10,
    scale: 3,
};
