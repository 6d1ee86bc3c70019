// The names of functions, kinds, modes and faults.
use anyhow::{Context, Result};
use plan_typed::{Func, Overflow};
use sub_types::{FaultKind, Kind};

static FUNCS: [(&str, Func); 31] = [
    ("and", Func::And),
    ("or", Func::Or),
    ("not", Func::Not),
    ("xor", Func::Xor),
    ("equal", Func::Equal),
    ("not_equal", Func::NotEqual),
    ("lt", Func::Lt),
    ("lte", Func::Lte),
    ("gt", Func::Gt),
    ("gte", Func::Gte),
    ("between", Func::Between),
    ("is_null", Func::IsNull),
    ("is_not_null", Func::IsNotNull),
    ("is_not_distinct_from", Func::IsNotDistinctFrom),
    ("coalesce", Func::Coalesce),
    ("nullif", Func::Nullif),
    ("add", Func::Add),
    ("subtract", Func::Subtract),
    ("multiply", Func::Multiply),
    ("divide", Func::Divide),
    ("modulus", Func::Modulus),
    ("negate", Func::Negate),
    ("abs", Func::Abs),
    ("concat", Func::Concat),
    ("substring", Func::Substring),
    ("starts_with", Func::StartsWith),
    ("ends_with", Func::EndsWith),
    ("contains", Func::Contains),
    ("like", Func::Like),
    ("char_length", Func::CharLength),
    ("octet_length", Func::OctetLength),
];

static KINDS: [(&str, Kind); 9] = [
    ("bool", Kind::Bool),
    ("i8", Kind::I8),
    ("i16", Kind::I16),
    ("i32", Kind::I32),
    ("i64", Kind::I64),
    ("str", Kind::Text),
    ("vbin", Kind::Binary),
    ("date", Kind::Date),
    ("ts", Kind::Timestamp),
];

static MODES: [(&str, Overflow); 3] = [
    ("ERROR", Overflow::Error),
    ("SATURATE", Overflow::Saturate),
    ("SILENT", Overflow::Silent),
];

static FAULTS: [(&str, FaultKind); 5] = [
    ("Overflow", FaultKind::Overflow),
    ("DivideByZero", FaultKind::DivideByZero),
    ("BadCast", FaultKind::BadCast),
    ("BadStart", FaultKind::BadStart),
    ("TextTooLong", FaultKind::TextTooLong),
];

/// What has the name.
fn named<T: Copy>(names: &[(&str, T)], name: &str) -> Option<T> {
    for (known, found) in names {
        if *known == name {
            return Some(*found);
        }
    }
    None
}

pub(crate) fn func_of(name: &str) -> Result<Func> {
    named(&FUNCS, name).context("no such function")
}

pub(crate) fn mode_of(name: &str) -> Result<Overflow> {
    named(&MODES, name).context("no such mode")
}

pub(crate) fn fault_of(name: &str) -> Option<FaultKind> {
    named(&FAULTS, name)
}

/// A kind by its short name, or `dec<precision,scale>`.
pub(crate) fn kind_of(name: &str) -> Result<Kind> {
    match name.strip_prefix("dec<") {
        Some(rest) => decimal_of(rest),
        None => named(&KINDS, name).context("no such kind"),
    }
}

fn decimal_of(digits: &str) -> Result<Kind> {
    let (precision, scale) = digits.split_once(',').context("no such kind")?;
    Ok(Kind::Decimal {
        precision: precision.parse()?,
        scale: scale.trim_end_matches('>').parse()?,
    })
}
