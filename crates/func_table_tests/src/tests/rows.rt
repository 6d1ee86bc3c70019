// Every row of the table, by a call that it takes.
use super::{BINARY, BOOL, DATE, DECIMAL, FINE, I8, I16, I32, I64, TEXT, TIMESTAMP, WIDE};
use func_table::{Class, ResultRule, find, has_name, honours};
use plan_typed::Func;
use sub_types::Kind;

// A call, and the row that takes it, with its options and the values of them that it honours.
struct Case {
    file: &'static str,
    class: Class,
    name: &'static str,
    kinds: &'static [Kind],
    key: &'static str,
    func: Func,
    result: ResultRule,
    options: &'static [(&'static str, &'static [&'static str])],
}

macro_rules! cases {
    ($($file:literal {
        $($class:ident $name:literal [$($kind:expr),*] => $key:literal, $func:ident, $result:ident, $options:expr;)*
    })*) => {
        [$($(Case {
            file: $file,
            class: Class::$class,
            name: $name,
            kinds: &[$($kind),*],
            key: $key,
            func: Func::$func,
            result: ResultRule::$result,
            options: $options,
        },)*)*]
    };
}

type Options = &'static [(&'static str, &'static [&'static str])];

const NONE: Options = &[];

const MODES: Options = &[("overflow", &["ERROR", "SATURATE", "SILENT"])];

const FAULT: Options = &[("overflow", &["ERROR"])];

const DIVISION: Options = &[
    ("overflow", &["ERROR", "SATURATE", "SILENT"]),
    ("on_division_by_zero", &["ERROR"]),
    ("on_domain_error", &["ERROR"]),
];

const MODULUS: Options = &[
    ("overflow", &["ERROR", "SATURATE", "SILENT"]),
    ("on_division_by_zero", &["ERROR"]),
    ("on_domain_error", &["ERROR"]),
    ("division_type", &["TRUNCATE"]),
];

const CASE: Options = &[("case_sensitivity", &["CASE_SENSITIVE"])];

const NULLS: Options = &[("null_handling", &["ACCEPT_NULLS"])];

const START: Options = &[("negative_start", &["ERROR"])];

static BOOLEAN: [Case; 4] = cases! {
    "functions_boolean.yaml" {
        Scalar "and" [BOOL, BOOL] => "and:bool", And, Bool, NONE;
        Scalar "or" [BOOL, BOOL] => "or:bool", Or, Bool, NONE;
        Scalar "not" [BOOL] => "not:bool", Not, Bool, NONE;
        Scalar "xor" [BOOL, BOOL] => "xor:bool_bool", Xor, Bool, NONE;
    }
};

fn boolean() -> &'static [Case] {
    &BOOLEAN
}

static COMPARISON: [Case; 12] = cases! {
    "functions_comparison.yaml" {
        Scalar "equal" [I64, I64] => "equal:any_any", Equal, Bool, NONE;
        Scalar "not_equal" [TEXT, TEXT] => "not_equal:any_any", NotEqual, Bool, NONE;
        Scalar "lt" [BOOL, BOOL] => "lt:any_any", Lt, Bool, NONE;
        Scalar "lte" [DATE, DATE] => "lte:any_any", Lte, Bool, NONE;
        Scalar "gt" [DECIMAL, WIDE] => "gt:any_any", Gt, Bool, NONE;
        Scalar "gte" [I16, I16] => "gte:any_any", Gte, Bool, NONE;
        Scalar "is_not_distinct_from" [TIMESTAMP, TIMESTAMP] => "is_not_distinct_from:any_any", IsNotDistinctFrom, Bool, NONE;
        Scalar "between" [BINARY, BINARY, BINARY] => "between:any_any_any", Between, Bool, NONE;
        Scalar "is_null" [I64] => "is_null:any", IsNull, Bool, NONE;
        Scalar "is_not_null" [TEXT] => "is_not_null:any", IsNotNull, Bool, NONE;
        Scalar "coalesce" [BOOL, BOOL] => "coalesce:any", Coalesce, Same, NONE;
        Scalar "nullif" [DATE, DATE] => "nullif:any_any", Nullif, Same, NONE;
    }
};

fn comparison() -> &'static [Case] {
    &COMPARISON
}

static SUMS_AND_PRODUCTS: [Case; 12] = cases! {
    "functions_arithmetic.yaml" {
        Scalar "add" [I8, I8] => "add:i8_i8", Add, Same, MODES;
        Scalar "add" [I16, I16] => "add:i16_i16", Add, Same, MODES;
        Scalar "add" [I32, I32] => "add:i32_i32", Add, Same, MODES;
        Scalar "add" [I64, I64] => "add:i64_i64", Add, Same, MODES;
        Scalar "subtract" [I8, I8] => "subtract:i8_i8", Subtract, Same, MODES;
        Scalar "subtract" [I16, I16] => "subtract:i16_i16", Subtract, Same, MODES;
        Scalar "subtract" [I32, I32] => "subtract:i32_i32", Subtract, Same, MODES;
        Scalar "subtract" [I64, I64] => "subtract:i64_i64", Subtract, Same, MODES;
        Scalar "multiply" [I8, I8] => "multiply:i8_i8", Multiply, Same, MODES;
        Scalar "multiply" [I16, I16] => "multiply:i16_i16", Multiply, Same, MODES;
        Scalar "multiply" [I32, I32] => "multiply:i32_i32", Multiply, Same, MODES;
        Scalar "multiply" [I64, I64] => "multiply:i64_i64", Multiply, Same, MODES;
    }
};

fn sums_and_products() -> &'static [Case] {
    &SUMS_AND_PRODUCTS
}

static QUOTIENTS: [Case; 8] = cases! {
    "functions_arithmetic.yaml" {
        Scalar "divide" [I8, I8] => "divide:i8_i8", Divide, Same, DIVISION;
        Scalar "divide" [I16, I16] => "divide:i16_i16", Divide, Same, DIVISION;
        Scalar "divide" [I32, I32] => "divide:i32_i32", Divide, Same, DIVISION;
        Scalar "divide" [I64, I64] => "divide:i64_i64", Divide, Same, DIVISION;
        Scalar "modulus" [I8, I8] => "modulus:i8_i8", Modulus, Same, MODULUS;
        Scalar "modulus" [I16, I16] => "modulus:i16_i16", Modulus, Same, MODULUS;
        Scalar "modulus" [I32, I32] => "modulus:i32_i32", Modulus, Same, MODULUS;
        Scalar "modulus" [I64, I64] => "modulus:i64_i64", Modulus, Same, MODULUS;
    }
};

fn quotients() -> &'static [Case] {
    &QUOTIENTS
}

static SIGNS: [Case; 8] = cases! {
    "functions_arithmetic.yaml" {
        Scalar "negate" [I8] => "negate:i8", Negate, Same, MODES;
        Scalar "negate" [I16] => "negate:i16", Negate, Same, MODES;
        Scalar "negate" [I32] => "negate:i32", Negate, Same, MODES;
        Scalar "negate" [I64] => "negate:i64", Negate, Same, MODES;
        Scalar "abs" [I8] => "abs:i8", Abs, Same, MODES;
        Scalar "abs" [I16] => "abs:i16", Abs, Same, MODES;
        Scalar "abs" [I32] => "abs:i32", Abs, Same, MODES;
        Scalar "abs" [I64] => "abs:i64", Abs, Same, MODES;
    }
};

fn signs() -> &'static [Case] {
    &SIGNS
}

static ARITHMETIC_AGGREGATES: [Case; 12] = cases! {
    "functions_arithmetic.yaml" {
        Aggregate "sum" [I8] => "sum:i8", Sum, I64, FAULT;
        Aggregate "sum" [I16] => "sum:i16", Sum, I64, FAULT;
        Aggregate "sum" [I32] => "sum:i32", Sum, I64, FAULT;
        Aggregate "sum" [I64] => "sum:i64", Sum, I64, FAULT;
        Aggregate "min" [I8] => "min:i8", Min, Same, NONE;
        Aggregate "min" [I16] => "min:i16", Min, Same, NONE;
        Aggregate "min" [I32] => "min:i32", Min, Same, NONE;
        Aggregate "min" [I64] => "min:i64", Min, Same, NONE;
        Aggregate "max" [I8] => "max:i8", Max, Same, NONE;
        Aggregate "max" [I16] => "max:i16", Max, Same, NONE;
        Aggregate "max" [I32] => "max:i32", Max, Same, NONE;
        Aggregate "max" [I64] => "max:i64", Max, Same, NONE;
    }
};

fn arithmetic_aggregates() -> &'static [Case] {
    &ARITHMETIC_AGGREGATES
}

static DECIMALS: [Case; 7] = cases! {
    "functions_arithmetic_decimal.yaml" {
        Scalar "add" [DECIMAL, FINE] => "add:dec_dec", Add, DeclaredDecimal, FAULT;
        Scalar "subtract" [FINE, WIDE] => "subtract:dec_dec", Subtract, DeclaredDecimal, FAULT;
        Scalar "multiply" [DECIMAL, DECIMAL] => "multiply:dec_dec", Multiply, DeclaredDecimal, FAULT;
        Aggregate "sum" [DECIMAL] => "sum:dec", Sum, DeclaredDecimal, FAULT;
        Aggregate "avg" [DECIMAL] => "avg:dec", Avg, DeclaredDecimal, FAULT;
        Aggregate "min" [DECIMAL] => "min:dec", Min, Same, FAULT;
        Aggregate "max" [DECIMAL] => "max:dec", Max, Same, FAULT;
    }
};

fn decimals() -> &'static [Case] {
    &DECIMALS
}

static STRING: [Case; 9] = cases! {
    "functions_string.yaml" {
        Scalar "concat" [TEXT, TEXT] => "concat:str", Concat, Same, NULLS;
        Scalar "substring" [TEXT, I32] => "substring:str_i32", Substring, Same, START;
        Scalar "substring" [TEXT, I32, I32] => "substring:str_i32_i32", Substring, Same, START;
        Scalar "starts_with" [TEXT, TEXT] => "starts_with:str_str", StartsWith, Bool, CASE;
        Scalar "ends_with" [TEXT, TEXT] => "ends_with:str_str", EndsWith, Bool, CASE;
        Scalar "contains" [TEXT, TEXT] => "contains:str_str", Contains, Bool, CASE;
        Scalar "like" [TEXT, TEXT] => "like:str_str", Like, Bool, CASE;
        Scalar "char_length" [TEXT] => "char_length:str", CharLength, I64, NONE;
        Scalar "octet_length" [TEXT] => "octet_length:str", OctetLength, I64, NONE;
    }
};

fn string() -> &'static [Case] {
    &STRING
}

static DATETIME: [Case; 12] = cases! {
    "functions_datetime.yaml" {
        Scalar "lt" [DATE, DATE] => "lt:date_date", Lt, Bool, NONE;
        Scalar "lt" [TIMESTAMP, TIMESTAMP] => "lt:ts_ts", Lt, Bool, NONE;
        Scalar "lte" [DATE, DATE] => "lte:date_date", Lte, Bool, NONE;
        Scalar "lte" [TIMESTAMP, TIMESTAMP] => "lte:ts_ts", Lte, Bool, NONE;
        Scalar "gt" [DATE, DATE] => "gt:date_date", Gt, Bool, NONE;
        Scalar "gt" [TIMESTAMP, TIMESTAMP] => "gt:ts_ts", Gt, Bool, NONE;
        Scalar "gte" [DATE, DATE] => "gte:date_date", Gte, Bool, NONE;
        Scalar "gte" [TIMESTAMP, TIMESTAMP] => "gte:ts_ts", Gte, Bool, NONE;
        Aggregate "min" [DATE] => "min:date", Min, Same, NONE;
        Aggregate "min" [TIMESTAMP] => "min:ts", Min, Same, NONE;
        Aggregate "max" [DATE] => "max:date", Max, Same, NONE;
        Aggregate "max" [TIMESTAMP] => "max:ts", Max, Same, NONE;
    }
};

fn datetime() -> &'static [Case] {
    &DATETIME
}

static GENERIC: [Case; 2] = cases! {
    "functions_aggregate_generic.yaml" {
        Aggregate "count" [] => "count:", Count, I64, NONE;
        Aggregate "count" [BINARY] => "count:any", Count, I64, NONE;
    }
};

fn generic() -> &'static [Case] {
    &GENERIC
}

// Each in a function of its own, since a proof of a function that names a table goes through all its rows.
fn tables() -> [&'static [Case]; 10] {
    [
        boolean(),
        comparison(),
        sums_and_products(),
        quotients(),
        signs(),
        arithmetic_aggregates(),
        decimals(),
        string(),
        datetime(),
        generic(),
    ]
}

impl Case {
    fn is_found(&self) -> bool {
        match find(self.file, self.name, self.kinds, self.class) {
            None => false,
            Some(row) => {
                row.name == self.name
                    && row.key == self.key
                    && row.func == self.func
                    && row.result == self.result
            }
        }
    }

    fn other_class(&self) -> Class {
        match self.class {
            Class::Scalar => Class::Aggregate,
            Class::Aggregate => Class::Scalar,
        }
    }

    // What is wanted of an option and a value.
    fn wants(&self, option: &str, value: &str) -> Option<bool> {
        let (_, values) = self.options.iter().find(|(name, _)| *name == option)?;
        Some(values.iter().any(|one| *one == value))
    }

    fn honours_as_wanted(&self, option: &str, value: &str) -> bool {
        match find(self.file, self.name, self.kinds, self.class) {
            None => false,
            Some(row) => honours(&row, option, value) == self.wants(option, value),
        }
    }

    // Which of these doesn't hold, if one doesn't: the call is found and its name known in the row's class, and neither in the
    // other class.
    fn first_false(&self) -> Option<usize> {
        let other = self.other_class();
        let seen = [
            self.is_found(),
            has_name(self.file, self.name, self.class),
            find(self.file, self.name, self.kinds, other).is_none(),
            !has_name(self.file, self.name, other),
        ];
        seen.iter().position(|holds| !*holds)
    }

    // The first value of the option that isn't honoured as wanted, if there is one.
    fn first_misread_value(&self, option: &str) -> Option<&'static str> {
        for value in &VALUES {
            if !self.honours_as_wanted(option, value) {
                return Some(*value);
            }
        }
        None
    }

    fn first_misread(&self) -> Option<(&'static str, &'static str)> {
        for option in &OPTIONS {
            if let Some(value) = self.first_misread_value(option) {
                return Some((*option, value));
            }
        }
        None
    }
}

static OPTIONS: [&str; 10] = [
    "overflow",
    "on_division_by_zero",
    "on_domain_error",
    "division_type",
    "case_sensitivity",
    "null_handling",
    "negative_start",
    "rounding",
    "OVERFLOW",
    "",
];

static VALUES: [&str; 11] = [
    "ERROR",
    "SATURATE",
    "SILENT",
    "TRUNCATE",
    "FLOOR",
    "CASE_SENSITIVE",
    "CASE_INSENSITIVE",
    "ACCEPT_NULLS",
    "IGNORE_NULLS",
    "error",
    "",
];

// The key of the first row that isn't taken in its class alone, and what doesn't hold of it, if there is one.
fn first_not_alone(cases: &[Case]) -> Option<(&'static str, usize)> {
    for case in cases {
        if let Some(which) = case.first_false() {
            return Some((case.key, which));
        }
    }
    None
}

// The key of the first row with an option and a value that it doesn't honour as wanted, if there is one.
fn first_misread(cases: &[Case]) -> Option<(&'static str, &'static str, &'static str)> {
    for case in cases {
        if let Some((option, value)) = case.first_misread() {
            return Some((case.key, option, value));
        }
    }
    None
}

#[test]
fn each_row_takes_its_call_in_its_class_alone(rt: HostRuntime) {
    for cases in tables() {
        assert_eq!(rt; first_not_alone(cases), None);
    }
}

#[test]
fn each_row_has_its_options_and_no_others(rt: HostRuntime) {
    for cases in tables() {
        assert_eq!(rt; first_misread(cases), None);
    }
}
