// The table of functions.
ghost use Rattle.std.specs.Prelude.{◌≡◌, map};
ghost use Rattle.func_table.specs.Seen.{entry_seen};
ghost use Rattle.func_table.specs.Table.{table};

use crate::line::Params::{AnyNumber, Each, OneOrMore};
use crate::line::{Alike, Line};
use crate::row::{Class, ResultRule, Row};
use plan_typed::Func;

// The lines of the files: of each its class, its name and key, its arguments and what they have in common, its function
// and its result.
macro_rules! table {
    ($($file:literal {
        $($class:ident $name:literal, $key:literal, $params:expr, $alike:ident => $func:ident, $result:ident;)*
    })*) => {
        [$($(Line {
            file: $file,
            class: Class::$class,
            params: $params,
            alike: Alike::$alike,
            row: Row {
                name: $name,
                key: $key,
                func: Func::$func,
                result: ResultRule::$result,
            },
        },)*)*]
    };
}

static TABLE: [Line; 86] = table! {
    "functions_boolean.yaml" {
        Scalar "and", "and:bool", AnyNumber("bool"), Free => And, Bool;
        Scalar "or", "or:bool", AnyNumber("bool"), Free => Or, Bool;
        Scalar "not", "not:bool", Each(&["bool"]), Free => Not, Bool;
        Scalar "xor", "xor:bool_bool", Each(&["bool", "bool"]), Free => Xor, Bool;
    }
    "functions_comparison.yaml" {
        Scalar "equal", "equal:any_any", Each(&["any", "any"]), Same => Equal, Bool;
        Scalar "not_equal", "not_equal:any_any", Each(&["any", "any"]), Same => NotEqual, Bool;
        Scalar "lt", "lt:any_any", Each(&["any", "any"]), Same => Lt, Bool;
        Scalar "lte", "lte:any_any", Each(&["any", "any"]), Same => Lte, Bool;
        Scalar "gt", "gt:any_any", Each(&["any", "any"]), Same => Gt, Bool;
        Scalar "gte", "gte:any_any", Each(&["any", "any"]), Same => Gte, Bool;
        Scalar "between", "between:any_any_any", Each(&["any", "any", "any"]), Same => Between, Bool;
        Scalar "is_null", "is_null:any", Each(&["any"]), Same => IsNull, Bool;
        Scalar "is_not_null", "is_not_null:any", Each(&["any"]), Same => IsNotNull, Bool;
        Scalar "is_not_distinct_from", "is_not_distinct_from:any_any", Each(&["any", "any"]), Same => IsNotDistinctFrom, Bool;
        Scalar "coalesce", "coalesce:any", OneOrMore("any"), Equal => Coalesce, Same;
        Scalar "nullif", "nullif:any_any", Each(&["any", "any"]), Equal => Nullif, Same;
    }
    "functions_arithmetic.yaml" {
        Scalar "add", "add:i8_i8", Each(&["i8", "i8"]), Free => Add, Same;
        Scalar "add", "add:i16_i16", Each(&["i16", "i16"]), Free => Add, Same;
        Scalar "add", "add:i32_i32", Each(&["i32", "i32"]), Free => Add, Same;
        Scalar "add", "add:i64_i64", Each(&["i64", "i64"]), Free => Add, Same;
        Scalar "subtract", "subtract:i8_i8", Each(&["i8", "i8"]), Free => Subtract, Same;
        Scalar "subtract", "subtract:i16_i16", Each(&["i16", "i16"]), Free => Subtract, Same;
        Scalar "subtract", "subtract:i32_i32", Each(&["i32", "i32"]), Free => Subtract, Same;
        Scalar "subtract", "subtract:i64_i64", Each(&["i64", "i64"]), Free => Subtract, Same;
        Scalar "multiply", "multiply:i8_i8", Each(&["i8", "i8"]), Free => Multiply, Same;
        Scalar "multiply", "multiply:i16_i16", Each(&["i16", "i16"]), Free => Multiply, Same;
        Scalar "multiply", "multiply:i32_i32", Each(&["i32", "i32"]), Free => Multiply, Same;
        Scalar "multiply", "multiply:i64_i64", Each(&["i64", "i64"]), Free => Multiply, Same;
        Scalar "divide", "divide:i8_i8", Each(&["i8", "i8"]), Free => Divide, Same;
        Scalar "divide", "divide:i16_i16", Each(&["i16", "i16"]), Free => Divide, Same;
        Scalar "divide", "divide:i32_i32", Each(&["i32", "i32"]), Free => Divide, Same;
        Scalar "divide", "divide:i64_i64", Each(&["i64", "i64"]), Free => Divide, Same;
        Scalar "modulus", "modulus:i8_i8", Each(&["i8", "i8"]), Free => Modulus, Same;
        Scalar "modulus", "modulus:i16_i16", Each(&["i16", "i16"]), Free => Modulus, Same;
        Scalar "modulus", "modulus:i32_i32", Each(&["i32", "i32"]), Free => Modulus, Same;
        Scalar "modulus", "modulus:i64_i64", Each(&["i64", "i64"]), Free => Modulus, Same;
        Scalar "negate", "negate:i8", Each(&["i8"]), Free => Negate, Same;
        Scalar "negate", "negate:i16", Each(&["i16"]), Free => Negate, Same;
        Scalar "negate", "negate:i32", Each(&["i32"]), Free => Negate, Same;
        Scalar "negate", "negate:i64", Each(&["i64"]), Free => Negate, Same;
        Scalar "abs", "abs:i8", Each(&["i8"]), Free => Abs, Same;
        Scalar "abs", "abs:i16", Each(&["i16"]), Free => Abs, Same;
        Scalar "abs", "abs:i32", Each(&["i32"]), Free => Abs, Same;
        Scalar "abs", "abs:i64", Each(&["i64"]), Free => Abs, Same;
        Aggregate "sum", "sum:i8", Each(&["i8"]), Free => Sum, I64;
        Aggregate "sum", "sum:i16", Each(&["i16"]), Free => Sum, I64;
        Aggregate "sum", "sum:i32", Each(&["i32"]), Free => Sum, I64;
        Aggregate "sum", "sum:i64", Each(&["i64"]), Free => Sum, I64;
        Aggregate "min", "min:i8", Each(&["i8"]), Free => Min, Same;
        Aggregate "min", "min:i16", Each(&["i16"]), Free => Min, Same;
        Aggregate "min", "min:i32", Each(&["i32"]), Free => Min, Same;
        Aggregate "min", "min:i64", Each(&["i64"]), Free => Min, Same;
        Aggregate "max", "max:i8", Each(&["i8"]), Free => Max, Same;
        Aggregate "max", "max:i16", Each(&["i16"]), Free => Max, Same;
        Aggregate "max", "max:i32", Each(&["i32"]), Free => Max, Same;
        Aggregate "max", "max:i64", Each(&["i64"]), Free => Max, Same;
    }
    "functions_arithmetic_decimal.yaml" {
        Scalar "add", "add:dec_dec", Each(&["dec", "dec"]), Free => Add, DeclaredDecimal;
        Scalar "subtract", "subtract:dec_dec", Each(&["dec", "dec"]), Free => Subtract, DeclaredDecimal;
        Scalar "multiply", "multiply:dec_dec", Each(&["dec", "dec"]), Free => Multiply, DeclaredDecimal;
        Aggregate "sum", "sum:dec", Each(&["dec"]), Free => Sum, DeclaredDecimal;
        Aggregate "avg", "avg:dec", Each(&["dec"]), Free => Avg, DeclaredDecimal;
        Aggregate "min", "min:dec", Each(&["dec"]), Free => Min, Same;
        Aggregate "max", "max:dec", Each(&["dec"]), Free => Max, Same;
    }
    "functions_string.yaml" {
        Scalar "concat", "concat:str", OneOrMore("str"), Free => Concat, Same;
        Scalar "substring", "substring:str_i32", Each(&["str", "i32"]), Free => Substring, Same;
        Scalar "substring", "substring:str_i32_i32", Each(&["str", "i32", "i32"]), Free => Substring, Same;
        Scalar "starts_with", "starts_with:str_str", Each(&["str", "str"]), Free => StartsWith, Bool;
        Scalar "ends_with", "ends_with:str_str", Each(&["str", "str"]), Free => EndsWith, Bool;
        Scalar "contains", "contains:str_str", Each(&["str", "str"]), Free => Contains, Bool;
        Scalar "like", "like:str_str", Each(&["str", "str"]), Free => Like, Bool;
        Scalar "char_length", "char_length:str", Each(&["str"]), Free => CharLength, I64;
        Scalar "octet_length", "octet_length:str", Each(&["str"]), Free => OctetLength, I64;
    }
    "functions_datetime.yaml" {
        Scalar "lt", "lt:date_date", Each(&["date", "date"]), Free => Lt, Bool;
        Scalar "lt", "lt:ts_ts", Each(&["ts", "ts"]), Free => Lt, Bool;
        Scalar "lte", "lte:date_date", Each(&["date", "date"]), Free => Lte, Bool;
        Scalar "lte", "lte:ts_ts", Each(&["ts", "ts"]), Free => Lte, Bool;
        Scalar "gt", "gt:date_date", Each(&["date", "date"]), Free => Gt, Bool;
        Scalar "gt", "gt:ts_ts", Each(&["ts", "ts"]), Free => Gt, Bool;
        Scalar "gte", "gte:date_date", Each(&["date", "date"]), Free => Gte, Bool;
        Scalar "gte", "gte:ts_ts", Each(&["ts", "ts"]), Free => Gte, Bool;
        Aggregate "min", "min:date", Each(&["date"]), Free => Min, Same;
        Aggregate "min", "min:ts", Each(&["ts"]), Free => Min, Same;
        Aggregate "max", "max:date", Each(&["date"]), Free => Max, Same;
        Aggregate "max", "max:ts", Each(&["ts"]), Free => Max, Same;
    }
    "functions_aggregate_generic.yaml" {
        Aggregate "count", "count:", Each(&[]), Free => Count, I64;
        Aggregate "count", "count:any", Each(&["any"]), Free => Count, I64;
    }
};

/// The lines of the table.
pub(crate) fn lines() -> &'static [Line]
    ensures { map entry_seen result.now ≡ table }
{
    &TABLE
}
