// Other calls: some that a row takes, some that none takes, and names that no file has.
use super::{BINARY, BOOL, DATE, DECIMAL, FINE, I8, I16, I32, I64, TEXT, TIMESTAMP, WIDE};
use func_table::Class::{self, Aggregate, Scalar};
use func_table::{find, has_name};
use sub_types::Kind;

const BOOLEAN: &str = "functions_boolean.yaml";

const COMPARISON: &str = "functions_comparison.yaml";

const ARITHMETIC: &str = "functions_arithmetic.yaml";

const DECIMALS: &str = "functions_arithmetic_decimal.yaml";

const STRING: &str = "functions_string.yaml";

const DATETIME: &str = "functions_datetime.yaml";

const GENERIC: &str = "functions_aggregate_generic.yaml";

type Call = (Class, &'static str, &'static str, &'static [Kind]);

static TAKEN: [(Call, &str); 15] = [
    ((Scalar, BOOLEAN, "and", &[]), "and:bool"),
    ((Scalar, BOOLEAN, "and", &[BOOL]), "and:bool"),
    ((Scalar, BOOLEAN, "or", &[BOOL, BOOL, BOOL]), "or:bool"),
    (
        (Scalar, COMPARISON, "equal", &[DECIMAL, WIDE]),
        "equal:any_any",
    ),
    (
        (Scalar, COMPARISON, "is_not_distinct_from", &[WIDE, DECIMAL]),
        "is_not_distinct_from:any_any",
    ),
    (
        (Scalar, COMPARISON, "between", &[DECIMAL, WIDE, DECIMAL]),
        "between:any_any_any",
    ),
    ((Scalar, COMPARISON, "is_null", &[DECIMAL]), "is_null:any"),
    ((Scalar, COMPARISON, "coalesce", &[TEXT]), "coalesce:any"),
    (
        (Scalar, COMPARISON, "coalesce", &[WIDE, WIDE, WIDE]),
        "coalesce:any",
    ),
    (
        (Scalar, DECIMALS, "multiply", &[DECIMAL, FINE]),
        "multiply:dec_dec",
    ),
    ((Scalar, STRING, "concat", &[TEXT]), "concat:str"),
    (
        (Scalar, STRING, "concat", &[TEXT, TEXT, TEXT]),
        "concat:str",
    ),
    ((Aggregate, DECIMALS, "max", &[WIDE]), "max:dec"),
    ((Aggregate, GENERIC, "count", &[BOOL]), "count:any"),
    ((Aggregate, GENERIC, "count", &[DECIMAL]), "count:any"),
];

static NOT_TAKEN: [Call; 45] = [
    // Fewer or more arguments.
    (Scalar, BOOLEAN, "not", &[]),
    (Scalar, BOOLEAN, "not", &[BOOL, BOOL]),
    (Scalar, BOOLEAN, "xor", &[BOOL]),
    (Scalar, COMPARISON, "equal", &[I64]),
    (Scalar, COMPARISON, "equal", &[I64, I64, I64]),
    (Scalar, COMPARISON, "between", &[I64, I64]),
    (Scalar, COMPARISON, "is_null", &[]),
    (Scalar, COMPARISON, "coalesce", &[]),
    (Scalar, ARITHMETIC, "add", &[I64]),
    (Scalar, ARITHMETIC, "add", &[I64, I64, I64]),
    (Scalar, STRING, "concat", &[]),
    (Scalar, STRING, "substring", &[TEXT]),
    (Scalar, STRING, "substring", &[TEXT, I32, I32, I32]),
    (Aggregate, ARITHMETIC, "sum", &[]),
    (Aggregate, ARITHMETIC, "sum", &[I64, I64]),
    (Aggregate, GENERIC, "count", &[I64, I64]),
    // Other kinds.
    (Scalar, BOOLEAN, "and", &[BOOL, I8]),
    (Scalar, BOOLEAN, "or", &[TEXT]),
    (Scalar, ARITHMETIC, "add", &[I8, I16]),
    (Scalar, ARITHMETIC, "add", &[TEXT, TEXT]),
    (Scalar, ARITHMETIC, "negate", &[BOOL]),
    (Scalar, DECIMALS, "add", &[DECIMAL, I64]),
    (Scalar, STRING, "concat", &[TEXT, BINARY]),
    (Scalar, STRING, "substring", &[TEXT, I64]),
    (Scalar, STRING, "like", &[TEXT, BINARY]),
    (Scalar, STRING, "octet_length", &[BINARY]),
    (Scalar, DATETIME, "lt", &[DATE, TIMESTAMP]),
    (Aggregate, ARITHMETIC, "min", &[TEXT]),
    (Aggregate, DECIMALS, "avg", &[I64]),
    // Kinds that have to be the same or equal, and are not.
    (Scalar, COMPARISON, "equal", &[I32, I64]),
    (Scalar, COMPARISON, "lt", &[DECIMAL, FINE]),
    (Scalar, COMPARISON, "between", &[DECIMAL, WIDE, FINE]),
    (Scalar, COMPARISON, "between", &[I64, I64, I32]),
    (Scalar, COMPARISON, "coalesce", &[DECIMAL, WIDE]),
    (Scalar, COMPARISON, "coalesce", &[DATE, DATE, TIMESTAMP]),
    (Scalar, COMPARISON, "nullif", &[DECIMAL, WIDE]),
    (Scalar, COMPARISON, "nullif", &[TEXT, BINARY]),
    // A function of another file.
    (Scalar, ARITHMETIC, "add", &[DECIMAL, DECIMAL]),
    (Scalar, DECIMALS, "add", &[I64, I64]),
    (Scalar, COMPARISON, "add", &[I64, I64]),
    (Scalar, DATETIME, "lt", &[I64, I64]),
    (Scalar, DATETIME, "equal", &[DATE, DATE]),
    (Aggregate, ARITHMETIC, "avg", &[I64]),
    (Aggregate, DATETIME, "min", &[I64]),
    (Aggregate, ARITHMETIC, "count", &[I64]),
];

static UNKNOWN: [(Class, &str, &str); 11] = [
    (Scalar, "", "add"),
    (Scalar, "functions_arithmetic", "add"),
    (Scalar, "/functions_arithmetic.yaml", "add"),
    (Scalar, "functions_rounding.yaml", "ceil"),
    (Scalar, ARITHMETIC, ""),
    (Scalar, ARITHMETIC, "ADD"),
    (Scalar, ARITHMETIC, "add:i64_i64"),
    (Scalar, ARITHMETIC, "power"),
    (Aggregate, ARITHMETIC, "avg"),
    (Scalar, DECIMALS, "divide"),
    (Scalar, DATETIME, "equal"),
];

// Each in a function of its own, since a proof of a function that names a list goes through all of it.
fn taken() -> &'static [(Call, &'static str)] {
    &TAKEN
}

fn not_taken() -> &'static [Call] {
    &NOT_TAKEN
}

fn key_of(call: &Call) -> Option<&'static str> {
    let (class, file, name, kinds) = *call;
    let row = find(file, name, kinds, class)?;
    Some(row.key)
}

fn is_taken(call: &Call, key: &str) -> bool {
    match key_of(call) {
        Some(found) => found == key,
        None => false,
    }
}

// The first of these calls that the row of the key doesn't take, if there is one.
fn first_not_taken(calls: &[(Call, &str)]) -> Option<usize> {
    for (i, (call, key)) in calls.iter().enumerate() {
        if !is_taken(call, key) {
            return Some(i);
        }
    }
    None
}

// The first of these calls that a row takes, if there is one.
fn first_taken(calls: &[Call]) -> Option<usize> {
    for (i, call) in calls.iter().enumerate() {
        if key_of(call).is_some() {
            return Some(i);
        }
    }
    None
}

// The first of the calls that aren't as they are to be, in each list.
fn first_wrong() -> (Option<usize>, Option<usize>) {
    (first_not_taken(taken()), first_taken(not_taken()))
}

#[test]
fn calls_of_other_lengths_and_kinds(rt: HostRuntime) {
    assert_eq!(rt; first_wrong(), (None, None));
}

fn is_known(class: Class, file: &str, name: &str) -> bool {
    has_name(file, name, class) || find(file, name, &[I64, I64], class).is_some()
}

// The first of these names that a file has, if there is one.
fn first_known(names: &[(Class, &str, &str)]) -> Option<usize> {
    for (i, (class, file, name)) in names.iter().enumerate() {
        if is_known(*class, file, name) {
            return Some(i);
        }
    }
    None
}

#[test]
fn names_that_no_file_has(rt: HostRuntime) {
    assert_eq!(rt; first_known(&UNKNOWN), None);
}
