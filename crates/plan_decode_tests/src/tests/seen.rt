// What a test sees of a tree.
use plan_leaves::{Items, RawLiteral, RelCommon};
use plan_raw::{PlanTree, RawExpr, RawRel, RawSource};
use sub_types::ByteList;

/// What a tree shows.
#[derive(Clone, Copy)]
pub(super) enum Seen {
    /// No declaration and no root.
    Nothing,
    /// The function `add` of the file `f` is declared, and nothing else.
    Add,
    /// The root's input is a relation with the unknown member 17.
    Member17,
    /// The root's input is a read of a column `b` and of nothing else.
    ReadOfB,
    /// The root's input is a read that emits 5, 1, 2 and -1.
    Emit,
    /// The condition of the root's filter is true, and nullable.
    NullableTrue,
    /// It is false, and nullable.
    NullableFalse,
    /// It is the text `hé`.
    Text,
    /// It is EXISTS over a read.
    Exists,
}

/// Whether the tree shows this.
pub(super) fn shows(tree: &PlanTree, seen: Seen) -> bool {
    match seen {
        Seen::Nothing => is_bare(tree) && tree.roots.is_empty(),
        Seen::Add => declares_add(tree),
        _ => match input(tree) {
            Some(rel) => is_seen(rel, seen),
            None => false,
        },
    }
}

fn is_bare(tree: &PlanTree) -> bool {
    tree.uris.is_empty() && tree.functions.is_empty()
}

fn declares_add(tree: &PlanTree) -> bool {
    let file = match tree.uris.as_slice() {
        [uri] => uri.anchor == 7 && uri.uri.bytes() == b"f".as_slice(),
        _ => false,
    };
    let function = match tree.functions.as_slice() {
        [function] => function.uri == 7
            && function.anchor == 9
            && function.name.bytes() == b"add".as_slice(),
        _ => false,
    };
    file && function && tree.roots.is_empty()
}

// The root's input, where the plan is one root.
fn input(tree: &PlanTree) -> Option<&RawRel> {
    match tree.roots.as_slice() {
        [root] if root.is_root => match &root.input {
            Some(rel) => Some(rel.get()),
            None => None,
        },
        _ => None,
    }
}

// Whether the relation is the one that is seen.
fn is_seen(rel: &RawRel, seen: Seen) -> bool {
    match rel {
        RawRel::Unknown { number } => match seen {
            Seen::Member17 => *number == 17,
            _ => false,
        },
        RawRel::Read {
            common,
            base_schema,
            source: RawSource::Missing,
            ..
        } => match (seen, common, base_schema) {
            (Seen::ReadOfB, None, Some(schema)) => is_b(&schema.names),
            (Seen::Emit, Some(common), None) => emits(common),
            _ => false,
        },
        RawRel::Filter {
            condition: Some(condition),
            ..
        } => is_condition(condition.get(), seen),
        _ => false,
    }
}

fn is_b(names: &Items<ByteList>) -> bool {
    match names.as_slice() {
        [name] => name.bytes() == b"b".as_slice(),
        _ => false,
    }
}

fn emits(common: &RelCommon) -> bool {
    match common {
        RelCommon::Emit { output_mapping } => output_mapping.as_slice() == [5, 1, 2, -1].as_slice(),
        _ => false,
    }
}

// Whether the condition is the one that is seen.
fn is_condition(condition: &RawExpr, seen: Seen) -> bool {
    match condition {
        RawExpr::Literal(RawLiteral::Boolean { value, nullable }) => match seen {
            Seen::NullableTrue => *value && *nullable,
            Seen::NullableFalse => !*value && *nullable,
            _ => false,
        },
        RawExpr::Literal(RawLiteral::String { value, .. }) => match seen {
            Seen::Text => value.text() == "hé",
            _ => false,
        },
        RawExpr::SetPredicate {
            predicate_op,
            tuples: Some(tuples),
        } => match (seen, tuples.get()) {
            (Seen::Exists, RawRel::Read { .. }) => *predicate_op == 1,
            _ => false,
        },
        _ => false,
    }
}
