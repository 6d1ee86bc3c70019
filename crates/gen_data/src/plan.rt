// The demo's plan as it is written (Substrait's plan.proto and algebra.proto).
ghost use Rattle.std.specs.Prelude.{◌≡◌, [], ◌∷◌, true, Some, IfOk};
ghost use Rattle.plan_spell.specs.Spelled.{spelled};
ghost use Rattle.gen_data.specs.Plan as spec;
ghost use Rattle.gen_data.specs.Plan.{demo_tree};

use plan_leaves::{
    Boxed, FunDecl, Items, NamedStruct, NamedTable, RawType, ReferenceSegment, StructField,
    StructType, UriDecl, zip,
};
use plan_raw::{
    AggregateFunction, FunctionArgument, Grouping, Measure, PlanTree, RawExpr, RawRel, RawSource,
    RootDecl, SortField,
};
use spell_tree::spell;
use std::alloc::Global;
use sub_types::{ByteList, NoMemory};

const NULLABLE: u32 = 1;

const REQUIRED: u32 = 2;

/// The bytes of the plan.
pub(crate) fn plan_bytes(alloc: Global) -> Result<Vec<u8>, NoMemory>
    ensures { IfOk result (λ bytes. bytes.items ≡ spelled demo_tree) }
{
    let tree = plan(alloc)?;
    spell(alloc, &tree)
}

#[tactic(auto, unfolding(crate::specs::Plan::demo_tree))]
fn plan(alloc: Global) -> Result<PlanTree, NoMemory>
    ensures { IfOk result (λ tree. tree ≡ demo_tree) }
{
    let (declared, roots) = zip(zip(uris(alloc), functions(alloc)), roots(alloc))?;
    let (uris, functions) = declared;
    Ok(PlanTree {
        uris,
        functions,
        roots,
    })
}

fn uris(alloc: Global) -> Result<Items<UriDecl>, NoMemory>
    ensures { IfOk result (λ uris. uris ≡ spec.uris) }
{
    let mut uris = Items::new(alloc);
    uris.push(uri(
        alloc,
        1,
        "https://github.com/substrait-io/substrait/blob/main/extensions/functions_comparison.yaml",
    )?)?;
    uris.push(uri(
        alloc,
        2,
        "https://github.com/substrait-io/substrait/blob/main/extensions/functions_arithmetic.yaml",
    )?)?;
    uris.push(uri(
        alloc,
        3,
        "https://github.com/substrait-io/substrait/blob/main/extensions/functions_aggregate_generic.yaml",
    )?)?;
    Ok(uris)
}

fn uri(alloc: Global, anchor: u32, address: &str) -> Result<UriDecl, NoMemory>
    ensures { IfOk result (λ uri. uri ≡ record { anchor = anchor; uri = address.now }) }
{
    Ok(UriDecl {
        anchor,
        uri: text(alloc, address)?,
    })
}

fn functions(alloc: Global) -> Result<Items<FunDecl>, NoMemory>
    ensures { IfOk result (λ functions. functions ≡ spec.functions) }
{
    let mut functions = Items::new(alloc);
    functions.push(function(alloc, 1, "equal:any_any")?)?;
    functions.push(function(alloc, 2, "sum:i64")?)?;
    functions.push(function(alloc, 3, "count:any")?)?;
    Ok(functions)
}

// A function of the file with its own number.
fn function(alloc: Global, anchor: u32, name: &str) -> Result<FunDecl, NoMemory>
    ensures { IfOk result (λ function. function ≡ record { uri = anchor; anchor = anchor; name = name.now }) }
{
    Ok(FunDecl {
        uri: anchor,
        anchor,
        name: text(alloc, name)?,
    })
}

fn roots(alloc: Global) -> Result<Items<RootDecl>, NoMemory>
    ensures { IfOk result (λ roots. roots ≡ record { is_root = true; input = Some spec.ordered_regions; names = spec.result_names } ∷ []) }
{
    let (input, names) = zip(ordered_regions(alloc), result_names(alloc))?;
    one(
        alloc,
        RootDecl {
            is_root: true,
            input: Some(input),
            names,
        },
    )
}

/// The names of the columns of the lines.
pub(crate) fn line_names(alloc: Global) -> Result<Items<ByteList>, NoMemory>
    ensures { IfOk result (λ names. names ≡ spec.line_names) }
{
    two_texts(alloc, "oid", "qty")
}

/// The names of the columns of the orders.
pub(crate) fn order_names(alloc: Global) -> Result<Items<ByteList>, NoMemory>
    ensures { IfOk result (λ names. names ≡ spec.order_names) }
{
    two_texts(alloc, "id", "region")
}

fn result_names(alloc: Global) -> Result<Items<ByteList>, NoMemory>
    ensures { IfOk result (λ names. names ≡ spec.result_names) }
{
    let mut names = two_texts(alloc, "region", "sum")?;
    names.push(text(alloc, "count")?)?;
    Ok(names)
}

fn ordered_regions(alloc: Global) -> Result<Boxed<RawRel>, NoMemory>
    ensures { IfOk result (λ rel. rel ≡ spec.ordered_regions) }
{
    let (input, sorts) = zip(regions(alloc), sorts(alloc))?;
    Boxed::new(
        alloc,
        RawRel::Sort {
            common: None,
            input: Some(input),
            sorts,
        },
    )
}

// By the region, ascending and with nulls first.
fn sorts(alloc: Global) -> Result<Items<SortField>, NoMemory>
    ensures { IfOk result (λ sorts. sorts ≡ spec.sorts) }
{
    one(
        alloc,
        SortField {
            expr: Some(column(0)),
            direction: 1,
        },
    )
}

fn regions(alloc: Global) -> Result<Boxed<RawRel>, NoMemory>
    ensures { IfOk result (λ rel. rel ≡ spec.regions) }
{
    let (input, parts) = zip(ordered_lines(alloc), zip(groupings(alloc), measures(alloc)))?;
    let (groupings, measures) = parts;
    Boxed::new(
        alloc,
        RawRel::Aggregate {
            common: None,
            input: Some(input),
            groupings,
            measures,
            grouping_expressions: Items::new(alloc),
        },
    )
}

fn groupings(alloc: Global) -> Result<Items<Grouping>, NoMemory>
    ensures { IfOk result (λ groupings. groupings ≡ spec.groupings) }
{
    let grouping_expressions = one(alloc, column(3))?;
    one(
        alloc,
        Grouping {
            grouping_expressions,
            expression_references: Items::new(alloc),
        },
    )
}

fn measures(alloc: Global) -> Result<Items<Measure>, NoMemory>
    ensures { IfOk result (λ measures. measures ≡ spec.measures) }
{
    let sum = RawType::I64 {
        nullability: NULLABLE,
    };
    let count = RawType::I64 {
        nullability: REQUIRED,
    };
    let (first, second) = zip(measure(alloc, 2, sum), measure(alloc, 3, count))?;
    two(alloc, first, second)
}

// A measure of the quantities.
fn measure(alloc: Global, function: u32, ty: RawType) -> Result<Measure, NoMemory>
    ensures { IfOk result (λ measure. measure ≡ spec.measure_of function ty) }
{
    let (arguments, output_type) = zip(one(alloc, FunctionArgument::Value(column(1))), Ok(ty))?;
    Ok(Measure {
        measure: Some(AggregateFunction {
            function_reference: function,
            sorts: Items::new(alloc),
            phase: 3,
            output_type: Some(output_type),
            invocation: 1,
            arguments,
            options: Items::new(alloc),
        }),
        filter: None,
    })
}

fn ordered_lines(alloc: Global) -> Result<Boxed<RawRel>, NoMemory>
    ensures { IfOk result (λ rel. rel ≡ spec.ordered_lines) }
{
    let (inputs, expression) = zip(zip(lines(alloc), orders(alloc)), is_of_order(alloc))?;
    let (left, right) = inputs;
    Boxed::new(
        alloc,
        RawRel::Join {
            common: None,
            left: Some(left),
            right: Some(right),
            expression: Some(expression),
            post_join_filter: None,
            type_: 1,
        },
    )
}

// A line is of an order where it has its number.
fn is_of_order(alloc: Global) -> Result<Boxed<RawExpr>, NoMemory>
    ensures { IfOk result (λ expr. expr ≡ spec.is_of_order) }
{
    let arguments = two(
        alloc,
        FunctionArgument::Value(column(0)),
        FunctionArgument::Value(column(2)),
    )?;
    Boxed::new(
        alloc,
        RawExpr::ScalarFunction {
            function_reference: 1,
            output_type: Some(RawType::Bool {
                nullability: NULLABLE,
            }),
            arguments,
            options: Items::new(alloc),
        },
    )
}

fn lines(alloc: Global) -> Result<Boxed<RawRel>, NoMemory>
    ensures { IfOk result (λ rel. rel ≡ spec.lines) }
{
    let (names, types) = zip(line_names(alloc), two(alloc, whole_type(), whole_type()))?;
    table(alloc, "lines", names, types)
}

fn orders(alloc: Global) -> Result<Boxed<RawRel>, NoMemory>
    ensures { IfOk result (λ rel. rel ≡ spec.orders) }
{
    let (names, types) = zip(order_names(alloc), two(alloc, whole_type(), text_type()))?;
    table(alloc, "orders", names, types)
}

// A table by its name, and its columns.
fn table(
    alloc: Global,
    name: &str,
    names: Items<ByteList>,
    types: Items<RawType>,
) -> Result<Boxed<RawRel>, NoMemory>
    ensures { IfOk result (λ rel. rel ≡ spec.table name.now names types) }
{
    let (schema, named) = zip(Ok(schema(names, types)), named_table(alloc, name))?;
    Boxed::new(
        alloc,
        RawRel::Read {
            common: None,
            base_schema: Some(schema),
            filter: None,
            projection: None,
            source: RawSource::NamedTable(named),
            best_effort_filter: None,
        },
    )
}

fn schema(names: Items<ByteList>, types: Items<RawType>) -> NamedStruct
    ensures { result ≡ record { names = names; struct_ = Some (record { types = types }) } }
{
    NamedStruct {
        names,
        struct_: Some(StructType { types }),
    }
}

fn named_table(alloc: Global, name: &str) -> Result<NamedTable, NoMemory>
    ensures { IfOk result (λ table. table ≡ record { names = name.now ∷ [] }) }
{
    let name = text(alloc, name)?;
    Ok(NamedTable {
        names: one(alloc, name)?,
    })
}

fn whole_type() -> RawType
    ensures { result ≡ spec.whole_type }
{
    RawType::I64 {
        nullability: NULLABLE,
    }
}

fn text_type() -> RawType
    ensures { result ≡ spec.text_type }
{
    RawType::String {
        nullability: NULLABLE,
    }
}

// A column of the input.
fn column(place: u8) -> RawExpr
    ensures { result ≡ spec.column place }
{
    RawExpr::Selection {
        direct_reference: Some(ReferenceSegment {
            struct_field: Some(StructField {
                field: i32::from(place),
                child: false,
            }),
        }),
        root_reference: true,
        other: false,
    }
}

fn text(alloc: Global, text: &str) -> Result<ByteList, NoMemory>
    ensures { IfOk result (λ list. list ≡ text.now) }
{
    ByteList::of(alloc, text.as_bytes())
}

fn two_texts(alloc: Global, first: &str, second: &str) -> Result<Items<ByteList>, NoMemory>
    ensures { IfOk result (λ list. list ≡ first.now ∷ second.now ∷ []) }
{
    let (first, second) = zip(text(alloc, first), text(alloc, second))?;
    two(alloc, first, second)
}

// A list of one.
fn one<T: Drop>(alloc: Global, item: T) -> Result<Items<T>, NoMemory>
    ensures { IfOk result (λ items. items ≡ item ∷ []) }
{
    let mut items = Items::new(alloc);
    items.push(item)?;
    Ok(items)
}

// A list of two.
fn two<T: Drop>(alloc: Global, first: T, second: T) -> Result<Items<T>, NoMemory>
    ensures { IfOk result (λ items. items ≡ first ∷ second ∷ []) }
{
    let mut items = one(alloc, first)?;
    items.push(second)?;
    Ok(items)
}
