// The columns of relations: a read's schema and projection, and what a relation emits (Substrait `NamedStruct`,
// `MaskExpression` and `RelCommon`).
ghost use Rattle.std.specs.Prelude.{◌≡◌, IfOk, map, slice_get};
ghost use Rattle.std.specs.List.{range_with_len};
ghost use Rattle.std.specs.Option.{ok_or};
ghost use Rattle.sub_types.specs.ResultSteps.{collect};
ghost use Rattle.plan_verdict.specs.Checking.{Agrees};
ghost use Rattle.plan_verdict.specs.Columns as spec;
ghost use Rattle.plan_verdict.specs.Types as spec_types;
ghost use Rattle.plan_verdict.specs.declared.rule.Rule.TheVariants as rules;

use crate::types::type_in;
use plan_leaves::{
    CopyIn, Items, MaskExpression, MaskItem, NamedStruct, RawType, RelCommon, StructType,
};
use plan_typed::{Op, Rel};
use plan_verdict::{CheckError, Rule};
use std::alloc::{AllocError, Global};
use sub_types::{ByteList, NoMemory, Ty};

const MAX_COLUMNS: usize = 1024;

/// The names and types of a table's columns.
pub fn schema_in(
    alloc: Global,
    relation: u32,
    schema: &Option<NamedStruct>,
) -> Result<(Items<ByteList>, Items<Ty>), CheckError>
    ensures { Agrees result relation (spec.schema_in schema.now) }
{
    let Some(named) = schema else {
        return Err(CheckError::Refused {
            relation,
            rule: Rule::MissingField,
        });
    };
    let Some(types) = &named.struct_ else {
        return Err(CheckError::Refused {
            relation,
            rule: Rule::MissingField,
        });
    };
    let types = types_in(alloc, relation, named.names.as_slice(), types)?;
    let names = named.names.copy_in(alloc)?;
    Ok((names, types))
}

// The types of a struct with as many names.
fn types_in(
    alloc: Global,
    relation: u32,
    names: &[ByteList],
    struct_: &StructType,
) -> Result<Items<Ty>, CheckError>
    ensures { Agrees result relation (spec.types_in names.now struct_.now) }
{
    if names.len() != struct_.types.len() {
        return Err(CheckError::Refused {
            relation,
            rule: Rule::BadNames,
        });
    }
    each_type(alloc, relation, struct_.types.as_slice())
}

fn each_type(alloc: Global, relation: u32, raw: &[RawType]) -> Result<Items<Ty>, CheckError>
    ensures { Agrees result relation (collect (map spec_types.type_in raw.now)) }
{
    let mut types = Items::new(alloc);
    for one in raw {
        types.push(type_in(relation, one)?)?;
    }
    Ok(types)
}

/// The places of the columns that are read, of `count` columns: the projection's in its order, or all.
pub fn mask_in(
    alloc: Global,
    relation: u32,
    count: usize,
    projection: &Option<MaskExpression>,
) -> Result<Items<u32>, CheckError>
    ensures { Agrees result relation (spec.mask_in count projection.now) }
{
    let Some(mask) = projection else {
        return Ok(all_places(alloc, count)?);
    };
    match &mask.select {
        None => Ok(Items::new(alloc)),
        Some(select) => each_item(alloc, relation, count, select.struct_items.as_slice()),
    }
}

fn each_item(
    alloc: Global,
    relation: u32,
    count: usize,
    items: &[MaskItem],
) -> Result<Items<u32>, CheckError>
    ensures { Agrees result relation (collect (map (spec.mask_item count) items.now)) }
{
    let mut places = Items::new(alloc);
    for item in items {
        places.push(mask_item(relation, count, item)?)?;
    }
    Ok(places)
}

// The place of a column, and nothing of what is inside it.
fn mask_item(relation: u32, count: usize, item: &MaskItem) -> Result<u32, CheckError>
    ensures { Agrees result relation (spec.mask_item count item.now) }
{
    if item.child {
        return Err(CheckError::Refused {
            relation,
            rule: Rule::UnsupportedForm,
        });
    }
    let Some(place) = place_in(count, item.field) else {
        return Err(CheckError::Refused {
            relation,
            rule: Rule::BadReference,
        });
    };
    Ok(place)
}

fn place_in(count: usize, field: i32) -> Option<u32>
    ensures { result ≡ spec.place_in count field }
{
    if field < 0 || field as usize >= count {
        return None;
    }
    Some(field as u32)
}

fn all_places(alloc: Global, count: usize) -> Result<Items<u32>, NoMemory>
    ensures { IfOk result (λ places. places ≡ range_with_len 0 count) }
{
    // No memory holds more.
    let Ok(count) = u32::try_from(count) else {
        return Err(NoMemory);
    };
    let mut places = Items::new(alloc);
    for place in 0..count {
        places.push(place)?;
    }
    Ok(places)
}

/// A relation with this number whose direct output has these columns: what it emits of them.
pub fn finished_in(
    alloc: Global,
    number: u32,
    common: &Option<RelCommon>,
    op: Op,
    direct: &[Ty],
) -> Result<Rel, CheckError>
    ensures { Agrees result number (spec.finished_in number common.now op direct.now) }
{
    let emit = emitted(alloc, number, common, direct)?;
    let columns = columns_at(alloc, direct, emit.as_slice())?;
    Ok(Rel {
        number,
        op,
        emit,
        columns,
    })
}

// The places of what is emitted of these columns, which aren't too many.
fn emitted(
    alloc: Global,
    relation: u32,
    common: &Option<RelCommon>,
    direct: &[Ty],
) -> Result<Items<u32>, CheckError>
    ensures { Agrees result relation (spec.emitted common.now direct.now) }
{
    if direct.len() > MAX_COLUMNS {
        return Err(CheckError::Refused {
            relation,
            rule: Rule::TooMany,
        });
    }
    match common {
        Some(RelCommon::Emit { output_mapping }) => {
            places_in(alloc, relation, direct.len(), output_mapping.as_slice())
        }
        _ => Ok(all_places(alloc, direct.len())?),
    }
}

// The places of an emit mapping, of `count` columns.
fn places_in(
    alloc: Global,
    relation: u32,
    count: usize,
    mapping: &[i32],
) -> Result<Items<u32>, CheckError>
    ensures { Agrees result relation (spec.places_in count mapping.now) }
{
    let places = each_place(alloc, relation, count, mapping)?;
    if mapping.len() > MAX_COLUMNS {
        return Err(CheckError::Refused {
            relation,
            rule: Rule::TooMany,
        });
    }
    Ok(places)
}

fn each_place(
    alloc: Global,
    relation: u32,
    count: usize,
    mapping: &[i32],
) -> Result<Items<u32>, CheckError>
    ensures { Agrees result relation (collect (map (λ field. ok_or (spec.place_in count field) rules.BadMapping) mapping.now)) }
{
    let mut places = Items::new(alloc);
    for field in mapping {
        places.push(mapped_place(relation, count, field)?)?;
    }
    Ok(places)
}

fn mapped_place(relation: u32, count: usize, field: &i32) -> Result<u32, CheckError>
    ensures { Agrees result relation (ok_or (spec.place_in count field.now) rules.BadMapping) }
{
    let Some(place) = place_in(count, *field) else {
        return Err(CheckError::Refused {
            relation,
            rule: Rule::BadMapping,
        });
    };
    Ok(place)
}

/// The columns at these places.
pub fn columns_at(alloc: Global, columns: &[Ty], places: &[u32]) -> Result<Items<Ty>, NoMemory>
    ensures { IfOk result (λ found. found ≡ spec.columns_at columns.now places.now) }
{
    Ok(Items::from_vec(found_at(alloc, columns, places)?))
}

fn found_at(alloc: Global, columns: &[Ty], places: &[u32]) -> Result<Vec<Ty>, AllocError>
    ensures { IfOk result (λ found. found.items ≡ spec.columns_at columns.now places.now) }
{
    places
        .iter()
        .filter_map(|place| column_at(columns, *place))
        .collect(alloc)
}

fn column_at(columns: &[Ty], place: u32) -> Option<Ty>
    ensures { result ≡ slice_get columns.now place }
{
    columns.get(place as usize).copied()
}
