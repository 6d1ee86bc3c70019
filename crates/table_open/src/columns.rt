// The columns of a file that a table wants.
ghost use Rattle.std.specs.Prelude.{◌≡◌, ◌≢◌, ◌^◌, ◌<◌, Err, IfErr, length, position};
ghost use Rattle.table_open.specs.Answers.{FitsFile, IsFileError};
ghost use Rattle.table_open.specs.Columns as spec;

use crate::error::{FileError, FileRule};
use arrow_meta::{FieldMeta, Shape};
use std::alloc::Global;
use sub_types::{ByteList, Kind, Ty};

/// The columns of a table, by the plan: their names and types, and the relation that reads them.
#[derive(Clone, Copy, Debug)]
pub(crate) struct TableColumns<'a> {
    pub(crate) relation: u32,
    pub(crate) names: &'a [ByteList],
    pub(crate) types: &'a [Ty],
}

/// The places of the table's columns among the fields of a file.
pub(crate) fn places_of(
    alloc: Global,
    fields: &[FieldMeta],
    table: TableColumns<'_>,
) -> Result<Vec<u32>, FileError>
    requires same { length table.names.now ≡ length table.types.now }
    requires few { length table.names.now < 2 ^ 32 }
    ensures places { FitsFile (λ places. places.items) result (spec.match_columns table.entry.relation fields.now table.entry.names.now table.entry.types.now) }
    ensures error { IfErr result (IsFileError table.entry.relation) }
    ensures read { result ≢ Err FileError.ReadFault }
{
    let mut places = Vec::new(alloc);
    for i in 0..table.names.len() {
        places.push(place_of(
            fields,
            table.relation,
            i as u32,
            table.names[i].bytes(),
            table.types[i].kind,
        )?)?;
    }
    Ok(places)
}

// The place of the first field of the name, which must have the kind.
fn place_of(
    fields: &[FieldMeta],
    relation: u32,
    column: u32,
    name: &[u8],
    kind: Kind,
) -> Result<u32, FileError>
    ensures place { FitsFile (λ place. place) result (spec.match_column relation column fields.now name.now kind) }
    ensures error { IfErr result (IsFileError relation) }
    ensures read { result ≢ Err FileError.ReadFault }
{
    let Some(place) = first_named(fields, name) else {
        return Err(FileError::Refused(FileRule::NoColumn { relation, column }));
    };
    if !has_kind(fields[place].shape, kind) {
        return Err(FileError::Refused(FileRule::WrongType { relation, column }));
    }
    // A file of so many columns doesn't lie in any memory.
    u32::try_from(place).map_err(|_| FileError::NoMemory)
}

// The place of the first field of the name.
fn first_named(fields: &[FieldMeta], name: &[u8]) -> Option<usize>
    ensures { result ≡ position (spec.is_named name.now) fields.now }
{
    fields.iter().position(|field| field.name.bytes() == name)
}

// Whether a column of the shape can be read as values of the kind.
fn has_kind(shape: Shape, kind: Kind) -> bool
    ensures { result ≡ spec.has_kind kind shape }
{
    match shape {
        Shape::Known { kind: known, .. } => is_kind(known, kind),
        Shape::Skip { .. } => false,
    }
}

// Whether the kinds are equal, with precision and scale.
fn is_kind(known: Kind, kind: Kind) -> bool
    ensures { result ≡ spec.is_kind known kind }
{
    known == kind
}
