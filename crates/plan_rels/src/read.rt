// Read relations (Substrait `ReadRel`).
ghost use Rattle.std.specs.Prelude.{◌≡◌, IfOk};
ghost use Rattle.pb_wire.specs.Payloads.{fields_of};
ghost use Rattle.plan_scan.specs.Table.{HoldsMessage};
ghost use Rattle.plan_parts.specs.Shapes.{children};
ghost use Rattle.plan_parts.specs.Rels.{expression_row_by, virtual_table_by, source_by, source_member, read_by};
ghost use Rattle.plan_parts.specs.CanRead.{CanRead};
ghost use Rattle.plan_parts.specs.Reader.{reader};

use plan_leaves::{Items, zip};
use plan_parts::{
    Deeper, boxed_expr_at, common_at, exprs_at, literal_rows_at, local_files, mask_at,
    named_struct_at, named_table,
};
use plan_raw::{ExprRow, RawRel, RawSource, VirtualTable};
use plan_scan::{Message, OneOf, Shape, field};
use std::alloc::Global;
use sub_types::NoMemory;

/// A `ReadRel`.
pub(crate) fn read<D: Deeper>(
    alloc: Global,
    deeper: &D,
    message: &Message<'_>,
) -> Result<RawRel, NoMemory>
    requires shape { message.now.shape ≡ Shape.ReadRel }
    requires deeper { CanRead D.Deeper deeper.now message.now.below }
    ensures { IfOk result (λ rel. rel ≡ read_by (reader message.now.below) (fields_of message.now.bytes)) }
{
    let filters = zip(
        boxed_expr_at(alloc, deeper, message, field::read_rel::FILTER),
        boxed_expr_at(alloc, deeper, message, field::read_rel::BEST_EFFORT_FILTER),
    );
    let columns = zip(
        named_struct_at(alloc, message, field::read_rel::BASE_SCHEMA),
        mask_at(alloc, message, field::read_rel::PROJECTION),
    );
    let ((common, source), (columns, filters)) = zip(
        zip(common_at(alloc, message), source(alloc, deeper, message)),
        zip(columns, filters),
    )?;
    let (base_schema, projection) = columns;
    let (filter, best_effort_filter) = filters;
    Ok(RawRel::Read {
        common,
        base_schema,
        filter,
        projection,
        source,
        best_effort_filter,
    })
}

fn source<D: Deeper>(
    alloc: Global,
    deeper: &D,
    message: &Message<'_>,
) -> Result<RawSource, NoMemory>
    requires shape { message.now.shape ≡ Shape.ReadRel }
    requires deeper { CanRead D.Deeper deeper.now message.now.below }
    ensures { IfOk result (λ source. source ≡ source_by (reader message.now.below) (fields_of message.now.bytes)) }
{
    match message.oneof(OneOf::ReadType) {
        None => Ok(RawSource::Missing),
        Some((number, won)) => source_in(alloc, deeper, number, &won),
    }
}

fn source_in<D: Deeper>(
    alloc: Global,
    deeper: &D,
    number: u32,
    won: &Message<'_>,
) -> Result<RawSource, NoMemory>
    requires shape { won.now.shape ≡ Shape.ReadRel }
    requires deeper { CanRead D.Deeper deeper.now won.now.below }
    ensures { IfOk result (λ source. source ≡ source_member (reader won.now.below) number (fields_of won.now.bytes)) }
{
    match number {
        field::read_rel::VIRTUAL_TABLE => match won.merged(
            alloc,
            field::read_rel::VIRTUAL_TABLE,
            Shape::VirtualTable,
        )? {
            None => Ok(RawSource::Missing),
            Some(found) => Ok(RawSource::VirtualTable(virtual_table(
                alloc,
                deeper,
                &found.message(),
            )?)),
        },
        field::read_rel::LOCAL_FILES => match won.merged(
            alloc,
            field::read_rel::LOCAL_FILES,
            Shape::LocalFiles,
        )? {
            None => Ok(RawSource::Missing),
            Some(found) => Ok(RawSource::LocalFiles(local_files(alloc, &found.message())?)),
        },
        _ => match won.merged(alloc, field::read_rel::NAMED_TABLE, Shape::NamedTable)? {
            None => Ok(RawSource::Missing),
            Some(found) => Ok(RawSource::NamedTable(named_table(alloc, &found.message())?)),
        },
    }
}

fn virtual_table<D: Deeper>(
    alloc: Global,
    deeper: &D,
    message: &Message<'_>,
) -> Result<VirtualTable, NoMemory>
    requires shape { message.now.shape ≡ Shape.VirtualTable }
    requires deeper { CanRead D.Deeper deeper.now message.now.below }
    ensures { IfOk result (λ table. table ≡ virtual_table_by (reader message.now.below) (fields_of message.now.bytes)) }
{
    let (values, expressions) = zip(
        literal_rows_at(alloc, message, field::virtual_table::VALUES),
        rows_at(alloc, deeper, message, field::virtual_table::EXPRESSIONS),
    )?;
    Ok(VirtualTable {
        values,
        expressions,
    })
}

fn rows_at<D: Deeper>(
    alloc: Global,
    deeper: &D,
    message: &Message<'_>,
    number: u32,
) -> Result<Items<ExprRow>, NoMemory>
    requires shape { HoldsMessage message.now.shape number Shape.ExpressionRow }
    requires deeper { CanRead D.Deeper deeper.now message.now.below }
    ensures { IfOk result (λ rows. rows ≡ children (reader message.now.below) Shape.ExpressionRow number (fields_of message.now.bytes)) }
{
    let mut rows = Vec::new(alloc);
    let mut left = message.children(number, Shape::ExpressionRow);
    while let Some(found) = left.next() {
        rows.push(row(alloc, deeper, &found)?)?;
    }
    Ok(Items::from_vec(rows))
}

fn row<D: Deeper>(alloc: Global, deeper: &D, message: &Message<'_>) -> Result<ExprRow, NoMemory>
    requires shape { message.now.shape ≡ Shape.ExpressionRow }
    requires deeper { CanRead D.Deeper deeper.now message.now.below }
    ensures { IfOk result (λ row. row ≡ expression_row_by (reader message.now.below) (fields_of message.now.bytes)) }
{
    Ok(ExprRow {
        fields: exprs_at(alloc, deeper, message, field::expression_row::FIELDS)?,
    })
}
