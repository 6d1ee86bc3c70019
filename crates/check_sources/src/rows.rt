// The rows of virtual tables (Substrait `ReadRel.VirtualTable`).
ghost use Rattle.std.specs.Prelude.{◌≡◌, ◌++◌, IfOk, map};
ghost use Rattle.plan_verdict.specs.Checking.{Comes, in_order};
ghost use Rattle.plan_verdict.specs.Reads as spec;
ghost use Rattle.plan_verdict.specs.Verdict.{checked_expr, checked_row, checked_table};

use check_exprs::{Deeper, Terms, constant, each_of, each_of_two, kind_of, next_node, refuse};
use plan_leaves::{Items, LiteralRow, RawLiteral};
use plan_raw::{ExprRow, RawExpr, VirtualTable};
use plan_rules::is_equal_kind;
use plan_typed::Expr;
use plan_verdict::{CheckError, Progress, Rule};
use std::alloc::Global;
use sub_types::{NoMemory, Ty};

/// The rows of literals, and then those of expressions.
pub(crate) fn rows<D: Deeper>(
    deeper: &D,
    terms: &Terms<'_>,
    progress: Progress,
    number: u32,
    types: &[Ty],
    table: &VirtualTable,
) -> Result<(Items<Items<Expr>>, Progress), CheckError>
    requires { D.is_ready deeper.now }
    ensures { Comes result (checked_table terms.now table.now number types.now progress) }
{
    rows_of(
        deeper,
        terms,
        progress,
        number,
        types,
        table.values.as_slice(),
        table.expressions.as_slice(),
    )
}

fn rows_of<D: Deeper>(
    deeper: &D,
    terms: &Terms<'_>,
    progress: Progress,
    number: u32,
    types: &[Ty],
    literals: &[LiteralRow],
    exprs: &[ExprRow],
) -> Result<(Items<Items<Expr>>, Progress), CheckError>
    requires { D.is_ready deeper.now }
    ensures { Comes result (spec.rows_in literals.now (map (checked_row terms.now) exprs.now) number types.now progress) }
{
    let (literals, progress) = literal_rows(terms.alloc(), progress, number, types, literals)?;
    let (exprs, progress) = expr_rows(deeper, terms, progress, number, types, exprs)?;
    Ok((appended(literals, exprs)?, progress))
}

fn expr_rows<D: Deeper>(
    deeper: &D,
    terms: &Terms<'_>,
    progress: Progress,
    number: u32,
    types: &[Ty],
    rows: &[ExprRow],
) -> Result<(Items<Items<Expr>>, Progress), CheckError>
    requires { D.is_ready deeper.now }
    ensures { Comes result (in_order (map (spec.expr_row number types.now) (map (checked_row terms.now) rows.now)) progress) }
{
    each_of(terms.alloc(), progress, rows, |progress, row| {
        expr_row(deeper, terms, progress, number, types, row)
    })
}

fn expr_row<D: Deeper>(
    deeper: &D,
    terms: &Terms<'_>,
    progress: Progress,
    number: u32,
    types: &[Ty],
    row: &ExprRow,
) -> Result<(Items<Expr>, Progress), CheckError>
    requires { D.is_ready deeper.now }
    ensures { Comes result (spec.expr_row number types.now (checked_row terms.now row.now) progress) }
{
    row_of(
        deeper,
        terms,
        progress,
        number,
        types,
        row.fields.as_slice(),
    )
}

fn row_of<D: Deeper>(
    deeper: &D,
    terms: &Terms<'_>,
    progress: Progress,
    number: u32,
    types: &[Ty],
    fields: &[RawExpr],
) -> Result<(Items<Expr>, Progress), CheckError>
    requires { D.is_ready deeper.now }
    ensures { Comes result (spec.row_in number types.now (map (λ field. (checked_expr terms.now field).check (spec.no_columns number)) fields.now) progress) }
{
    if fields.len() != types.len() {
        return refuse(number, Rule::TypeMismatch);
    }
    expr_fields(deeper, terms, progress, number, types, fields)
}

fn expr_fields<D: Deeper>(
    deeper: &D,
    terms: &Terms<'_>,
    progress: Progress,
    number: u32,
    types: &[Ty],
    fields: &[RawExpr],
) -> Result<(Items<Expr>, Progress), CheckError>
    requires { D.is_ready deeper.now }
    ensures { Comes result (spec.fields_in number types.now (map (λ field. (checked_expr terms.now field).check (spec.no_columns number)) fields.now) progress) }
{
    each_of_two(
        terms.alloc(),
        progress,
        fields,
        types,
        |progress, field, ty| { expr_field(deeper, terms, progress, number, ty, field) },
    )
}

fn expr_field<D: Deeper>(
    deeper: &D,
    terms: &Terms<'_>,
    progress: Progress,
    number: u32,
    ty: &Ty,
    field: &RawExpr,
) -> Result<(Expr, Progress), CheckError>
    requires { D.is_ready deeper.now }
    ensures { Comes result (spec.of_kind (spec.no_columns number) ty.now ((checked_expr terms.now field.now).check (spec.no_columns number)) progress) }
{
    let (expr, progress) = deeper.expression(terms, progress, number, &[], field)?;
    if !is_equal_kind(kind_of(&expr), ty.kind) {
        return refuse(number, Rule::TypeMismatch);
    }
    Ok((expr, progress))
}

fn literal_rows(
    alloc: Global,
    progress: Progress,
    number: u32,
    types: &[Ty],
    rows: &[LiteralRow],
) -> Result<(Items<Items<Expr>>, Progress), CheckError>
    ensures { Comes result (in_order (map (spec.literal_row number types.now) rows.now) progress) }
{
    each_of(alloc, progress, rows, |progress, row| {
        literal_row(alloc, progress, number, types, row)
    })
}

fn literal_row(
    alloc: Global,
    progress: Progress,
    number: u32,
    types: &[Ty],
    row: &LiteralRow,
) -> Result<(Items<Expr>, Progress), CheckError>
    ensures { Comes result (spec.literal_row number types.now row.now progress) }
{
    literals_of(alloc, progress, number, types, row.fields.as_slice())
}

fn literals_of(
    alloc: Global,
    progress: Progress,
    number: u32,
    types: &[Ty],
    fields: &[RawLiteral],
) -> Result<(Items<Expr>, Progress), CheckError>
    ensures { Comes result (spec.row_in number types.now (map (spec.literal_field number) fields.now) progress) }
{
    if fields.len() != types.len() {
        return refuse(number, Rule::TypeMismatch);
    }
    literal_fields(alloc, progress, number, types, fields)
}

fn literal_fields(
    alloc: Global,
    progress: Progress,
    number: u32,
    types: &[Ty],
    fields: &[RawLiteral],
) -> Result<(Items<Expr>, Progress), CheckError>
    ensures { Comes result (spec.fields_in number types.now (map (spec.literal_field number) fields.now) progress) }
{
    each_of_two(alloc, progress, fields, types, |progress, field, ty| {
        literal_field(alloc, progress, number, ty, field)
    })
}

fn literal_field(
    alloc: Global,
    progress: Progress,
    number: u32,
    ty: &Ty,
    field: &RawLiteral,
) -> Result<(Expr, Progress), CheckError>
    ensures { Comes result (spec.of_kind (spec.no_columns number) ty.now (spec.literal_field number field.now) progress) }
{
    let (_, progress) = next_node(progress)?;
    let expr = constant(alloc, number, field)?;
    if !is_equal_kind(kind_of(&expr), ty.kind) {
        return refuse(number, Rule::TypeMismatch);
    }
    Ok((expr, progress))
}

/// The rows of the one and then of the other.
fn appended(
    first: Items<Items<Expr>>,
    second: Items<Items<Expr>>,
) -> Result<Items<Items<Expr>>, NoMemory>
    ensures { IfOk result (λ rows. rows ≡ first ++ second) }
{
    let mut rows = first;
    for row in second.into_vec() {
        rows.push(row)?;
    }
    Ok(rows)
}
