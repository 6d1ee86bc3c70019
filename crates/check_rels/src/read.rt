// Reads (Substrait `ReadRel`).
ghost use Rattle.std.specs.Option.{option_map};
ghost use Rattle.check_rels.specs.ReadParts as parts;
ghost use Rattle.plan_verdict.specs.Checking.{Comes};
ghost use Rattle.plan_verdict.specs.Rels as spec;
ghost use Rattle.plan_verdict.specs.Verdict.{checked_expr, checked_source};

use crate::made::read_of;
use check_exprs::{Deeper, Terms, maybe_condition, part};
use check_sources::source;
use plan_leaves::{Boxed, Items, MaskExpression, NamedStruct, RelCommon};
use plan_raw::{RawExpr, RawSource};
use plan_rules::{mask_in, schema_in};
use plan_typed::{Expr, Rel, Source};
use plan_verdict::{CheckError, Progress};
use sub_types::{ByteList, Ty};

/// The schema, the source, a filter over the base columns, and a projection.
pub(crate) fn read<D: Deeper>(
    deeper: &D,
    terms: &Terms<'_>,
    progress: Progress,
    number: u32,
    common: &Option<RelCommon>,
    schema: &Option<NamedStruct>,
    filter: &Option<Boxed<RawExpr>>,
    projection: &Option<MaskExpression>,
    written: &RawSource,
) -> Result<(Rel, Progress), CheckError>
    requires { D.is_ready deeper.now }
    ensures { Comes result (spec.read number common.now schema.now (option_map (checked_expr terms.now) filter.now) projection.now (checked_source terms.now written.now) progress) }
{
    let (names, types) = schema_in(terms.alloc(), number, schema)?;
    read_over(
        deeper, terms, progress, number, common, names, types, filter, projection, written,
    )
}

/// A read of columns of these names and types: the source, a filter, and a projection.
fn read_over<D: Deeper>(
    deeper: &D,
    terms: &Terms<'_>,
    progress: Progress,
    number: u32,
    common: &Option<RelCommon>,
    names: Items<ByteList>,
    types: Items<Ty>,
    filter: &Option<Boxed<RawExpr>>,
    projection: &Option<MaskExpression>,
    written: &RawSource,
) -> Result<(Rel, Progress), CheckError>
    requires { D.is_ready deeper.now }
    ensures { Comes result (spec.read_over number common.now names types (option_map (checked_expr terms.now) filter.now) projection.now (checked_source terms.now written.now) progress) }
{
    let (source, progress) = source(deeper, terms, progress, number, types.as_slice(), written)?;
    read_from(
        deeper, terms, progress, number, common, source, names, types, filter, projection,
    )
}

/// A read of this source: a filter over the base columns, and a projection.
fn read_from<D: Deeper>(
    deeper: &D,
    terms: &Terms<'_>,
    progress: Progress,
    number: u32,
    common: &Option<RelCommon>,
    source: Source,
    names: Items<ByteList>,
    types: Items<Ty>,
    filter: &Option<Boxed<RawExpr>>,
    projection: &Option<MaskExpression>,
) -> Result<(Rel, Progress), CheckError>
    requires { D.is_ready deeper.now }
    ensures { Comes result (parts.read_from number common.now source names types (option_map (checked_expr terms.now) filter.now) projection.now progress) }
{
    let (kept, progress) = maybe_condition(
        deeper,
        terms,
        progress,
        number,
        types.as_slice(),
        filter,
    )?;
    read_kept(
        terms, progress, number, common, source, names, types, kept, projection,
    )
}

/// A read of this source under this filter, and a projection.
fn read_kept(
    terms: &Terms<'_>,
    progress: Progress,
    number: u32,
    common: &Option<RelCommon>,
    source: Source,
    names: Items<ByteList>,
    types: Items<Ty>,
    kept: Option<Expr>,
    projection: &Option<MaskExpression>,
) -> Result<(Rel, Progress), CheckError>
    ensures { Comes result (parts.read_kept number common.now source names types kept projection.now progress) }
{
    let mask = mask_in(terms.alloc(), number, types.len(), projection)?;
    part(
        read_of(
            terms.alloc(),
            number,
            common,
            source,
            names,
            types,
            kept,
            mask,
        ),
        progress,
    )
}
