// The measures of aggregates (Substrait `AggregateRel.Measure` and `AggregateFunction`).
ghost use Rattle.std.specs.Prelude.{◌≡◌, Some, map};
ghost use Rattle.std.specs.Option.{option_map};
ghost use Rattle.plan_verdict.specs.Aggregates as spec;
ghost use Rattle.check_groups.specs.Measures.{set_measure as set_measure_as};
ghost use Rattle.plan_verdict.specs.Checking.{Agrees, Comes};
ghost use Rattle.plan_verdict.specs.Exprs.{Terms as Checked};
ghost use Rattle.plan_verdict.specs.Rels as rels;
ghost use Rattle.plan_verdict.specs.Rels.{over};
ghost use Rattle.plan_verdict.specs.Verdict.{checked_argument, checked_expr, checked_function, checked_measure};

use check_exprs::{Deeper, Terms, called, condition, part, refuse};
use func_table::Class;
use plan_leaves::{FunctionOption, Items, RawType};
use plan_raw::{AggregateFunction, FunctionArgument, Measure, RawExpr};
use plan_rules::{beside, must};
use plan_typed::{Expr, SetMeasure, TypedMeasure};
use plan_verdict::{CheckError, Progress, Rule};
use sub_types::Ty;

/// The form of its function, its filter, its call, and that there is an argument to be distinct.
pub(crate) fn measure<D: Deeper>(
    deeper: &D,
    terms: &Terms<'_>,
    progress: Progress,
    number: u32,
    columns: &[Ty],
    written: &Measure,
) -> Result<(SetMeasure, Progress), CheckError>
    requires { D.is_ready deeper.now }
    ensures { Comes result (checked_measure terms.now written.now (over number columns.now) progress) }
{
    measure_of(
        deeper,
        terms,
        progress,
        number,
        columns,
        &written.measure,
        &written.filter,
    )
}

/// The measure of this function and this filter.
fn measure_of<D: Deeper>(
    deeper: &D,
    terms: &Terms<'_>,
    progress: Progress,
    number: u32,
    columns: &[Ty],
    function: &Option<AggregateFunction>,
    filter: &Option<RawExpr>,
) -> Result<(SetMeasure, Progress), CheckError>
    requires { D.is_ready deeper.now }
    ensures { Comes result (spec.measure_in (option_map (checked_function terms.now) function.now) (option_map (checked_expr terms.now) filter.now) (over number columns.now) progress) }
{
    match function {
        None => refuse(number, Rule::MissingField),
        Some(function) => measure_by(deeper, terms, progress, number, columns, function, filter),
    }
}

fn measure_by<D: Deeper>(
    deeper: &D,
    terms: &Terms<'_>,
    progress: Progress,
    number: u32,
    columns: &[Ty],
    function: &AggregateFunction,
    filter: &Option<RawExpr>,
) -> Result<(SetMeasure, Progress), CheckError>
    requires { D.is_ready deeper.now }
    ensures { Comes result (spec.measure_in (Some (checked_function terms.now function.now)) (option_map (checked_expr terms.now) filter.now) (over number columns.now) progress) }
{
    if !is_supported(function) {
        return refuse(number, Rule::UnsupportedForm);
    }
    let (kept, progress) = filter_of(deeper, terms, progress, number, columns, filter)?;
    let (measure, progress) = measured(deeper, terms, progress, number, columns, function, kept)?;
    part(
        set_measure(number, measure, is_distinct(function)),
        progress,
    )
}

/// A measure that may be over distinct values; then it has an argument.
fn set_measure(number: u32, measure: TypedMeasure, distinct: bool) -> Result<SetMeasure, CheckError>
    ensures { Agrees result number (set_measure_as measure distinct) }
{
    let lacks_argument = distinct && measure.arg.is_none();
    let measure = must(number, !lacks_argument, Rule::BadArguments, measure)?;
    Ok(SetMeasure { measure, distinct })
}

/// The form of a function is supported.
fn is_supported(function: &AggregateFunction) -> bool
    ensures { (terms : Checked) → result ≡ (checked_function terms function.now).is_supported }
{
    is_supported_form(
        !function.sorts.is_empty(),
        function.phase,
        function.invocation,
    )
}

/// A function is over distinct values.
fn is_distinct(function: &AggregateFunction) -> bool
    ensures { (terms : Checked) → result ≡ (checked_function terms function.now).is_distinct }
{
    function.invocation == 2
}

/// A filter that may be absent.
fn filter_of<D: Deeper>(
    deeper: &D,
    terms: &Terms<'_>,
    progress: Progress,
    number: u32,
    columns: &[Ty],
    filter: &Option<RawExpr>,
) -> Result<(Option<Expr>, Progress), CheckError>
    requires { D.is_ready deeper.now }
    ensures { Comes result (rels.maybe_condition (over number columns.now) (option_map (checked_expr terms.now) filter.now) progress) }
{
    match filter {
        None => Ok((None, progress)),
        Some(_) => {
            let (kept, progress) = condition(deeper, terms, progress, number, columns, filter)?;
            Ok((Some(kept), progress))
        }
    }
}

/// The call of a measure's function.
fn measured<D: Deeper>(
    deeper: &D,
    terms: &Terms<'_>,
    progress: Progress,
    number: u32,
    columns: &[Ty],
    function: &AggregateFunction,
    kept: Option<Expr>,
) -> Result<(TypedMeasure, Progress), CheckError>
    requires { D.is_ready deeper.now }
    ensures { Comes result ((checked_function terms.now function.now).check (over number columns.now) kept progress) }
{
    measured_by(
        deeper,
        terms,
        progress,
        number,
        columns,
        function.function_reference,
        &function.output_type,
        function.arguments.as_slice(),
        function.options.as_slice(),
        kept,
    )
}

/// The call of the function that is named, with these arguments and options.
fn measured_by<D: Deeper>(
    deeper: &D,
    terms: &Terms<'_>,
    progress: Progress,
    number: u32,
    columns: &[Ty],
    reference: u32,
    output: &Option<RawType>,
    written: &[FunctionArgument],
    options: &[FunctionOption],
    kept: Option<Expr>,
) -> Result<(TypedMeasure, Progress), CheckError>
    requires { D.is_ready deeper.now }
    ensures { Comes result (spec.measured terms.now reference output.now (map (checked_argument terms.now) written.now) options.now (over number columns.now) kept progress) }
{
    let called = called(
        deeper,
        terms,
        progress,
        number,
        columns,
        Class::Aggregate,
        reference,
        output,
        written,
        options,
    );
    let (filter, ((call, args), progress)) = beside(kept, called)?;
    let checked = TypedMeasure {
        func: call.func,
        arg: first_of(args),
        filter,
        ty: call.ty,
    };
    Ok((checked, progress))
}

/// The first, if there is one.
fn first_of(args: Items<Expr>) -> Option<Expr>
    ensures { result ≡ spec.first_of args }
{
    args.into_vec().into_iter().next()
}

/// No sorts, the phase unspecified or from the initial to the result, over all values or distinct ones.
fn is_supported_form(has_sorts: bool, phase: u32, invocation: u32) -> bool
    ensures { result ≡ spec.is_supported_form has_sorts phase invocation }
{
    !has_sorts && (phase == 0 || phase == 3) && invocation <= 2
}
