// Calls of functions (Substrait `Expression.ScalarFunction` and `FunctionArgument`).
ghost use Rattle.std.specs.Prelude.{map};
ghost use Rattle.check_exprs.specs.Parts.{called as called_as};
ghost use Rattle.plan_verdict.specs.Checking.{Comes};
ghost use Rattle.plan_verdict.specs.Exprs as spec;
ghost use Rattle.plan_verdict.specs.Rels.{over};
ghost use Rattle.plan_verdict.specs.Verdict.{checked_argument};

use crate::columns::types_of;
use crate::deeper::Deeper;
use crate::each::each_of;
use crate::steps::refuse;
use crate::terms::Terms;
use func_table::Class;
use plan_leaves::{FunctionOption, Items, RawType};
use plan_raw::FunctionArgument;
use plan_rules::call_in;
use plan_typed::Expr;
use plan_verdict::{Call, CheckError, Progress, Rule};
use sub_types::Ty;

/// The function that is named, then the arguments, and then the call.
pub(crate) fn scalar_function<D: Deeper>(
    deeper: &D,
    terms: &Terms<'_>,
    progress: Progress,
    relation: u32,
    columns: &[Ty],
    reference: u32,
    output: &Option<RawType>,
    written: &[FunctionArgument],
    options: &[FunctionOption],
) -> Result<(Expr, Progress), CheckError>
    requires { D.is_ready deeper.now }
    ensures { Comes result (spec.scalar_function terms.now (over relation columns.now) reference output.now (map (checked_argument terms.now) written.now) options.now progress) }
{
    let ((call, args), progress) = called(
        deeper,
        terms,
        progress,
        relation,
        columns,
        Class::Scalar,
        reference,
        output,
        written,
        options,
    )?;
    let checked = Expr::Call {
        func: call.func,
        mode: call.mode,
        args,
        ty: call.ty,
    };
    Ok((checked, progress))
}

/// The function that is named in this class, then the arguments, and then the call, with its arguments.
pub fn called<D: Deeper>(
    deeper: &D,
    terms: &Terms<'_>,
    progress: Progress,
    relation: u32,
    columns: &[Ty],
    class: Class,
    reference: u32,
    output: &Option<RawType>,
    written: &[FunctionArgument],
    options: &[FunctionOption],
) -> Result<((Call, Items<Expr>), Progress), CheckError>
    requires { D.is_ready deeper.now }
    ensures { Comes result (called_as terms.now (over relation columns.now) class reference output.now (map (checked_argument terms.now) written.now) options.now progress) }
{
    let named = terms.declared().named_in(relation, class, reference)?;
    let (args, progress) = arguments(deeper, terms, progress, relation, columns, written)?;
    let types = types_of(terms.alloc(), args.as_slice())?;
    let call = call_in(
        terms.alloc(),
        relation,
        &named,
        class,
        types.as_slice(),
        output,
        options,
    )?;
    Ok(((call, args), progress))
}

/// Each argument, which is a value.
pub fn arguments<D: Deeper>(
    deeper: &D,
    terms: &Terms<'_>,
    progress: Progress,
    relation: u32,
    columns: &[Ty],
    written: &[FunctionArgument],
) -> Result<(Items<Expr>, Progress), CheckError>
    requires { D.is_ready deeper.now }
    ensures { Comes result (spec.arguments (over relation columns.now) (map (checked_argument terms.now) written.now) progress) }
{
    each_of(terms.alloc(), progress, written, |progress, one| {
        argument(deeper, terms, progress, relation, columns, one)
    })
}

fn argument<D: Deeper>(
    deeper: &D,
    terms: &Terms<'_>,
    progress: Progress,
    relation: u32,
    columns: &[Ty],
    written: &FunctionArgument,
) -> Result<(Expr, Progress), CheckError>
    requires { D.is_ready deeper.now }
    ensures { Comes result (spec.argument (over relation columns.now) (checked_argument terms.now written.now) progress) }
{
    match written {
        FunctionArgument::Value(value) => deeper.expression(
            terms, progress, relation, columns, value,
        ),
        FunctionArgument::Missing | FunctionArgument::Enum(_) | FunctionArgument::TypeArgument(_) =>
            refuse(relation, Rule::UnsupportedForm),
    }
}
