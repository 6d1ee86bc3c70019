// The set of constants.
ghost use Rattle.std.specs.Prelude.{IfOk, IfSome};
ghost use Rattle.value_sets.specs.Sets.{IsSetOf};

use crate::ValueSet;
use plan_typed::Expr;
use std::alloc::Global;
use sub_types::NoMemory;

/// The set of these options, unless one of them isn't a constant.
pub fn set_of_constants(alloc: Global, options: &[Expr]) -> Result<Option<ValueSet>, NoMemory>
    ensures { IfOk result (λ set. IfSome set (λ set. IsSetOf set options.now)) }
{
    let mut set = ValueSet::new(alloc);
    for option in options {
        let Expr::Const { value, .. } = option else {
            return Ok(None);
        };
        set.insert(alloc, value)?;
    }
    Ok(Some(set))
}
