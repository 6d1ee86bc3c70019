//! Which arguments are evaluated sooner at all rows than at those that are left open.
use plan_typed::{Expr, Func};
use sub_types::Kind;

/// Whether it is a comparison of what stands in columns or is constant, or a test of it for null: at all rows it takes less
/// than finding the rows at which it is needed. It never stops, and what is made of it doesn't depend on this.
pub(crate) fn is_quick(arg: &Expr) -> bool {
    match arg {
        Expr::Call { func, args, .. } => {
            is_test(*func) && args.as_slice().iter().all(is_at_hand)
        }
        _ => false,
    }
}

fn is_test(func: Func) -> bool {
    matches!(
        func,
        Func::Equal
            | Func::NotEqual
            | Func::Lt
            | Func::Lte
            | Func::Gt
            | Func::Gte
            | Func::IsNull
            | Func::IsNotNull
    )
}

/// Whether it stands in a column or is constant, and no truth value: no kernel compares those.
fn is_at_hand(arg: &Expr) -> bool {
    match arg {
        Expr::Const { ty, .. } | Expr::Column { ty, .. } => ty.kind != Kind::Bool,
        _ => false,
    }
}
