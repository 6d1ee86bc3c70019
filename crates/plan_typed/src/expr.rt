// Checked expressions.
ghost use Rattle.std.specs.Prelude.{◌≡◌};

use plan_leaves::{Boxed, Items};
use sub_types::{Ty, Value};

/// What a call does where its result leaves its type: it is a fault, the nearest value, or it wraps.
#[derive(Clone, Copy, Debug, PartialEq, Eq, Hash)]
pub enum Overflow {
    Error,
    Saturate,
    Silent,
}

/// The functions, scalar and aggregate. A name that stands in several files of functions is one.
#[derive(Clone, Copy, Debug, PartialEq, Eq, Hash)]
pub enum Func {
    And,
    Or,
    Not,
    Xor,
    Equal,
    NotEqual,
    Lt,
    Lte,
    Gt,
    Gte,
    Between,
    IsNull,
    IsNotNull,
    IsNotDistinctFrom,
    Coalesce,
    Nullif,
    Add,
    Subtract,
    Multiply,
    Divide,
    Modulus,
    Negate,
    Abs,
    Sum,
    Avg,
    Min,
    Max,
    Concat,
    Substring,
    StartsWith,
    EndsWith,
    Contains,
    Like,
    CharLength,
    OctetLength,
    Count,
}

/// A checked expression. `ty` is its type.
#[derive(Drop)]
pub enum Expr {
    Const {
        value: Value,
        ty: Ty,
    },
    Column {
        index: u32,
        ty: Ty,
    },
    Call {
        func: Func,
        mode: Overflow,
        args: Items<Expr>,
        ty: Ty,
    },
    /// The value of the first arm whose condition is true, or `other`.
    If {
        arms: Items<(Expr, Expr)>,
        other: Boxed<Expr>,
        ty: Ty,
    },
    /// The value of the first arm with the subject's value, or `other`.
    Switch {
        subject: Boxed<Expr>,
        arms: Items<(Value, Expr)>,
        other: Boxed<Expr>,
        ty: Ty,
    },
    /// Whether the value is one of the options.
    OneOf {
        value: Boxed<Expr>,
        options: Items<Expr>,
        ty: Ty,
    },
    Cast {
        input: Boxed<Expr>,
        null_on_fail: bool,
        ty: Ty,
    },
}

impl Expr {
    ghost use Rattle.plan_typed.specs.Types.{ty_of};

    /// The expression's type.
    pub fn ty(&self) -> Ty
        ensures { result ≡ ty_of self.now }
    {
        match self {
            Expr::Const { ty, .. }
            | Expr::Column { ty, .. }
            | Expr::Call { ty, .. }
            | Expr::If { ty, .. }
            | Expr::Switch { ty, .. }
            | Expr::OneOf { ty, .. }
            | Expr::Cast { ty, .. } => *ty,
        }
    }
}
