// The values of which a conditional expression gives one: what their kinds and types have in common.
ghost use Rattle.std.specs.Prelude.{◌≡◌, ◌∷◌, ◌++◌, [], true, false, IfOk, MatchOption, map};
ghost use Rattle.plan_typed.specs.declared.expr.Expr.{Expr};
ghost use Rattle.plan_typed.specs.Types.{ty_of};
ghost use Rattle.func_table.specs.Kinds.{is_equal};
ghost use Rattle.std.specs.List.{list_all, list_any, zip};
ghost use Rattle.plan_verdict.specs.Exprs as spec;

use crate::steps::kind_of;
use plan_leaves::Items;
use plan_rules::is_equal_kind;
use plan_typed::Expr;
use std::alloc::Global;
use sub_types::{Kind, NoMemory, Ty};

/// Whether one of these may be null.
pub(crate) fn some_nullable(exprs: &[Expr]) -> bool
    ensures { result ≡ spec.some_nullable exprs.now }
{
    exprs.iter().any(|expr| expr.ty().nullable)
}

/// The kind of the first.
pub(crate) fn first_kind(values: &[Expr]) -> Kind
    ensures { result ≡ spec.first_kind values.now }
{
    match values.first() {
        Some(first) => kind_of(first),
        None => Kind::Bool,
    }
}

/// Whether the values and the other are all of the first's kind.
#[tactic(auto, using(crate::proofs::ArmLaws::alike_first))]
pub(crate) fn are_alike(values: &[Expr], other: &Expr) -> bool
    ensures { result ≡ spec.are_alike (values.now ++ other.now ∷ []) }
{
    let Some((first, rest)) = values.split_first() else {
        return true;
    };
    let kind = kind_of(first);
    are_of_kind(rest, kind) && is_equal_kind(kind_of(other), kind)
}

fn are_of_kind(values: &[Expr], kind: Kind) -> bool
    ensures { result ≡ list_all (λ (value : Expr). is_equal (spec.kind_of value) kind) values.now }
{
    values
        .iter()
        .all(|value| is_equal_kind(kind_of(value), kind))
}

/// The type of what is one of the values or the other.
#[tactic(auto, using(crate::proofs::ArmLaws::nullable_more))]
pub(crate) fn type_among(values: &[Expr], other: &Expr) -> Ty
    ensures { result ≡ spec.type_among (values.now ++ other.now ∷ []) }
{
    Ty {
        kind: kind_among(values, other),
        nullable: some_nullable(values) || other.ty().nullable,
    }
}

fn kind_among(values: &[Expr], other: &Expr) -> Kind
    ensures { result ≡ spec.first_kind (values.now ++ other.now ∷ []) }
{
    match values.split_first() {
        Some((first, _)) => kind_of(first),
        None => kind_of(other),
    }
}

/// Each of the firsts with the second at its place.
pub(crate) fn zipped<A: Drop, B: Drop>(
    alloc: Global,
    firsts: Items<A>,
    seconds: Items<B>,
) -> Result<Items<(A, B)>, NoMemory>
    ensures { IfOk result (λ pairs. pairs ≡ zip firsts seconds) }
{
    let pairs = firsts
        .into_vec()
        .into_iter()
        .zip(seconds.into_vec())
        .collect(alloc)?;
    Ok(Items::from_vec(pairs))
}

/// The kind of the first arm's value.
pub(crate) fn arms_kind(arms: &[(Expr, Expr)]) -> Kind
    ensures { result ≡ spec.first_kind (map (λ (arm : Expr × Expr). arm.1) arms.now) }
{
    match arms.first() {
        Some((_, value)) => kind_of(value),
        None => Kind::Bool,
    }
}

/// Whether the arms' values and the other are all of the first's kind.
pub(crate) fn arms_alike(arms: &[(Expr, Expr)], other: &Expr) -> bool
    ensures { result ≡ spec.are_alike (map (λ (arm : Expr × Expr). arm.1) arms.now ++ other.now ∷ []) }
{
    let Some((first, rest)) = arms.split_first() else {
        return true;
    };
    let kind = kind_of(&first.1);
    arms_of_kind(rest, kind) && is_equal_kind(kind_of(other), kind)
}

fn arms_of_kind(arms: &[(Expr, Expr)], kind: Kind) -> bool
    ensures { result ≡ list_all (λ (arm : Expr × Expr). is_equal (spec.kind_of arm.1) kind) arms.now }
{
    arms.iter()
        .all(|(_, value)| is_equal_kind(kind_of(value), kind))
}

/// The type of what is one of the arms' values or the other.
#[tactic(auto, using(crate::proofs::ArmLaws::arms_nullable_more))]
pub(crate) fn arms_type(arms: &[(Expr, Expr)], other: &Expr) -> Ty
    ensures { result ≡ spec.type_among (map (λ (arm : Expr × Expr). arm.1) arms.now ++ other.now ∷ []) }
{
    Ty {
        kind: arms_kind_among(arms, other),
        nullable: some_arm_nullable(arms) || other.ty().nullable,
    }
}

fn arms_kind_among(arms: &[(Expr, Expr)], other: &Expr) -> Kind
    ensures { result ≡ spec.first_kind (map (λ (arm : Expr × Expr). arm.1) arms.now ++ other.now ∷ []) }
{
    match arms.split_first() {
        Some(((_, first), _)) => kind_of(first),
        None => kind_of(other),
    }
}

fn some_arm_nullable(arms: &[(Expr, Expr)]) -> bool
    ensures { result ≡ list_any (λ (arm : Expr × Expr). (ty_of arm.1).nullable) arms.now }
{
    arms.iter().any(|(_, value)| value.ty().nullable)
}

/// The one column, if there is one.
pub(crate) fn single(columns: &[Ty]) -> Option<Ty>
    ensures { MatchOption result (spec.is_single columns.now ≡ false) (λ column. columns.now ≡ column ∷ []) }
{
    match columns {
        [column] => Some(*column),
        _ => None,
    }
}

/// The one column, if there is one and it is of the kind.
pub(crate) fn single_of(columns: &[Ty], kind: Kind) -> Option<Ty>
    ensures { MatchOption result (spec.is_single_of kind columns.now ≡ false) (λ column. (columns.now ≡ column ∷ []) × (is_equal column.kind kind ≡ true)) }
{
    match columns {
        [column] if is_equal_kind(column.kind, kind) => Some(*column),
        _ => None,
    }
}
