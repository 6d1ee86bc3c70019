// Measures over all values or over distinct ones.
ghost use Rattle.std.specs.Prelude.{◌≡◌};
ghost use Rattle.plan_denote.specs.Denote.{any_measure, measure_of};
ghost use Rattle.plan_denote.specs.GroupSets.{AnyMeasure as Spec};
ghost use Rattle.row_groups.specs.Measured.{plain};

use plan_typed::{SetMeasure, TypedMeasure};

/// A measure that says whether it is over distinct values.
pub trait AnyMeasure {
    ghost as_any: { Self → Spec };

    fn measure(&self) -> &TypedMeasure
        ensures { measure_of result.now ≡ (as_any self.now).measure };

    fn is_distinct(&self) -> bool
        ensures { result ≡ (as_any self.now).distinct };
}

impl AnyMeasure for TypedMeasure {
    ghost as_any = { plain };

    fn measure(&self) -> &TypedMeasure {
        self
    }

    fn is_distinct(&self) -> bool {
        false
    }
}

impl AnyMeasure for SetMeasure {
    ghost as_any = { any_measure };

    fn measure(&self) -> &TypedMeasure {
        &self.measure
    }

    fn is_distinct(&self) -> bool {
        self.distinct
    }
}
