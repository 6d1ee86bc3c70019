// What follows from the payload rules for the messages of a plan.
ghost use Rattle.std.specs.Prelude.{◌≡◌, List, Some, IsSome};
ghost use Rattle.pb_wire.specs.Payloads.{Field, Member, chosen_member, merged_message};
ghost use Rattle.plan_scan.specs.declared.shape.Shape.{Shape};
ghost use Rattle.plan_scan.specs.declared.oneof.OneOf.{OneOf};
ghost use Rattle.plan_scan.specs.Table.{HoldsMessage};
ghost use Rattle.plan_scan.specs.Member.{owner, is_member};

/// A message that wins a oneof is there among the records from which it is read.
pub fn winner_is_there()
    ensures { (oneof : OneOf) (inner : Shape) (fields : List Field) (won : Member) → chosen_member (is_member oneof) fields ≡ Some won → HoldsMessage (owner oneof) won.number inner → IsSome (merged_message won.number won.records) }
{}
