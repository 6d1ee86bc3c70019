// The rows that are taken are those of the operation.
ghost use Rattle.std.specs.Prelude.{◌≡◌, ◌≢◌, ◌∷◌, List, map, length, []};
ghost use Rattle.std.specs.List.{flat_map};
ghost use Rattle.plan_typed.specs.declared.rel.SetOp.{SetOp};
ghost use Rattle.plan_typed.specs.declared.rel.SetOp.TheVariants as ops;
ghost use Rattle.plan_denote.specs.Distinct.{distinct, is_same_row};
ghost use Rattle.plan_denote.specs.Rows.{Row};
ghost use Rattle.plan_denote.specs.Sets.{row_at, set_of};
ghost use Rattle.hash_chains.specs.First.{rows_where};
ghost use Rattle.set_places.specs.Taken.{takes, ends_from, same_in};

/// The rows that are taken, of the rows of all inputs one behind the other, are those of the operation.
pub fn taken_rows_are_the_operation()
    ensures first { (op : SetOp) (first : List Row) (others : List (List Row)) (all : List Row) → op ≢ ops.UnionDistinct → op ≢ ops.UnionAll → all ≡ flat_map (λ rows. rows) (first ∷ others) → map (row_at all) (rows_where (takes (same_in all) op (length first) (ends_from (length first) others)) (length first)) ≡ set_of op first others }
    ensures union { (all : List Row) → map (row_at all) (rows_where (takes (same_in all) ops.UnionDistinct (length all) []) (length all)) ≡ distinct is_same_row all }
{}
