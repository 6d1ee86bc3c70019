// The law by which a sort can be done in runs.
ghost use Rattle.std.specs.Prelude.{◌≡◌, List};
ghost use Rattle.std.specs.List.{flat_map};
ghost use Rattle.plan_denote.specs.Rows.{Row};
ghost use Rattle.rel_specs.specs.declared.key_order.KeyOrder.{KeyOrder};
ghost use Rattle.sort_merge.specs.RowOrder.{in_order};

/// Runs that are each in order, put in order one behind the other, are the whole in order. So rows can be cut into runs
/// anywhere, and sorted by several workers.
pub fn sorted_runs_are_the_whole()
    ensures { (keys : List KeyOrder) (runs : List (List Row)) → in_order keys (flat_map (in_order keys) runs) ≡ in_order keys (flat_map (λ run. run) runs) }
{}
