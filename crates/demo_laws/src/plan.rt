// The demo's plan: it is written, read back, accepted as what `demo_plan` says, and reads the two tables.
ghost use Rattle.std.specs.Prelude.{◌≡◌, ◌≤◌, [], ◌∷◌, true, Ok, length};
ghost use Rattle.plan_reads.specs.Reads.{reads_of};
ghost use Rattle.plan_spell.specs.Spelled.{IsSpellable, spelled};
ghost use Rattle.plan_verdict.specs.Verdict.{verdict};
ghost use Rattle.gen_data.specs.Plan.{demo_tree};
ghost use Rattle.gen_data.specs.Checked.{demo_plan};
ghost use Rattle.gen_data.specs.Reads.{lines_read, orders_read};

/// The demo's plan reads back from its bytes: its members are known, its texts are UTF-8, and its messages aren't too deep.
pub fn demo_plan_is_spellable()
    ensures { IsSpellable demo_tree }
{}

/// The bytes of the demo's plan aren't more than 2^24, the most that a plan may have.
pub fn demo_plan_is_short()
    ensures { length (spelled demo_tree) ≤ 16777216 }
{}

/// The demo's plan is accepted: no rule is broken, and it is checked as the tree of `demo_plan`.
pub fn demo_plan_is_accepted()
    ensures { verdict true demo_tree ≡ Ok demo_plan }
{}

/// The read relations of the demo's plan: the lines, and then the orders.
pub fn demo_plan_reads()
    ensures { reads_of demo_plan ≡ lines_read ∷ orders_read ∷ [] }
{}
