// A plan's tree reads back from its bytes.
ghost use Rattle.std.specs.Prelude.{◌≡◌, Ok};
ghost use Rattle.plan_raw.specs.declared.plan.PlanTree.{PlanTree};
ghost use Rattle.plan_parts.specs.Reader.{plan_of};
ghost use Rattle.plan_spell.specs.Spelled.{IsSpellable, spelled};

/// The bytes of a tree are readable and read back as the tree, where its members are known, its texts are UTF-8, its messages
/// are at most 100 deep, and the bytes are fewer than 2^64.
pub fn spelled_trees_read_back()
    ensures { (tree : PlanTree) → IsSpellable tree → plan_of (spelled tree) ≡ Ok tree }
{}
