// Plans and their trees.
use super::plans::{
    CUT_IN_THREE, DECLARATIONS, EMIT, EXISTS, READ_FILTER_READ, TEXT, TRUTHS, UNKNOWN_RELATION,
};
use super::seen::{Seen, shows};
use plan_decode::decode_plan;
use std::alloc::Global;

// Whether the plan has a tree that shows this, and so does a copy of it.
fn is_decoded(alloc: Global, plan: &[u8], seen: Seen) -> bool {
    let Ok(tree) = decode_plan(alloc, plan) else {
        return false;
    };
    let Ok(copy) = tree.copy(alloc) else {
        return false;
    };
    shows(&tree, seen) && shows(&copy, seen)
}

#[test]
fn trees_of_worked_plans(rt: HostRuntime) {
    let plans: [(&[u8], Seen); 9] = [
        (&[], Seen::Nothing),
        (&DECLARATIONS, Seen::Add),
        (&UNKNOWN_RELATION, Seen::Member17),
        (&READ_FILTER_READ, Seen::ReadOfB),
        (&EMIT, Seen::Emit),
        (&TRUTHS, Seen::NullableTrue),
        (&CUT_IN_THREE, Seen::NullableFalse),
        (&TEXT, Seen::Text),
        (&EXISTS, Seen::Exists),
    ];
    for (plan, seen) in plans {
        assert!(rt; is_decoded(rt.alloc(), plan, seen));
    }
}
