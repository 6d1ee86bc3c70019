// A plan's tree written from its last byte to its first.
ghost use Rattle.std.specs.Prelude.{◌≡◌, [], ◌++◌, ◌<◌, ◌^◌, get_or, length, map, OnOk, IfOk};
ghost use Rattle.pb_write.specs.Write.{message_bytes};
ghost use Rattle.plan_spell.specs.Held.{fields_by, part_fields};
ghost use Rattle.plan_spell.specs.Spelled.{spelled, spelled_at};
ghost use Rattle.spell_leaves.specs.Seen.{block_records};
ghost use Rattle.spell_tree.specs.Seen.{tree_part_seen, tree_parts_seen, trees_seen};

use crate::part::{TreePart, TreesRef};
use crate::parts::parts_at;
use pb_write::Backwards;
use plan_raw::PlanTree;
use std::alloc::Global;
use sub_types::NoMemory;

// A plan's messages are at most so many deep.
const LEVELS: u32 = 100;

/// The bytes of a plan's tree (Protocol Buffers encoding; Substrait's `Plan`), field by field in the order of their numbers:
/// each number, truth value and text that is no member of a oneof only where it isn't 0, false or empty. Messages deeper than
/// 100 levels are written empty, and members that aren't known not at all: `spelled_trees_read_back` of `plan_spell` says
/// when the bytes read back as the tree. Only memory can be lacking.
pub fn spell(alloc: Global, tree: &PlanTree) -> Result<Vec<u8>, NoMemory>
    ensures bytes { IfOk result (λ bytes. bytes.items ≡ spelled tree.now) }
    ensures short { IfOk result (λ bytes. length (spelled tree.now) < 2 ^ 64) }
{
    let mut out = Backwards::new(alloc);
    write_tree(&mut out, alloc, TreesRef::Plan(tree), 0, LEVELS)?;
    // A length has 64 bits.
    let _len = out.len();
    Ok(out.into_vec())
}

// The bytes of one of the messages in front of what was written, where so many levels are left to it.
#[cycle(write)]
#[tactic(auto, using(crate::proofs::TreeLaws::tree_put, crate::proofs::TreeLaws::no_level))]
fn write_tree(
    out: &mut Backwards,
    alloc: Global,
    trees: TreesRef,
    at: usize,
    levels: u32,
) -> Result<(), NoMemory>
    requires { at < length (trees_seen trees).nodes }
    ensures { OnOk result (out.new ≡ get_or (map (spelled_at levels (trees_seen trees.entry).shape) (trees_seen trees.entry).nodes) at [] ++ out.old) }
{
    if levels == 0 {
        return Ok(());
    }
    let parts = parts_at(alloc, trees, at)?;
    write_parts(out, alloc, parts.as_slice(), levels - 1)
}

// The records of fields, from the last field to the first.
#[cycle(write)]
#[tactic(auto, using(crate::proofs::TreeLaws::parts_begun))]
fn write_parts(
    out: &mut Backwards,
    alloc: Global,
    parts: &[TreePart],
    levels: u32,
) -> Result<(), NoMemory>
    ensures { OnOk result (out.new ≡ message_bytes (fields_by (spelled_at levels) (tree_parts_seen parts.now)) ++ out.old) }
{
    let mut left = parts.len();
    while left > 0 {
        left -= 1;
        write_part(out, alloc, parts[left], levels)?;
    }
    Ok(())
}

// The records of a field.
#[cycle(write)]
fn write_part(
    out: &mut Backwards,
    alloc: Global,
    part: TreePart,
    levels: u32,
) -> Result<(), NoMemory>
    ensures { OnOk result (out.new ≡ message_bytes (part_fields (spelled_at levels) (tree_part_seen part.entry)) ++ out.old) }
{
    match part {
        TreePart::Leaf(part) => spell_leaves::write_part(out, alloc, part, levels),
        TreePart::Trees(number, trees) => write_trees(out, alloc, number, trees, levels),
    }
}

// A record for each of the messages, from the last to the first.
#[cycle(write)]
#[tactic(auto, using(crate::proofs::TreeLaws::trees_begun))]
fn write_trees(
    out: &mut Backwards,
    alloc: Global,
    number: u32,
    trees: TreesRef,
    levels: u32,
) -> Result<(), NoMemory>
    ensures { OnOk result (out.new ≡ block_records number (map (spelled_at levels (trees_seen trees.entry).shape) (trees_seen trees.entry).nodes) ++ out.old) }
{
    let mut left = trees.len();
    while left > 0 {
        left -= 1;
        let before = out.len();
        write_tree(out, alloc, trees, left, levels)?;
        out.close(number, before)?;
    }
    Ok(())
}
