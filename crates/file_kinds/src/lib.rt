//! The law of kinds of Arrow files: each block gives rows of the kinds that the wanted columns have, so that a file can be read as a
//! relation's table. It stands on `table_rows`, whose streams of blocks it speaks of, and on `denote_typed`, which says what a
//! well-kinded table is, and has no definition of its own.
#![tactic(auto)]

ghost use Rattle.std.specs.Prelude.{ℕ, ◌<◌, ◌≡◌, List, Ok};
ghost use Rattle.std.specs.List.{All, AllByRecursion};
ghost use Rattle.sub_types.specs.declared.kind.Ty.{Ty};
ghost use Rattle.arrow_meta.specs.Head.{Head, head_of};
ghost use Rattle.table_rows.specs.Blocks.{HaveKinds, file_streams};
ghost use Rattle.denote_typed.specs.Kinded.{IsWellKinded};

/// Where the wanted columns of a file can be read and have the kinds of the types, the rows of each of its blocks are of these
/// kinds: whole numbers in range, decimals of at most the precision's digits, and texts that are UTF-8.
pub fn blocks_are_well_kinded()
    ensures { (relation file : ℕ) (bytes : List ℕ) (head : Head) (blocks : ℕ) (wanted : List ℕ) (types : List Ty) → All (λ byte. byte < 256) bytes → head_of bytes ≡ Ok head → HaveKinds head.columns wanted types → AllByRecursion (IsWellKinded types) (file_streams relation file bytes blocks wanted) }
{}
