// What holds of the table and of kinds themselves.
ghost use Rattle.std.specs.Prelude.{◌≡◌, ◌≤◌, ◌↔◌, ℕ, List, Some, IsTrue, Contains, count_by};
ghost use Rattle.sub_types.specs.declared.kind.Kind.{Kind};
ghost use Rattle.func_table.specs.declared.row.Class.{Class};
ghost use Rattle.func_table.specs.Entry.{Entry, fits};
ghost use Rattle.func_table.specs.Find.{row_for};
ghost use Rattle.func_table.specs.Kinds.{is_equal};
ghost use Rattle.func_table.specs.Table.{table};

/// At most one entry of the table fits a call, so whichever fits is the one that is found.
pub fn one_row_fits()
    ensures at_most { (file name : List ℕ) (kinds : List Kind) (class : Class) → count_by (fits file name kinds class) table ≤ 1 }
    ensures found { (file name : List ℕ) (kinds : List Kind) (class : Class) (entry : Entry) → Contains table entry → IsTrue (fits file name kinds class entry) → row_for file name kinds class ≡ Some entry.row }
{}

/// The test of equal kinds tells whether two kinds are equal.
pub fn equal_kinds_are_equal()
    ensures { (a b : Kind) → IsTrue (is_equal a b) ↔ (a ≡ b) }
{}
