// The files of the demo hold its tables.
ghost use Rattle.std.specs.Prelude.{◌≡◌, ℕ, ◌≤◌, List, [], ◌∷◌, Some, Ok};
ghost use Rattle.arrow_meta.specs.Table.{table_of};
ghost use Rattle.plan_tables.specs.Tables.{Opened, open_reads, tables_of};
ghost use Rattle.gen_data.specs.Rows.{MAX_NUMBER, order_rows, line_rows};
ghost use Rattle.gen_data.specs.Plan.{line_names, order_names};
ghost use Rattle.gen_data.specs.Checked.{line_types, order_types};
ghost use Rattle.gen_data.specs.Files.{orders_file, lines_file, demo_files, demo_bindings};
ghost use Rattle.gen_data.specs.Reads.{lines_read, orders_read};
ghost use Rattle.gen_data.specs.Summary.{demo_tables};

/// Of up to 200,000 orders, the demo's files are Arrow files of its tables, and the read relations of its plan, which are bound to
/// them, open them and have these tables.
pub fn demo_files_hold_the_tables()
    ensures orders { (number : ℕ) → number ≤ MAX_NUMBER → table_of (orders_file number) ≡ Some (record { names = order_names; types = order_types; rows = order_rows number }) }
    ensures lines { (number : ℕ) → number ≤ MAX_NUMBER → table_of (lines_file number) ≡ Some (record { names = line_names; types = line_types; rows = line_rows number }) }
    ensures opened { (number : ℕ) → number ≤ MAX_NUMBER → (opened : List Opened) × (open_reads (demo_files number) demo_bindings (lines_read ∷ orders_read ∷ []) ≡ Ok opened) × ((relation : ℕ) → tables_of opened relation ≡ demo_tables number relation) }
{}
