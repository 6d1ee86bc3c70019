// Plans, encoded by hand from the messages of Substrait. Each has one required column x of whole numbers, or of texts.
// A virtual table without rows.
pub(super) const NO_ROWS: &str = "\
    1A1812160A110A0F120B0A017812060A043A0210022A00120178\
    ";

// What stands before 1,025 rows of a virtual table,
pub(super) const MANY_ROWS_HEAD: &str = "\
    1AA230129F300A99300A9630120B0A017812060A043A0210022A8630\
    ";

// each of them,
pub(super) const ROW: &str = "\
    0A040A023801\
    ";

// and what stands behind them.
pub(super) const MANY_ROWS_TAIL: &str = "\
    120178\
    ";

// The column x of the table t.
pub(super) const X_OF_T: &str = "\
    1A1B12190A140A12120B0A017812060A043A0210023A030A0174120178\
    ";

// The same without its first row, by a fetch over the read relation.
pub(super) const BEHIND_FIRST_OF_T: &str = "\
    1A21121F0A1A1A1812140A12120B0A017812060A043A0210023A030A01741801120178\
    ";

// The column x of the table t, of texts.
pub(super) const TEXT_X_OF_T: &str = "\
    1A1B12190A140A12120B0A017812060A04620210013A030A0174120178\
    ";
