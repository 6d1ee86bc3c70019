// The answers of a command, and the numbers that a program ends with.
ghost use Rattle.std.specs.Prelude.{◌≡◌};
ghost use Rattle.run_words.specs.Lines.{exit_of};

use plan_verdict::Rule;
use run_core::Receipt;
use sub_types::Fault;
use table_open::FileRule;

/// What the workers did with the batches of one read relation.
#[derive(Debug, Drop)]
pub struct PipeReceipt {
    pub relation: u32,
    /// How many batches the relation's table has.
    pub batches: u64,
    /// The numbers of the batches that were left in the queue when the workers were done.
    pub left: Vec<u64>,
    pub workers: Vec<Receipt>,
}

/// What a run did.
#[derive(Debug, Drop)]
pub struct Report {
    /// The number of rows that were written.
    pub rows: u64,
    /// One receipt for each read relation, in order of relation numbers.
    pub receipts: Vec<PipeReceipt>,
}

/// The answer of a command.
#[derive(Debug, Drop)]
pub enum Status {
    Ok(Report),
    /// The words have no reading.
    Usage,
    /// No record of the plan stands at this place, or it is too deep there.
    PlanUnreadable { place: u64 },
    /// The relation with this number breaks the rule.
    PlanRefused { relation: u32, rule: Rule },
    /// File 0 is the plan; the others are numbered as they are bound.
    FileRefused { file: u32, rule: FileRule },
    DataFault { fault: Fault },
    ReadFault,
    WriteFault,
    NoMemory,
}

/// The number that the program ends with.
pub fn exit_number(status: &Status) -> u8
    ensures { result ≡ exit_of status.now }
{
    match status {
        Status::Ok(_) => 0,
        Status::Usage => 2,
        Status::PlanUnreadable { .. } => 3,
        Status::PlanRefused { .. } => 4,
        Status::FileRefused { .. } => 5,
        Status::DataFault { .. } => 6,
        Status::ReadFault => 7,
        Status::WriteFault => 8,
        Status::NoMemory => 9,
    }
}
