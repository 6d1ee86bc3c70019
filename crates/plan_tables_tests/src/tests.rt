// Two tables of one read relation.
ghost use Rattle.std.specs.Prelude.{◌≤◌, IfOk, vec_len};
ghost use Rattle.std.specs.List.{All};
ghost use Rattle.plan_reads.specs.Reads.{HasFewNames};
ghost use Rattle.plan_tables.specs.Open.{IsShaped};

use batch::Batch;
use plan_leaves::Items;
use plan_reads::{Origin, PlanRead};
use plan_tables::{batches_in, open_reads, read_tables};
use row_engine::Table;
use std::alloc::Global;
use sub_types::{ByteList, Kind, NoMemory, Ty, Word};
use table_open::{FileRule, TableError};
use test_bytes::THREE_ROWS_FILE;
use world::MemFolder;

// A read relation of the tables a and b.
fn read_of(alloc: Global) -> Result<PlanRead, NoMemory>
    ensures shaped { IfOk result IsShaped }
    ensures few { IfOk result HasFewNames }
{
    let mut tables = Items::new(alloc);
    tables.push(ByteList::of(alloc, b"a")?)?;
    tables.push(ByteList::of(alloc, b"b")?)?;
    let mut names = Items::new(alloc);
    names.push(ByteList::of(alloc, b"x")?)?;
    let mut types = Items::new(alloc);
    types.push(Ty {
        kind: Kind::I64,
        nullable: false,
    })?;
    Ok(PlanRead {
        relation: 7,
        origin: Origin::Named(tables),
        names,
        types,
    })
}

// That alone.
fn reads_of(alloc: Global) -> Result<Vec<PlanRead>, NoMemory>
    ensures shaped { IfOk result (λ reads. All IsShaped reads.items) }
    ensures few { IfOk result (λ reads. All HasFewNames reads.items) }
{
    let read = read_of(alloc)?;
    let mut reads = Vec::new(alloc);
    reads.push(read)?;
    Ok(reads)
}

// Two words of the command line.
fn words_of(alloc: Global, first: &str, second: &str) -> Result<Vec<Word>, NoMemory>
    ensures { IfOk result (λ words. vec_len words ≤ 1024) }
{
    let first = Word::of(alloc, first)?;
    let second = Word::of(alloc, second)?;
    let mut words = Vec::new(alloc);
    words.push(first)?;
    words.push(second)?;
    Ok(words)
}

// A folder with the file f, whose read with this index fails.
fn folder_of(alloc: Global, failing: Option<u32>) -> Result<MemFolder, NoMemory> {
    let mut folder = MemFolder::new(alloc);
    folder.put_file("f", &THREE_ROWS_FILE)?;
    if let Some(index) = failing {
        folder.fail_read("f", index)?;
    }
    Ok(folder)
}

// In how many batches both tables are read, and whether each has three rows.
fn read_both(
    alloc: Global,
    folder: &mut MemFolder,
    first: &str,
    second: &str,
) -> Result<(u64, bool), TableError> {
    let words = words_of(alloc, first, second)?;
    let reads = reads_of(alloc)?;
    let opened = open_reads(alloc, folder, &words, reads)?;
    let batches = match opened.first() {
        Some(one) => batches_in(one)?,
        None => 0,
    };
    let tables = read_tables(alloc, folder, opened)?;
    Ok((batches, are_whole(&tables)))
}

// Whether there is one table, of two batches of three rows.
fn are_whole(tables: &[Table]) -> bool {
    match tables.first() {
        Some(table) => tables.len() == 1
            && table.relation == 7
            && table.end.is_none()
            && table.batches.len() == 2
            && have_three_rows(table.batches.as_slice()),
        None => false,
    }
}

fn have_three_rows(batches: &[Batch]) -> bool {
    for batch in batches {
        if batch.rows != 3 {
            return false;
        }
    }
    true
}

// Whether both are read, and their readers come back.
fn reads_both(alloc: Global) -> bool {
    let Ok(mut folder) = folder_of(alloc, None) else {
        return false;
    };
    let read = read_both(alloc, &mut folder, "a=f", "b=f");
    matches!(read, Ok((2, true))) && folder.lent() == 0
}

// Whether the second name, which no word binds, is refused, and the reader of the first comes back.
fn refuses_unbound(alloc: Global) -> bool {
    let Ok(mut folder) = folder_of(alloc, None) else {
        return false;
    };
    let read = read_both(alloc, &mut folder, "a=f", "c=f");
    matches!(
        read,
        Err(TableError::Refused {
            file: 0,
            rule: FileRule::Unbound { relation: 7 }
        })
    ) && folder.lent() == 0
}

// Whether a failed read of the rows is told, and all readers come back.
fn tells_failed_read(alloc: Global) -> bool {
    let Ok(mut folder) = folder_of(alloc, Some(5)) else {
        return false;
    };
    let read = read_both(alloc, &mut folder, "a=f", "b=f");
    matches!(read, Err(TableError::ReadFault)) && folder.lent() == 0
}

#[test]
fn two_tables(rt: HostRuntime) {
    assert!(rt; reads_both(rt.alloc()));
    assert!(rt; refuses_unbound(rt.alloc()));
    assert!(rt; tells_failed_read(rt.alloc()));
}
