// What the demo says and reports.
use run_top::{Status, demo_main};
use std::alloc::Global;
use std::fmt::Write;
use std::marker::Sync;
use std::sync::Wait;
use std::test::Fail;
use std::thread::Threads;
use sub_types::{NoMemory, Word};
use world::{MemNotes, OpenGate};

#[derive(Drop)]
struct Said {
    status: Status,
    text: Vec<u8>,
}

// What comes of the demo's words.
fn demo<H: Threads + Wait + Sync>(
    rt: &H,
    alloc: Global,
    number: &str,
    workers: &str,
) -> Result<Said, NoMemory> {
    let mut words = Vec::new(alloc);
    for text in ["demo", number, workers] {
        words.push(Word::of(alloc, text)?)?;
    }
    let mut notes = MemNotes::new(alloc);
    let status = demo_main(rt, alloc, &words, &mut notes, &OpenGate);
    Ok(Said {
        status,
        text: notes.text().to_vec(alloc)?,
    })
}

// The sums and the numbers of quantities of the three regions, by a plain loop over the lines.
fn totals(orders: u32) -> [(u64, u64); 3] {
    let number = u64::from(orders);
    let mut totals = [(0_u64, 0_u64); 3];
    for line in 0..4 * number {
        let order = 7 * line % (number + 1);
        if order < number && line % 11 != 10 {
            let region = (order % 3) as usize;
            let (sum, count) = totals[region];
            totals[region] = (sum.wrapping_add(line % 10), count.wrapping_add(1));
        }
    }
    totals
}

fn lines(alloc: Global, number: u32) -> Result<String, Fail> {
    let mut text = String::new(alloc);
    let [first, second, third] = totals(number);
    write!(text, "r0 {} {}\n", first.0, first.1)?;
    write!(text, "r1 {} {}\n", second.0, second.1)?;
    write!(text, "r2 {} {}\n", third.0, third.1)?;
    Ok(text)
}

#[test]
fn demo_says_what_a_plain_loop_finds(rt: HostRuntime) -> Result<(), Fail> {
    let wanted = lines(rt.alloc(), 2_000)?;
    for workers in ["1", "2", "64"] {
        let said = demo(&rt, rt.alloc(), "2000", workers)?;
        assert_eq!(rt; said.text.as_slice(), wanted.as_bytes());
    }
    Ok(())
}

// The relations of the receipts, and the batches of each.
fn batches(status: &Status) -> [(u32, u64); 2] {
    let Status::Ok(report) = status else {
        return [(0, 0); 2];
    };
    match report.receipts.as_slice() {
        [lines, orders] if report.rows == 3 => [
            (lines.relation, lines.batches),
            (orders.relation, orders.batches),
        ],
        _ => [(0, 0); 2],
    }
}

#[test]
fn demo_reports_both_tables(rt: HostRuntime) -> Result<(), Fail> {
    let said = demo(&rt, rt.alloc(), "1025", "4")?;
    assert_eq!(rt; batches(&said.status), [(3, 5), (4, 2)]);
    Ok(())
}
