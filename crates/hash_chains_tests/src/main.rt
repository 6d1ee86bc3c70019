// Tables of a million rows, by how often keys are compared while each of them is looked up: less than twice a key, also for keys
// that were chosen to collide under the first seed of a table, and for one key in all rows. With all of a million different keys
// in one chain, each would be compared half a million times.
#![tactic(auto)]

mod chosen;
mod counted;
mod tables;

use anyhow::Result;
use chosen::Choice;
use tables::{Seen, look_up_all};

fn main(rt: HostRuntime) -> Result<()> {
    let cases = [
        ("that collide", Choice::Colliding),
        ("in order", Choice::InOrder),
        ("that are equal", Choice::Equal),
    ];
    for (name, choice) in cases {
        match look_up_all(rt.alloc(), choice) {
            Ok(
                Seen {
                    rows,
                    collide,
                    found,
                    looked_up,
                },
            ) => {
                let near = looked_up < rows.saturating_mul(2);
                println!(rt; "{rows} keys {name}: {collide} in the first bucket, {found} found")?;
                println!(rt; "fewer than two for each that is looked up: {near}")?;
            }
            Err(_) => println!(rt; "no memory")?,
        }
    }
    Ok(())
}
