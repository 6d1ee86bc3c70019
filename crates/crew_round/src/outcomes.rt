// The outcomes of all labours, in the order of their numbers.
ghost use Rattle.std.specs.Prelude.{◌≡◌, ◌++◌, map, IfOk, OnOk};
ghost use Rattle.std.specs.List.{flat_map};
ghost use Rattle.std.specs.List.Sorted.{IsPermutation, IsNonDecreasingBy};

use crew::Gives;
use hand_off::Numbered;
use std::alloc::Global;
use sub_types::NoMemory;

// Adds the outcomes of each labour in turn.
fn give_all<T: Numbered, L: Gives<T>>(
    alloc: Global,
    labours: &mut [L],
    outs: &mut Vec<L::Out>,
) -> Result<(), NoMemory>
    ensures about { map L.about labours.new ≡ map L.about labours.old }
    ensures loaded { map L.loaded labours.new ≡ map L.loaded labours.old }
    ensures failures { map L.failures labours.new ≡ map L.failures labours.old }
    ensures given { OnOk result (outs.new.items ≡ outs.old.items ++ flat_map L.results labours.old) }
{
    for labour in labours.iter_mut() {
        let mut given = labour.give(alloc);
        outs.append(&mut given)?;
    }
    Ok(())
}

// The outcomes of all labours, by number.
pub(crate) fn outcomes<T: Numbered, L: Gives<T>>(
    alloc: Global,
    labours: &mut Vec<L>,
) -> Result<Vec<L::Out>, NoMemory>
    ensures about { map L.about labours.new.items ≡ map L.about labours.old.items }
    ensures loaded { map L.loaded labours.new.items ≡ map L.loaded labours.old.items }
    ensures failures { map L.failures labours.new.items ≡ map L.failures labours.old.items }
    ensures same { IfOk result (λ outs. IsPermutation (flat_map L.results labours.old.items) outs.items) }
    ensures order { IfOk result (λ outs. IsNonDecreasingBy L.Out.number_of outs.items) }
{
    let mut outs = Vec::new(alloc);
    give_all(alloc, labours.as_mut_slice(), &mut outs)?;
    outs.sort_unstable_by_key(
        |out: &L::Out| -> u64
            ensures { result ≡ L.Out.number_of out.now }
        { out.number() },
    );
    Ok(outs)
}
