// What holds of the machine itself.
ghost use Rattle.std.specs.Prelude.{ℕ, List};
ghost use Rattle.run_core.specs.Receipts.{IsBalanced};
ghost use Rattle.run_core.specs.Machine.{Machine, start, Leads, Keeps, IsOver};
ghost use Rattle.run_core.specs.declared.event.Event.{Event};

/// Whatever events come, in whatever order, each state keeps the claims, the queue and the receipts together.
pub fn kept_by_events()
    ensures { (n workers bound : ℕ) (events : List Event) (m : Machine) → Leads (start n workers bound) events m → Keeps m }
{}

/// Once every number is claimed and no worker holds one, the receipts are balanced with what the queue still has.
pub fn balanced_when_over()
    ensures { (m : Machine) → Keeps m → IsOver m → IsBalanced m.count m.receipts m.queue }
{}
