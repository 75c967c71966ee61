// Inner crate: a controller, and the memory of a fresh one.
#![tactic(auto)]

ghost use Rattle.std.specs.Prelude.{◌≡◌, List, ℕ};
ghost use Rattle.rules.specs.State.{nothing};
ghost use Rattle.store_queues.specs.Queues.{Held};
ghost use Rattle.store.specs.Memory.{pending_of};

use numbers::{COUNTS, ORDER_BYTES, SINGLES_BYTES, SLOT_BYTES};
use store_singles::Single;

// A controller: the memory of its pending records, and its AIS capability. C lends it with any content to be made
// fresh, so that the type can't say how the arrays hang together: clauses do (`Held`). Arrays of fixed size, as flic.h
// has them, and Drop alone: nothing copies them.
#[repr(C)]
#[derive(Drop)]
pub struct Controller {
    pub slots: [u8; SLOT_BYTES],
    pub order: [u8; ORDER_BYTES],
    pub counts: [usize; COUNTS],
    pub singles: [u8; SINGLES_BYTES],
    pub ais: bool,
}

// Every slot is free, and nothing is pending. The slots themselves may hold anything, and stay as they are.
pub fn fresh(c: &mut Controller)
    ensures fresh { Held c.new.order c.new.counts × ((slots : List ℕ) →
        pending_of c.new.order c.new.counts slots c.new.singles ≡ nothing) }
    ensures others { (c.new.slots ≡ c.old.slots) × (c.new.ais ≡ c.old.ais) }
{
    store_queues::reset(&mut c.order, &mut c.counts);
    store_singles::remove(&mut c.singles, Single::Service);
    store_singles::remove(&mut c.singles, Single::MachineCheck);
}
