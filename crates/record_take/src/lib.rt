// Inner crate: records that are counted, listed, removed or handed out: CLEAR_IRQS, GET_ALL_IRQS, CLEAR_IO_IRQ and the
// guest take.
#![tactic(auto)]

ghost use Rattle.std.specs.Prelude.{◌≡◌, ℕ, ◌*◌, ◌≤◌, ◌<◌, length, drop, get_or, OnErr};
ghost use mathlib.Core.List.{List, ◌++◌, flatten};
ghost use Rattle.rules.specs.State.{Limits, State, with_pending, listing};
ghost use Rattle.rules.specs.Requests.{clear_irqs, get_all_irqs, clear_io_irq, request};
ghost use Rattle.rules.specs.Take.{takes};
ghost use Rattle.rules.specs.Invariant.{All, Whole};
ghost use Rattle.store_queues.specs.Slots.{slot_count, most_pending};
ghost use Rattle.store_queues.specs.Queues.{queues, Counted, Held};
ghost use Rattle.answers.specs.Answers.{Answers, as_answer};
ghost use Rattle.store.specs.Memory.{pending_of, pending_in};
ghost use Rattle.record_take.specs.Next.{NextIn, hands_queued, handed_next};

use answers::Refusal;
use numbers::{Queue, Subchannel};
use store::Controller;
use store_search::Found;
use store_singles::Single;

// How many records are pending.
pub fn pending(c: &Controller) -> usize
    requires { Counted c.now.counts }
    ensures count { (order slots : List ℕ) → Held order c.now.counts
        → result ≡ length (listing (pending_of order c.now.counts slots c.now.singles)) }
    ensures few { result ≤ most_pending }
{
    store_queues::queued(&c.counts)
        + usize::from(store_singles::is_there(&c.singles, Single::Service))
        + usize::from(store_singles::is_there(&c.singles, Single::MachineCheck))
}

// Each byte names a slot. The order comes as a slice: of a slice's bytes a proof knows that they are below 256, and of
// an array's it does not.
fn name_slots(order: &[u8])
    ensures { (k : ℕ) → get_or order.now k 0 < slot_count }
{}

// How many records are pending, every one of 72 bytes.
pub fn pending_whole(c: &Controller) -> usize
    requires { Held c.now.order c.now.counts }
    ensures count { result ≡ length (listing (pending_in c.now)) }
    ensures whole { All Whole (listing (pending_in c.now)) }
    ensures few { result ≤ most_pending }
{
    name_slots(&c.order);
    pending(c)
}

// Group 3: every pending record is removed.
pub fn clear_irqs(c: &mut Controller, attr: u64) -> Result<u64, Refusal>
    requires { Held c.old.order c.old.counts }
    ensures answer { (L : Limits) (s : State) (slots b : List ℕ)
        → s.pending ≡ pending_of c.old.order c.old.counts slots c.old.singles
        → Answers L s b (request L s clear_irqs attr b) (as_answer result)
        (with_pending (pending_of c.new.order c.new.counts slots c.new.singles) s) b }
    ensures held { Held c.new.order c.new.counts }
    ensures others { (c.new.slots ≡ c.old.slots) × (c.new.ais ≡ c.old.ais) }
    ensures kept { OnErr result (c.new ≡ c.old) }
{
    if attr != 0 {
        return Err(Refusal::Invalid);
    }
    let n = pending(c);
    store_queues::clear(&mut c.order, &mut c.counts);
    store_singles::remove(&mut c.singles, Single::Service);
    store_singles::remove(&mut c.singles, Single::MachineCheck);
    Ok(n as u64) // those removed
}

// Writes the listing to the start of out.
pub fn list_all(c: &Controller, out: &mut [u8])
    requires { Held c.now.order c.now.counts
        × (72 * length (listing (pending_in c.now)) ≤ length out.old) }
    ensures { out.new ≡ flatten (listing (pending_in c.now))
        ++ drop (72 * length (listing (pending_in c.now))) out.old }
{
    store_queues::list(&c.slots, &c.order, &c.counts, out);
    let mut at = store_queues::queued(&c.counts) * 72;
    if store_singles::is_there(&c.singles, Single::Service) {
        numbers::save(out, at, store_singles::read(&c.singles, Single::Service));
        at += 72;
    }
    if store_singles::is_there(&c.singles, Single::MachineCheck) {
        numbers::save(
            out,
            at,
            store_singles::read(&c.singles, Single::MachineCheck),
        );
    }
}

// Group 1: the listing.
pub fn get_all(c: &Controller, attr: u64, out: &mut [u8]) -> Result<u64, Refusal>
    requires { Held c.now.order c.now.counts }
    ensures answer { (L : Limits) (s : State) → s.pending ≡ pending_in c.now
        → Answers L s out.old (request L s get_all_irqs attr out.old) (as_answer result) s out.new }
    ensures kept { OnErr result (out.new ≡ out.old) }
{
    if attr == 0 {
        return Err(Refusal::Invalid);
    }
    let lent = out.len() as u64;
    if lent < attr {
        return Err(Refusal::Fault);
    }
    let n = pending(c);
    if attr < (n * 72) as u64 {
        return Err(Refusal::NoMemory);
    }
    list_all(c, out);
    Ok(n as u64) // those listed
}

// Group 8: the first I/O record in listing order for a subchannel is removed.
pub fn clear_io(c: &mut Controller, attr: u64, payload: &[u8]) -> Result<u64, Refusal>
    requires { Held c.old.order c.old.counts }
    ensures answer { (L : Limits) (s : State) (singles : List ℕ)
        → s.pending ≡ pending_of c.old.order c.old.counts c.old.slots singles
        → Answers L s payload.now (request L s clear_io_irq attr payload.now) (as_answer result)
        (with_pending (pending_of c.new.order c.new.counts c.new.slots singles) s)
        payload.now }
    ensures held { Held c.new.order c.new.counts }
    ensures others { (c.new.slots ≡ c.old.slots) × (c.new.singles ≡ c.old.singles)
        × (c.new.ais ≡ c.old.ais) }
    ensures kept { OnErr result (c.new ≡ c.old) }
{
    if attr < 4 {
        return Err(Refusal::Invalid);
    }
    if payload.len() < 4 {
        return Err(Refusal::Fault);
    }
    let word = numbers::read_word(payload, 0);
    if word == 0 {
        return Err(Refusal::Invalid);
    }
    let Found::At(isc, at) = store_search::find(
        &c.slots,
        &c.order,
        &c.counts,
        255,
        Some(Subchannel(word)),
    ) else {
        return Ok(0); // no record is for it
    };
    store_queues::remove(&mut c.order, &mut c.counts, store_queues::of(isc), at);
    Ok(1)
}

// Writes a record to the buffer's start. The answer is how many records that are.
fn hand(out: &mut [u8], r: [u8; 72]) -> u64
    requires { 72 ≤ length out.old }
    ensures { (result ≡ 1) × (out.new ≡ r ++ drop 72 out.old) }
{
    numbers::save(out, 0, r);
    1 // one record
}

// The record of the nine queues that a take hands out, its queue and its place there, or none: the oldest finished page
// fault, where external interrupts are allowed, else the first I/O record that is allowed.
fn next_queued(c: &Controller, subclasses: u8, external: bool) -> Option<(Queue, usize)>
    requires { Held c.now.order c.now.counts }
    ensures place { NextIn c.now.counts result }
    ensures hands { (singles : List ℕ)
        → hands_queued (pending_of c.now.order c.now.counts c.now.slots singles)
        subclasses external
        ≡ handed_next result (queues c.now.order c.now.counts c.now.slots)
        (pending_of c.now.order c.now.counts c.now.slots singles) }
{
    if external && 0 < store_queues::count(&c.counts, store_queues::done()) {
        return Some((store_queues::done(), 0));
    }
    let allowed = subclasses & store_queues::nonempty(&c.counts);
    let Found::At(isc, at) = store_search::find(&c.slots, &c.order, &c.counts, allowed, None) else {
        return None;
    };
    Some((store_queues::of(isc), at))
}

// The guest take. A record is written to the buffer before it is removed: its bytes then go from slot to buffer. The
// two single records have a branch each, since each is asked for by a flag of its own.
pub fn take(
    c: &mut Controller,
    subclasses: u8,
    external: bool,
    mcheck: bool,
    out: &mut [u8],
) -> Result<u64, Refusal>
    requires { Held c.old.order c.old.counts }
    ensures answer { (L : Limits) (s : State) → s.pending ≡ pending_in c.old
        → Answers L s out.old (takes s subclasses external mcheck out.old) (as_answer result)
        (with_pending (pending_in c.new) s) out.new }
    ensures held { Held c.new.order c.new.counts }
    ensures others { (c.new.slots ≡ c.old.slots) × (c.new.ais ≡ c.old.ais) }
    ensures kept { OnErr result ((c.new ≡ c.old) × (out.new ≡ out.old)) }
{
    if out.len() < 72 {
        return Err(Refusal::Fault);
    }
    if mcheck && store_singles::is_there(&c.singles, Single::MachineCheck) {
        let count = hand(out, store_singles::read(&c.singles, Single::MachineCheck));
        store_singles::remove(&mut c.singles, Single::MachineCheck);
        return Ok(count);
    }
    if external && store_singles::is_there(&c.singles, Single::Service) {
        let count = hand(out, store_singles::read(&c.singles, Single::Service));
        store_singles::remove(&mut c.singles, Single::Service);
        return Ok(count);
    }
    let Some((q, at)) = next_queued(c, subclasses, external) else {
        return Ok(0); // the buffer is not touched
    };
    let count = hand(
        out,
        store_queues::read(&c.slots, &c.order, &c.counts, q, at),
    );
    store_queues::remove(&mut c.order, &mut c.counts, q, at);
    Ok(count)
}
