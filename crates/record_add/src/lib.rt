// Inner crate: records that come into lent memory: ENQUEUE, and the record of an adapter interrupt.
#![tactic(auto)]

ghost use Rattle.std.specs.Prelude.{◌≡◌, List, ℕ, ◌+◌, ◌*◌, ◌≤◌, ◌<◌, length, OnErr};
ghost use Rattle.rules.specs.Bytes.{part};
ghost use Rattle.rules.specs.State.{Limits, State, with_pending, subclass, kind, add_io, add, add_all};
ghost use Rattle.rules.specs.Requests.{enqueue, enqueue_bytes, records_in, wants, all_want, adapter_interrupt, request};
ghost use Rattle.store_queues.specs.Slots.{slot_count};
ghost use Rattle.store_queues.specs.Queues.{total, Held};
ghost use Rattle.answers.specs.declared.Refusal.TheVariants.{Invalid};
ghost use Rattle.answers.specs.Answers.{Answers, as_answer};
ghost use Rattle.store.specs.Memory.{pending_of, pending_in};
ghost use Rattle.record_add.specs.Cases.{kind_case, check_from, answer_to};

use answers::Refusal;
use numbers::{ENQUEUE_BYTES, Subclass};
use store::Controller;

// The kind of a record, with the subclass of an I/O record.
#[derive(Clone, Copy, Debug, PartialEq, Eq)]
pub enum Kind {
    Io(Subclass),
    Done,
    Service,
    MachineCheck,
    Other,
}

// The subclass of the I/O record at index at of b.
fn subclass_at(b: &[u8], at: usize) -> Subclass
    requires { at + 72 ≤ length b.now }
    ensures { result ≡ record { 0 = subclass (part at 72 b.now) } }
{
    let word = numbers::read_be(b, at + 16, 4);
    Subclass((word / 134217728 % 8) as u8)
}

// The kind of the record at index at of b. A record is given as bytes and an index, here and below, since it is checked
// and added where it lies.
pub fn kind_at(b: &[u8], at: usize) -> Kind
    requires { at + 72 ≤ length b.now }
    ensures { result ≡ kind_case (part at 72 b.now) }
{
    match numbers::read_doubleword(b, at) {
        t if t <= 0xfffd_ffff => Kind::Io(subclass_at(b, at)),
        0xfffe_0005 => Kind::Done,
        0xfffe_1000 => Kind::MachineCheck,
        0xffff_2401 => Kind::Service,
        _ => Kind::Other,
    }
}

// What a check of records refuses: the index of the first record of another type than those of the rules.
#[derive(Clone, Copy, Debug, PartialEq, Eq)]
pub struct BadRecord {
    pub at: usize,
}

impl From<BadRecord> for Refusal {
    ghost from_gives = { λ bad refusal. refusal ≡ Invalid };

    fn from(_bad: BadRecord) -> Refusal {
        Refusal::Invalid
    }
}

// Checks the first n records of b, for any n that fits: how many of them go to a queue, where every one has an accepted
// type.
pub fn check(b: &[u8], n: usize) -> Result<usize, BadRecord>
    requires { (n * 72 ≤ enqueue_bytes) × (n * 72 ≤ length b.now) }
    ensures { result ≡ check_from 0 0 (records_in n b.now) }
{
    let mut wanted = 0;
    // An index, not chunks of 72 bytes: kind_at, which the listing program calls too, is given the bytes and an index.
    for place in 0..n {
        match kind_at(b, place * 72) {
            Kind::Io(_) | Kind::Done => wanted += 1,
            Kind::Service | Kind::MachineCheck => {}
            Kind::Other => return Err(BadRecord { at: place }),
        }
    }
    Ok(wanted)
}

// The answer to an ENQUEUE of the first n records of b. `queued` records are queued before it.
fn answer_to(b: &[u8], n: usize, queued: usize, room: usize) -> Result<u64, Refusal>
    requires { (n * 72 ≤ enqueue_bytes) × (n * 72 ≤ length b.now) × (queued ≤ slot_count) }
    ensures { result ≡ answer_to (check_from 0 0 (records_in n b.now)) n queued room }
{
    let wanted = check(b, n)?;
    if room < queued + wanted {
        return Err(Refusal::Busy);
    }
    Ok(n as u64)
}

// Adds the record at index `at` of b. `queued` records are queued before; the answer is how many are queued after.
fn add_one(c: &mut Controller, b: &[u8], at: usize, queued: usize) -> usize
    requires { (at + 72 ≤ length b.now) × (queued ≡ total c.old.counts) × Held c.old.order c.old.counts
        × (total c.old.counts + wants (kind (part at 72 b.now)) ≤ slot_count) }
    ensures pending { pending_in c.new ≡ add (part at 72 b.now) (pending_in c.old) }
    ensures held { Held c.new.order c.new.counts × (result ≡ total c.new.counts)
        × (result ≡ queued + wants (kind (part at 72 b.now))) }
    ensures others { c.new.ais ≡ c.old.ais }
{
    // The record is loaded in each case. If it were loaded before the match, the merge of a machine check would split
    // the copy into bytes for every kind.
    match kind_at(b, at) {
        Kind::Io(isc) => {
            store_queues::append(
                &mut c.slots,
                &mut c.order,
                &mut c.counts,
                store_queues::of(isc),
                queued,
                numbers::load(b, at),
            );
            queued + 1
        }
        Kind::Done => {
            store_queues::append(
                &mut c.slots,
                &mut c.order,
                &mut c.counts,
                store_queues::done(),
                queued,
                numbers::load(b, at),
            );
            queued + 1
        }
        Kind::Service => {
            store_singles::add_service(&mut c.singles, numbers::load(b, at));
            queued
        }
        Kind::MachineCheck => {
            store_singles::add_mchk(&mut c.singles, numbers::load(b, at));
            queued
        }
        Kind::Other => queued,
    }
}

// Adds the first n records of b in order. `queued` records are queued before.
fn add_all(c: &mut Controller, b: &[u8], n: usize, queued: usize)
    requires { (n * 72 ≤ enqueue_bytes) × (n * 72 ≤ length b.now) × (queued ≡ total c.old.counts)
        × Held c.old.order c.old.counts × (total c.old.counts + all_want (records_in n b.now) ≤ slot_count) }
    ensures pending { pending_in c.new ≡ add_all (records_in n b.now) (pending_in c.old) }
    ensures held { Held c.new.order c.new.counts }
    ensures others { c.new.ais ≡ c.old.ais }
{
    let mut held = queued;
    for i in 0..n {
        held = add_one(c, b, i * 72, held);
    }
}

// Group 2: all records are added, or none if the request is refused.
pub fn enqueue_irqs(
    c: &mut Controller,
    room: usize,
    attr: u64,
    payload: &[u8],
) -> Result<u64, Refusal>
    requires { (room ≤ slot_count) × Held c.old.order c.old.counts }
    ensures answer { (L : Limits) (s : State) → L.room ≡ room → s.pending ≡ pending_in c.old
        → Answers L s payload.now (request L s enqueue attr payload.now) (as_answer result)
        (with_pending (pending_in c.new) s) payload.now }
    ensures held { Held c.new.order c.new.counts × (c.new.ais ≡ c.old.ais) }
    ensures kept { OnErr result (c.new ≡ c.old) }
{
    if attr == 0 || ENQUEUE_BYTES < attr || attr % 72 != 0 {
        return Err(Refusal::Invalid);
    }
    let bytes = attr as usize;
    if payload.len() < bytes {
        return Err(Refusal::Fault);
    }
    let n = bytes / 72;
    let queued = store_queues::queued(&c.counts);
    let count = answer_to(payload, n, queued, room)?;
    add_all(c, payload, n, queued);
    Ok(count)
}

// The record of an adapter interrupt.
fn interrupt(isc: Subclass) -> [u8; 72]
    requires { isc.0 ≤ 7 }
    ensures { result ≡ adapter_interrupt isc.0 }
{
    let mut r = [0u8; 72];
    r[4] = 4;
    r[16] = 128 + isc.0 * 8;
    r
}

// Group 10: the interrupt joins the queue of its subclass. n records are queued before, and there is room.
pub fn append_interrupt(c: &mut Controller, isc: Subclass, n: usize)
    requires { (isc.0 ≤ 7) × (n ≡ total c.old.counts) × (total c.old.counts < slot_count)
        × Held c.old.order c.old.counts }
    ensures pending { (singles : List ℕ) → pending_of c.new.order c.new.counts c.new.slots singles
        ≡ add_io isc.0 (adapter_interrupt isc.0) (pending_of c.old.order c.old.counts c.old.slots singles) }
    ensures held { Held c.new.order c.new.counts }
    ensures others { (c.new.singles ≡ c.old.singles) × (c.new.ais ≡ c.old.ais) }
{
    store_queues::append(
        &mut c.slots,
        &mut c.order,
        &mut c.counts,
        store_queues::of(isc),
        n,
        interrupt(isc),
    );
}
