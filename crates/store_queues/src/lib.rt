// Inner crate: nine queues. Each is a row of slot numbers, oldest first, with a count. One more row has the free slots.
// Arrays of fixed size, as C lends them. A function is lent those that it works on, and no struct with more: of what it
// is not lent no clause has to say that it stays.
#![tactic(auto)]

ghost use Rattle.std.specs.Prelude.{◌≡◌, ◌+◌, ◌-◌, ◌≤◌, ◌*◌, ◌<◌, length, drop, get_or};
ghost use lib.Seq.{paste};
ghost use Rattle.store_queues.specs.Slots.{slot, Stored, slot_count};
ghost use mathlib.Core.List.{[], ◌++◌, flatten};
ghost use Rattle.store_queues.specs.Queues.{row, total, waiting, queues, listed, up_from};
ghost use Rattle.store_queues.specs.Queues.{Counted, Held, Appended, Removed, Emptied};

use numbers::{COUNTS, ORDER_BYTES, QUEUES, Queue, ROOM, SLOT_BYTES, Subclass};

// Moves the entries at indices lo + 1 to end down by one.
pub fn move_down(o: &mut [u8], lo: usize, end: usize)
    requires { (lo ≤ end) × (end + 1 ≤ length o.old) }
    ensures { o.new ≡ paste o.old lo (drop (lo + 1) o.old) (end - lo) }
{
    // A loop, not copy_within: that call becomes a memmove, and flic.h says that the library needs none.
    for i in lo..end {
        o[i] = o[i + 1];
    }
}

// Puts a record into slot s.
pub fn write_slot(b: &mut [u8; SLOT_BYTES], s: u8, r: [u8; 72])
    ensures { Stored s r b.old b.new }
{
    numbers::save(b, usize::from(s) * 72, r);
}

// The record in slot s.
pub fn read_slot(b: &[u8; SLOT_BYTES], s: u8) -> [u8; 72]
    ensures { result ≡ slot 72 b.now s }
{
    numbers::load(b, usize::from(s) * 72)
}

// The queue of a subclass. Not From: tests/kinds-apart wants another kind refused as a mismatch of types.
pub fn of(isc: Subclass) -> Queue
    ensures { result ≡ record { 0 = isc.0 } }
{
    Queue(usize::from(isc.0))
}

// The queue of finished page faults.
pub fn done() -> Queue
    ensures { result ≡ record { 0 = 8 } }
{
    Queue(8)
}

// How many records the nine queues hold.
pub fn queued(c: &[usize; COUNTS]) -> usize
    ensures { result ≡ total c.now }
{
    c[9]
}

// The subclasses that have records, as the bits of a mask.
pub fn nonempty(c: &[usize; COUNTS]) -> u8
    requires { Counted c.now }
    ensures { result ≡ waiting c.now }
{
    c[10] as u8
}

// How many records a queue holds.
pub fn count(c: &[usize; COUNTS], q: Queue) -> usize
    requires { q.0 < 9 }
    ensures { result ≡ get_or c.now q.0 0 }
{
    let i = q.0;
    c[i]
}

// The slot of a queue's record at a place, oldest first.
pub fn slot_of(o: &[u8; ORDER_BYTES], q: Queue, at: usize) -> u8
    requires { (q.0 < 9) × (at < slot_count) }
    ensures { result ≡ get_or o.now (q.0 * slot_count + at) 0 }
{
    let i = q.0 * ROOM + at;
    o[i]
}

// Appends r to a queue. The queues hold n records together. The record is written before the order and the counts, so
// that its bytes go straight from registers to the slot.
#[tactic(auto, using(crate::proofs::Counts::held_few))]
pub fn append(
    b: &mut [u8; SLOT_BYTES],
    o: &mut [u8; ORDER_BYTES],
    c: &mut [usize; COUNTS],
    q: Queue,
    n: usize,
    r: [u8; 72],
)
    requires { (q.0 < 9) × (n ≡ total c.old) × (n < slot_count) × Held o.old c.old }
    ensures { Appended q.0 r o.old c.old b.old
        o.new c.new b.new }
{
    let s = o[ORDER_BYTES - 1 - n];
    write_slot(b, s, r);
    let i = q.0;
    let k = c[i];
    let mask = c[10];
    o[i * ROOM + k] = s;
    c[i] = k + 1;
    c[9] = n + 1;
    if k == 0 {
        c[10] = mask + (128 >> i);
    }
}

// Takes the record at a place out of its queue. Its slot is then free, and is the next one to be used.
#[tactic(auto, using(crate::proofs::Counts::held_few))]
pub fn remove(o: &mut [u8; ORDER_BYTES], c: &mut [usize; COUNTS], q: Queue, at: usize)
    requires { (q.0 < 9) × (at < get_or c.old q.0 0) × Held o.old c.old }
    ensures { Removed q.0 at o.old c.old o.new c.new }
{
    let i = q.0;
    let start = i * ROOM;
    let s = o[start + at];
    let k = c[i] - 1;
    let n = c[9];
    let mask = c[10];
    move_down(o, start + at, start + k);
    o[ORDER_BYTES - n] = s;
    c[i] = k;
    c[9] = n - 1;
    if k == 0 {
        c[10] = mask - (128 >> i);
    }
}

// The record at a place of a queue.
#[tactic(auto, using(crate::proofs::Counts::held_few))]
pub fn read(
    b: &[u8; SLOT_BYTES],
    o: &[u8; ORDER_BYTES],
    c: &[usize; COUNTS],
    q: Queue,
    at: usize,
) -> [u8; 72]
    requires { (q.0 < 9) × (at < get_or c.now q.0 0) × Held o.now c.now }
    ensures { result ≡ get_or (get_or (queues o.now c.now b.now) q.0 []) at [] }
{
    read_slot(b, slot_of(o, q, at))
}

// Writes the first n records of queue q to out, one after the other, from index at.
fn list_queue(
    b: &[u8; SLOT_BYTES],
    o: &[u8; ORDER_BYTES],
    q: Queue,
    n: usize,
    out: &mut [u8],
    at: usize,
)
    requires { (q.0 < 9) × (n ≤ slot_count) × (length o.now ≡ 10 * slot_count)
        × (at + n * 72 ≤ length out.old) }
    ensures out_after { out.new
        ≡ paste out.old at (flatten (listed b.now (row o.now q.0 n))) (n * 72) }
    ensures long { length (flatten (listed b.now (row o.now q.0 n))) ≡ n * 72 }
{
    for k in 0..n {
        numbers::save(out, at + k * 72, read_slot(b, slot_of(o, q, k)));
    }
}

// Writes all records to out, one after the other, in listing order.
#[tactic(auto, using(crate::proofs::Laws::queue_fits))]
pub fn list(b: &[u8; SLOT_BYTES], o: &[u8; ORDER_BYTES], c: &[usize; COUNTS], out: &mut [u8])
    requires { Held o.now c.now × (total c.now * 72 ≤ length out.old) }
    ensures { out.new ≡ flatten (flatten (queues o.now c.now b.now))
        ++ drop (total c.now * 72) out.old }
{
    let mut at = 0;
    for (i, &n) in c[..QUEUES].iter().enumerate() {
        list_queue(b, o, Queue(i), n, out, at);
        at += n * 72;
    }
}

// Makes every slot free: the last row has them all.
fn free_all(o: &mut [u8])
    requires { length o.old ≡ 10 * slot_count }
    ensures { o.new ≡ paste o.old (9 * slot_count) (up_from 0 slot_count) slot_count }
{
    for i in 0..ROOM {
        o[QUEUES * ROOM + i] = i as u8;
    }
}

// Removes all records and makes every slot free, whatever was there before.
pub fn reset(o: &mut [u8; ORDER_BYTES], c: &mut [usize; COUNTS])
    ensures { Emptied o.new c.new }
{
    free_all(o);
    *c = [0usize; COUNTS];
}

// Removes all records.
pub fn clear(o: &mut [u8; ORDER_BYTES], c: &mut [usize; COUNTS])
    requires { Held o.old c.old }
    ensures { Emptied o.new c.new }
{
    if c[9] == 0 {
        return;
    }
    reset(o, c);
}
