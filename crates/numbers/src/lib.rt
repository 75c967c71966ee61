// Inner crate: group numbers, the limits, kinds of small numbers that must not be confused, big-endian numbers, and
// records of 72 bytes.
#![tactic(auto)]

ghost use Rattle.std.specs.Prelude.{◌≡◌, ◌+◌, ◌*◌, ◌^◌, ◌≤◌, ◌<◌, length};
ghost use lib.Seq.{paste};
ghost use Rattle.rules.specs.Bytes.{bytes, part, field};

// Group numbers, named and numbered as in kvm.h, without KVM_DEV_FLIC_ before the names.
pub const GET_ALL_IRQS: u32 = 1;

pub const ENQUEUE: u32 = 2;

pub const CLEAR_IRQS: u32 = 3;

pub const APF_ENABLE: u32 = 4;

pub const APF_DISABLE_WAIT: u32 = 5;

pub const ADAPTER_REGISTER: u32 = 6;

pub const ADAPTER_MODIFY: u32 = 7;

pub const CLEAR_IO_IRQ: u32 = 8;

pub const AISM: u32 = 9;

pub const AIRQ_INJECT: u32 = 10;

pub const AISM_ALL: u32 = 11;

// How many adapter places there are.
pub const PLACES: usize = 64;

// The same as a bound of ids: an adapter's id is below it.
pub const IDS: u64 = PLACES as u64;

// How many records the nine queues hold together, at most: the slots of the lent memory.
pub const ROOM: usize = 256;

// The longest ENQUEUE. It does not follow the limits.
pub const ENQUEUE_BYTES: u64 = 18576;

// The most requests of a played list. It does not follow the limits.
pub const MOST_REQUESTS: u64 = 131;

pub const SLOT_BYTES: usize = ROOM * 72;

// A queue for each subclass and one of finished page faults.
pub const QUEUES: usize = 9;

// Slot numbers: a row for each queue, and one of the free slots.
pub const ORDER_BYTES: usize = (QUEUES + 1) * ROOM;

// A count for each queue, then how many records the queues hold together, then the subclasses that have records, as the
// bits of a mask.
pub const COUNTS: usize = QUEUES + 2;

// The service record, the machine check, and a byte for each that says whether it is there.
pub const SINGLES_BYTES: usize = 2 * 72 + 2;

// An adapter's id: a place in the adapter table, and nothing else.
#[derive(Clone, Copy, Debug, PartialEq, Eq)]
pub struct AdapterId(pub u64);

// 2^32: an id that no table has. A request that is about no adapter is looked up under it.
pub const NO_ADAPTER: u64 = 4294967296;

// An interruption subclass, 0 to 7: it alone names an I/O queue or a bit of a mask. The type does not say that it is
// below 8, nor Queue that it is below 9: C lends places with any byte for it, and each byte names a queue.
#[repr(C)]
#[derive(Clone, Copy, Debug, PartialEq, Eq)]
pub struct Subclass(pub u8);

// One of the nine queues: 0 to 7 are those of the subclasses, 8 has the finished page faults.
#[derive(Clone, Copy, Debug, PartialEq, Eq)]
pub struct Queue(pub usize);

// A subchannel: its id and its number as one word, the id in front.
#[derive(Clone, Copy, Debug, PartialEq, Eq)]
pub struct Subchannel(pub u64);

// A subclass as a list's writer and the listing program write it.
// Not From: u64::from takes any number, and tests/kinds-apart wants another kind refused by its name.
pub fn subclass_byte(isc: Subclass) -> u64
    ensures { (result ≡ isc.0) × (result < 256) }
{
    u64::from(isc.0)
}

// The number that the n bytes from index at say, the first byte highest. No from_be_bytes: its array has the size of
// the type, and n is any number up to 8.
pub fn read_be(b: &[u8], at: usize, n: usize) -> u64
    requires { (n ≤ 8) × (at + n ≤ length b.now) }
    ensures { (result ≡ field at n b.now) × (result < 256 ^ n) }
{
    let mut v: u64 = 0;
    for x in &b[at..at + n] {
        v = v * 256 + u64::from(*x);
    }
    v
}

// The number that the 8 bytes from index at say.
pub fn read_doubleword(b: &[u8], at: usize) -> u64
    requires { at + 8 ≤ length b.now }
    ensures { (result ≡ field at 8 b.now) × (result < 256 ^ 8) }
{
    u64::from_be_bytes([
        b[at],
        b[at + 1],
        b[at + 2],
        b[at + 3],
        b[at + 4],
        b[at + 5],
        b[at + 6],
        b[at + 7],
    ])
}

// The number that the 4 bytes from index at say, and its two halves.
pub fn read_word(b: &[u8], at: usize) -> u64
    requires { at + 4 ≤ length b.now }
    ensures value { result ≡ field at 2 b.now * 65536 + field (at + 2) 2 b.now }
    ensures halves { (field at 2 b.now < 65536) × (field (at + 2) 2 b.now < 65536) }
{
    u64::from(u32::from_be_bytes([b[at], b[at + 1], b[at + 2], b[at + 3]]))
}

// Writes the n lowest bytes of v from index at, the highest of them first. No to_be_bytes, for the same reason.
pub fn write_be(b: &mut [u8], at: usize, n: usize, v: u64)
    requires { (n ≤ 8) × (at + n ≤ length b.old) }
    ensures { b.new ≡ paste b.old at (bytes n v) n }
{
    let mut w = v;
    for i in (0..n).rev() {
        b[at + i] = (w % 256) as u8;
        w /= 256;
    }
}

// The 72 bytes of src from index from.
pub fn load(src: &[u8], from: usize) -> [u8; 72]
    requires { from + 72 ≤ length src.now }
    ensures { result ≡ part from 72 src.now }
{
    let mut r = [0u8; 72];
    // A loop, not copy_from_slice: the loop compiles to vector moves, that call to a copy byte by byte.
    for i in 0..72 {
        r[i] = src[from + i];
    }
    r
}

// Writes r into dst from index at.
pub fn save(dst: &mut [u8], at: usize, r: [u8; 72])
    requires { at + 72 ≤ length dst.old }
    ensures { dst.new ≡ paste dst.old at r 72 }
{
    // A loop for the same reason as in load.
    for i in 0..72 {
        dst[at + i] = r[i];
    }
}
