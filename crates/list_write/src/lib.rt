// Inner crate: writing a move list from lent memory, with the adapter places in an image of the table. Functions are
// given the index to write at, and there is no text that grows: entries and payloads lie apart, each place counted
// before.
#![tactic(auto)]

ghost use Rattle.std.specs.Prelude.{◌≡◌, ◌+◌, ◌*◌, ◌≤◌, ℕ, length, ◌&&◌, ◌||◌};
ghost use mathlib.Core.List.{[], List, ◌∷◌, flatten};
ghost use Rattle.rules.specs.Bytes.{choose};
ghost use Rattle.rules.specs.MoveList.{one_if, table_entry_bytes, payloads, written_table, header_bytes};
ghost use Rattle.rules.specs.MoveList.{payload_offset};
ghost use Rattle.list_write.specs.Parts.{put, five, each, is_written, group_of, size_of, payload_of};
ghost use Rattle.list_image.specs.Image.{image_size};
ghost use Rattle.rules.specs.State.{Record, record_bytes, listing};
ghost use Rattle.rules.specs.Requests.{non_zero};
ghost use Rattle.store_queues.specs.Queues.{Held};
ghost use Rattle.store.specs.Memory.{pending_in};
ghost use Rattle.list_write.specs.Write.{other_entries, entries_from, other_count, count_of, bytes_of, most_entries};
ghost use Rattle.list_write.specs.Write.{most_payload, Counted, WholeListing, Written};
ghost use Rattle.store_queues.specs.Slots.{most_pending};

use adapters::{Device, Place};
use answers::Refusal;
use numbers::{AdapterId, IDS, PLACES};
use store::Controller;

// Four words and a number of w bytes, from index at on.
#[tactic(auto, using(crate::proofs::Entries::five_numbers))]
pub fn put_five(out: &mut [u8], at: usize, w: usize, a: u64, b: u64, c: u64, d: u64, e: u64)
    requires { (w ≤ 8) × (at + 16 + w ≤ length out.old) }
    ensures { out.new ≡ put out.old at (five w a b c d e) }
{
    numbers::write_be(out, at, 4, a);
    numbers::write_be(out, at + 4, 4, b);
    numbers::write_be(out, at + 8, 4, c);
    numbers::write_be(out, at + 12, 4, d);
    numbers::write_be(out, at + 16, w, e);
}

// A table entry, if there is one. A flag and not an Option of the four numbers: each call would only wrap them.
#[tactic(auto, using(crate::proofs::Entries::put_none), unfolding(rules::specs::Bytes::choose))]
pub fn put_slot(out: &mut [u8], on: bool, at: usize, pay: u64, group: u64, size: u64, attr: u64)
    requires { at + table_entry_bytes * one_if on ≤ length out.old }
    ensures { out.new ≡ put out.old at (choose on (five 8 pay group size 0 attr) []) }
{
    if on {
        put_five(out, at, 8, pay, group, size, 0, attr);
    }
}

// Which entry of an adapter is meant, by its group.
#[derive(Clone, Copy, Debug, PartialEq, Eq)]
pub enum Entry {
    Register = 6,
    Modify = 7,
}

impl Entry {
    // Whether a place has such an entry.
    fn is_written(self, p: Place) -> bool
        ensures { result ≡ is_written self p }
    {
        match self {
            Entry::Register => p.used,
            Entry::Modify => p.used && p.masked,
        }
    }

    fn group(self) -> u64
        ensures { result ≡ group_of self }
    {
        self as u64
    }

    // The length of its payload.
    fn size(self) -> usize
        ensures { (result ≡ size_of self) × (result ≤ 16) }
    {
        match self {
            Entry::Register => 8,
            Entry::Modify => 16,
        }
    }
}

// The payload of a place's entry.
#[tactic(auto, using(crate::proofs::Entries::payload))]
fn put_payload(out: &mut [u8], at: usize, id: AdapterId, p: Place, entry: Entry)
    requires { (p.isc.0 ≤ 7) × (at + size_of entry ≤ length out.old) }
    ensures { out.new ≡ put out.old at (payload_of entry id.0 p) }
{
    numbers::write_be(out, at, 4, id.0);
    match entry {
        Entry::Register => {
            let flags = u64::from(p.maskable) * 65536
                + u64::from(p.swap) * 256
                + u64::from(p.suppressible);
            numbers::write_be(
                out,
                at + 4,
                4,
                numbers::subclass_byte(p.isc) * 16777216 + flags,
            );
        }
        Entry::Modify => {
            numbers::write_be(out, at + 4, 4, 16842752); // type 1, mask 1, two unread bytes
            numbers::write_be(out, at + 8, 8, 0);
        }
    }
}

// How many adapters have an entry.
#[tactic(auto, using(crate::proofs::Entries::turns))]
pub fn count(image: &[u64; PLACES], entry: Entry) -> usize
    ensures { (result ≡ length (each entry image.now)) × (result ≤ image_size) }
{
    // A loop, not a chain of iterators: the chain copies the image by memcpy, and flic.h says that the library needs
    // none.
    let mut n = 0;
    for i in 0..IDS {
        if entry.is_written(list_image::place_at(image, AdapterId(i))) {
            n += 1;
        }
    }
    n
}

// The table entries of the adapters, by rising id; the first payload begins at pay.
#[tactic(auto, using(crate::proofs::Entries::turns))]
pub fn put_slots(out: &mut [u8], at: usize, pay: usize, image: &[u64; PLACES], entry: Entry)
    requires { (pay ≤ 65536)
        × (at + table_entry_bytes * length (each entry image.now) ≤ length out.old) }
    ensures { out.new ≡ put out.old at
        (written_table pay (each entry image.now)) }
{
    let group = entry.group();
    let size = entry.size();
    let mut a = at;
    let mut p = pay;
    for i in 0..IDS {
        if entry.is_written(list_image::place_at(image, AdapterId(i))) {
            put_five(out, a, 8, p as u64, group, size as u64, 0, 0);
            a += 24;
            p += size;
        }
    }
}

// The payloads of the adapters' entries, by rising id.
#[tactic(auto, using(crate::proofs::Entries::turns))]
pub fn put_adapter_payloads(out: &mut [u8], at: usize, image: &[u64; PLACES], entry: Entry)
    requires { (at + size_of entry * length (each entry image.now) ≤ length out.old) }
    ensures { out.new ≡ put out.old at (payloads (each entry image.now)) }
{
    let size = entry.size();
    let mut a = at;
    for i in 0..IDS {
        let p = list_image::place_at(image, AdapterId(i));
        if entry.is_written(p) {
            put_payload(out, a, AdapterId(i), p, entry);
            a += size;
        }
    }
}

// How many REGISTER, MODIFY and pending records a list has, and whether it has AISM_ALL and APF_ENABLE. That the
// numbers are those of an image and a listing is said where these are at hand (`Counted`, `WholeListing`).
#[derive(Clone, Copy)]
pub struct Parts {
    pub registers: usize,
    pub modifies: usize,
    pub records: usize,
    pub masks: bool,
    pub apf: bool,
}

// Capable, and a mask is not 0.
fn has_masks(ais: bool, device: Device) -> bool
    ensures { result ≡ (ais && (non_zero device.simm || non_zero device.nimm)) }
{
    ais && (device.simm != 0 || device.nimm != 0)
}

fn entry_count(p: Parts) -> usize
    requires { (p.registers ≤ image_size) × (p.modifies ≤ image_size) }
    ensures { (result ≡ count_of p) × (result ≤ most_entries) }
{
    let last = usize::from(0 < p.records) + usize::from(p.masks) + usize::from(p.apf);
    p.registers + p.modifies + last
}

fn payload_bytes(p: Parts) -> usize
    requires { (p.registers ≤ image_size) × (p.modifies ≤ image_size) × (p.records ≤ most_pending) }
    ensures { (result ≡ bytes_of p) × (result ≤ most_payload) }
{
    8 * p.registers + 16 * p.modifies + 72 * p.records + 2 * usize::from(p.masks)
}

// The table entries of ENQUEUE, AISM_ALL and APF_ENABLE, the first payload at pay.
#[tactic(auto, using(crate::proofs::Laws::others_put, numbers::proofs::Laws::flag))]
fn put_others(out: &mut [u8], at: usize, pay: usize, p: Parts)
    requires { (p.records ≤ most_pending) × (pay ≤ payload_offset most_entries + most_payload)
        × (at + table_entry_bytes * other_count p ≤ length out.old) }
    ensures { (rs : List Record) (simm nimm : ℕ) → WholeListing rs p.records → out.new ≡
        put out.old at (written_table pay (other_entries rs p.masks simm nimm p.apf)) }
{
    let queued = 0 < p.records;
    let bytes = 72 * p.records;
    let masks = usize::from(p.masks);
    put_slot(out, queued, at, pay as u64, 2, bytes as u64, bytes as u64);
    let next = at + 24 * usize::from(queued);
    put_slot(out, p.masks, next, (pay + bytes) as u64, 11, 2, 0);
    let last = (pay + bytes + 2 * masks) as u64;
    put_slot(out, p.apf, next + 24 * masks, last, 4, 0, 0);
}

// The table, its first payload at start.
fn put_table(out: &mut [u8], start: usize, image: &[u64; PLACES], p: Parts)
    requires { Counted image.now p × (start ≤ payload_offset most_entries)
        × (header_bytes + table_entry_bytes * count_of p ≤ length out.old) }
    ensures { (rs : List Record) (simm nimm : ℕ) → WholeListing rs p.records → out.new ≡
        put out.old header_bytes
        (written_table start (entries_from image.now rs p.masks simm nimm p.apf)) }
{
    put_slots(out, 20, start, image, Entry::Register);
    let at = 20 + 24 * p.registers;
    let pay = start + 8 * p.registers;
    put_slots(out, at, pay, image, Entry::Modify);
    put_others(out, at + 24 * p.modifies, pay + 16 * p.modifies, p);
}

// The listing, from index at on.
#[tactic(auto, using(crate::proofs::Laws::listing_put))]
fn put_listing(out: &mut [u8], c: &Controller, at: usize, n: usize)
    requires { Held c.now.order c.now.counts × WholeListing (listing (pending_in c.now)) n
        × (at + record_bytes * n ≤ length out.old) }
    ensures { out.new ≡ put out.old at (flatten (listing (pending_in c.now))) }
{
    record_take::list_all(c, &mut out[at..]);
}

// Both masks, if they are written. A flag for the reason that put_slot has.
#[tactic(auto, using(crate::proofs::Entries::two), unfolding(rules::specs::Bytes::choose))]
fn put_masks(out: &mut [u8], on: bool, at: usize, simm: u8, nimm: u8)
    requires { at + 2 * one_if on ≤ length out.old }
    ensures { out.new ≡ put out.old at (choose on (simm ∷ nimm ∷ []) []) }
{
    if on {
        out[at] = simm;
        out[at + 1] = nimm;
    }
}

// The payloads, from start on.
#[tactic(auto, using(crate::proofs::Laws::payloads_put))]
fn put_payloads(
    out: &mut [u8],
    c: &Controller,
    start: usize,
    image: &[u64; PLACES],
    device: Device,
    p: Parts,
)
    requires { Held c.now.order c.now.counts × Counted image.now p
        × WholeListing (listing (pending_in c.now)) p.records
        × (start ≤ payload_offset most_entries) × (start + bytes_of p ≤ length out.old) }
    ensures { out.new ≡ put out.old start
        (payloads (entries_from image.now (listing (pending_in c.now)) p.masks device.simm device.nimm p.apf)) }
{
    put_adapter_payloads(out, start, image, Entry::Register);
    let mut at = start + 8 * p.registers;
    put_adapter_payloads(out, at, image, Entry::Modify);
    at += 16 * p.modifies;
    put_listing(out, c, at, p.records);
    at += 72 * p.records;
    put_masks(out, p.masks, at, device.simm, device.nimm);
}

// A move list is written from the buffer's start; where the buffer is too short nothing is.
pub fn write_list(
    c: &Controller,
    device: Device,
    image: &[u64; PLACES],
    out: &mut [u8],
) -> Result<u64, Refusal>
    requires { Held c.now.order c.now.counts }
    ensures { Written c.now.ais device image.now (pending_in c.now) out.old out.new result }
{
    let p = Parts {
        registers: count(image, Entry::Register),
        modifies: count(image, Entry::Modify),
        records: record_take::pending_whole(c),
        masks: has_masks(c.ais, device),
        apf: device.apf,
    };
    let n = entry_count(p);
    let start = 20 + 24 * n;
    let total = start + payload_bytes(p);
    if out.len() < total {
        return Err(Refusal::NoMemory);
    }
    put_five(
        out,
        0,
        4,
        total as u64,
        n as u64,
        20,
        start as u64,
        u64::from(c.ais),
    );
    put_table(out, start, image, p);
    put_payloads(out, c, start, image, device, p);
    Ok(total as u64)
}
