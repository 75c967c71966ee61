// Inner crate: the form of a move list that is to be played.
#![tactic(auto)]

ghost use Rattle.std.specs.Prelude.{◌≡◌, ◌&&◌, ◌+◌, ◌*◌, ◌≤◌, ◌<◌, length, drop, leb, eqb};
ghost use Rattle.rules.specs.MoveList.{header_bytes, table_entry_bytes, table_offset_in, payload_offset_in};
ghost use Rattle.rules.specs.MoveList.{payload_offset, table_entries_in, movable, formed, most_requests};
ghost use Rattle.list_form.specs.Form.{slot_at, slot_formed, Form};

use answers::Refusal;
use numbers::MOST_REQUESTS;

// Whether a list may hold a request of this group: 2, 4, 6, 7 or 11.
fn is_movable(group: u64) -> bool
    ensures { result ≡ movable group }
{
    matches!(group, 2 | 4 | 6 | 7 | 11)
}

// Whether the table entry at a place has its payload at this offset, a zero word and a group that may be moved.
#[tactic(auto, using(crate::proofs::Laws::words))]
fn slot_formed(list: &[u8], place: usize, at: u64) -> bool
    requires { (place < most_requests) × (header_bytes + table_entry_bytes * (place + 1) ≤ length list.now) }
    ensures { result ≡ slot_formed at (slot_at place list.now) }
{
    let e = 20 + 24 * place;
    numbers::read_be(list, e, 4) == at // where the one before ended
        && numbers::read_be(list, e + 12, 4) == 0
        && is_movable(numbers::read_be(list, e + 4, 4))
}

// Whether every table entry is well formed and the last payload ends where the list ends.
#[tactic(auto, using(crate::proofs::Laws::turns))]
fn slots_formed(list: &[u8], count: usize) -> bool
    requires { (count ≤ most_requests) × (payload_offset count ≤ length list.now) }
    ensures { result ≡ formed (length list.now) (payload_offset count)
        (table_entries_in count (drop header_bytes list.now)) }
{
    let mut at = (20 + 24 * count) as u64;
    for i in 0..count {
        if !slot_formed(list, i, at) {
            return false;
        }
        at += numbers::read_be(list, 28 + 24 * i, 4); // cannot wrap: MOST_REQUESTS lengths below 2^32
    }
    at == list.len() as u64
}

// Whether both offsets are what the count says and the payload offset is not above the total.
fn offsets(list: &[u8], count: u64) -> bool
    requires { (header_bytes ≤ length list.now) × (count ≤ most_requests) }
    ensures { result ≡ (eqb (table_offset_in list.now) header_bytes
        && (eqb (payload_offset_in list.now) (payload_offset count)
        && leb (payload_offset_in list.now) (length list.now))) }
{
    let start = numbers::read_be(list, 12, 4);
    numbers::read_be(list, 8, 4) == 20 && start == 20 + 24 * count && start <= list.len() as u64
}

// Refuses a list by its form and by the capability.
pub fn form(list: &[u8], ais: bool) -> Result<(), Refusal>
    ensures { Form ais list.now result }
{
    if list.len() < 20 {
        return Err(Refusal::Fault);
    }
    if numbers::read_be(list, 0, 4) != list.len() as u64 {
        return Err(Refusal::Invalid); // another total
    }
    let flag = numbers::read_be(list, 16, 4);
    if 1 < flag {
        return Err(Refusal::Invalid);
    }
    let count = numbers::read_be(list, 4, 4);
    if MOST_REQUESTS < count {
        return Err(Refusal::TooBig);
    }
    if !offsets(list, count) || !slots_formed(list, count as usize) {
        return Err(Refusal::Invalid);
    }
    if flag != u64::from(ais) {
        return Err(Refusal::NotSupported);
    }
    Ok(())
}
