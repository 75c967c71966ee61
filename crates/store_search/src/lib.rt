// Inner crate: the search over subclasses and records. A function is lent the arrays that it reads, and no struct with
// more, as in store_queues.
#![tactic(auto)]

ghost use Rattle.std.specs.Prelude.{◌≡◌, take, Some, None};
ghost use Rattle.rules.specs.Requests.{without_first};
ghost use Rattle.rules.specs.Take.{first_allowed};
ghost use Rattle.store_queues.specs.Slots.{slot};
ghost use Rattle.store_queues.specs.Queues.{queues, Held};
ghost use Rattle.store_search.specs.Search.{is_for_word, wanted, FoundIn, left_at, handed_at};

use numbers::{COUNTS, ORDER_BYTES, SLOT_BYTES, Subchannel, Subclass};

// What a search found: a record's subclass and its place in the queue of that subclass, or none.
// An enum of its own, not an Option: the project names At or None, and a loop left by its label, as the search's form.
#[derive(Clone, Copy, Debug, PartialEq, Eq)]
pub enum Found {
    At(Subclass, usize),
    None,
}

// Whether the record in slot s is for this subchannel.
fn is_for(b: &[u8; SLOT_BYTES], s: u8, word: Subchannel) -> bool
    ensures { result ≡ is_for_word word.0 (slot 72 b.now s) }
{
    Subchannel(numbers::read_word(b, usize::from(s) * 72 + 8)) == word
}

// Whether the record in slot s is wanted: any is where no subchannel is named.
fn is_wanted(b: &[u8; SLOT_BYTES], s: u8, subchannel: Option<Subchannel>) -> bool
    ensures { result ≡ wanted subchannel (slot 72 b.now s) }
{
    match subchannel {
        None => true,
        Some(word) => is_for(b, s, word),
    }
}

// The first record in listing order of one of the subclasses, and for the subchannel if one is named. It is compiled
// into its callers: as a function of its own it made a CLEAR_IO that finds nothing, with one record pending, take half
// as many instructions again.
#[inline(always)]
pub fn find(
    b: &[u8; SLOT_BYTES],
    o: &[u8; ORDER_BYTES],
    c: &[usize; COUNTS],
    subclasses: u8,
    subchannel: Option<Subchannel>,
) -> Found
    requires { Held o.now c.now }
    ensures clears { (word : Subchannel) → subchannel ≡ Some word → subclasses ≡ 255
        → without_first (is_for_word word.0) (take 8 (queues o.now c.now b.now))
        ≡ left_at result (take 8 (queues o.now c.now b.now)) }
    ensures hands { subchannel ≡ None
        → first_allowed 0 subclasses (take 8 (queues o.now c.now b.now))
        ≡ handed_at result (take 8 (queues o.now c.now b.now)) }
    ensures place { FoundIn c.now result }
{
    let mut found = Found::None;
    'search: for isc in 0..8 {
        if !adapters::has_bit(Subclass(isc), subclasses) {
            continue;
        }
        let q = store_queues::of(Subclass(isc));
        for k in 0..store_queues::count(c, q) {
            if is_wanted(b, store_queues::slot_of(o, q, k), subchannel) {
                found = Found::At(Subclass(isc), k);
                break 'search;
            }
        }
    }
    found
}
