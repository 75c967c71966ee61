// Inner crate: what the listing program prints for its input.
#![tactic(auto)]

ghost use Rattle.std.specs.Prelude.{◌≡◌, ℕ, List, [], ◌∷◌, ◌++◌, ◌+◌, ◌*◌, ◌≤◌, ◌<◌, length, take, drop};
ghost use Rattle.rules.specs.Bytes.{part};
ghost use Rattle.rules.specs.State.{listing};
ghost use Rattle.rules.specs.Requests.{records_in};
ghost use Rattle.store_queues.specs.Slots.{most_pending};
ghost use Rattle.rules.specs.Listing.{ascii, digit, digits, digit_count, decimal, hex8, line, record_line};
ghost use Rattle.rules.specs.Listing.{lines_from, shown, refusal, printed};
ghost use Rattle.store_queues.specs.Queues.{Held};
ghost use Rattle.listing_text.specs.Wrote.{Wrote};
ghost use Rattle.store.specs.Memory.{pending_in};

use answers::Refusal;
use numbers::{COUNTS, ORDER_BYTES, ROOM, SINGLES_BYTES, SLOT_BYTES, Subclass};
use record_add::Kind;
use std::marker::Model;
use store::Controller;

// Room for the longest text.
pub const TEXT_BYTES: usize = 8192;

// All records that can be pending.
const LISTING_BYTES: usize = (ROOM + 2) * 72;

// The character of a digit. `char::from_digit` is no plainer: its `None` would be a branch that never runs.
#[tactic(auto, unfolding(rules::specs::Listing::digit, rules::specs::Bytes::choose))]
fn letter(d: u64) -> u8
    requires { d < 16 }
    ensures { result ≡ digit d }
{
    if d < 10 {
        b'0' + d as u8
    } else {
        b'a' - 10 + d as u8
    }
}

// Fills out with the lowest digits of v to a base.
// By hand, and not by `write!`, whose promise on the text has the premise that it answers Ok, which nothing shows.
fn spell(out: &mut [u8], base: u64, v: u64)
    requires { (1 < base) × (base ≤ 16) }
    ensures { out.new ≡ digits base (length out.old) v }
{
    let mut w = v;
    // An index, not `iter_mut`: after it no proof knows the bytes.
    for i in (0..out.len()).rev() {
        out[i] = letter(w % base);
        w /= base;
    }
}

// How many decimal digits a number has.
fn decimal_size(v: u64) -> usize
    ensures { result ≡ digit_count v v }
{
    v.max(1).ilog10() as usize + 1
}

// A text that is written piece by piece. No String: nothing is allocated. It owns its bytes: with a borrowed buffer
// each clause would say as well that the field keeps its reference. Drop alone: nothing copies it.
#[derive(Drop)]
struct Text {
    bytes: [u8; TEXT_BYTES],
    len: usize,
}

// Clauses see the bytes written so far.
impl Model for Text {
    ghost Value = { List ℕ };

    ghost view = { λ t. take t.len t.bytes };

    ghost invariant = { λ t. t.len ≤ length t.bytes };
}

impl Text {
    fn new() -> Self
        ensures { result ≡ [] }
    {
        Text {
            bytes: [0; TEXT_BYTES],
            len: 0,
        }
    }

    fn append(&mut self, s: &[u8])
        requires { length self.old + length s.now ≤ TEXT_BYTES }
        ensures text { self.new ≡ self.old ++ s.now }
        ensures len { length self.new ≡ length self.old + length s.now }
    {
        let end = self.len + s.len();
        self.bytes[self.len..end].copy_from_slice(s);
        self.len = end;
    }

    // The n lowest digits of v to a base.
    fn digits(&mut self, base: u64, n: usize, v: u64)
        requires { (1 < base) × (base ≤ 16) × (length self.old + n ≤ TEXT_BYTES) }
        ensures text { self.new ≡ self.old ++ digits base n v }
        ensures len { length self.new ≡ length self.old + n }
    {
        let end = self.len + n;
        spell(&mut self.bytes[self.len..end], base, v);
        self.len = end;
    }

    // A number in decimal, and what comes after it.
    #[tactic(auto, unfolding(rules::specs::Listing::decimal))]
    fn decimal(&mut self, v: u64, then: &[u8])
        requires { length self.old + digit_count v v + length then.now ≤ TEXT_BYTES }
        ensures text { self.new ≡ self.old ++ (decimal v ++ then.now) }
        ensures len { length self.new ≡ length self.old + digit_count v v + length then.now }
    {
        self.digits(10, decimal_size(v), v);
        self.append(then);
    }

    // A number as eight hex digits, and what comes after it.
    fn hex8(&mut self, v: u64, then: &[u8])
        requires { length self.old + 8 + length then.now ≤ TEXT_BYTES }
        ensures text { self.new ≡ self.old ++ (hex8 v ++ then.now) }
        ensures len { length self.new ≡ length self.old + 8 + length then.now }
    {
        self.digits(16, 8, v);
        self.append(then);
    }

    // A line of a word and a number.
    #[tactic(auto, using(crate::proofs::Lines::words), unfolding(rules::specs::Listing::ascii))]
    fn number(&mut self, word: &[u8], v: u64)
        requires { length self.old + length word.now + 22 ≤ TEXT_BYTES }
        ensures text { self.new ≡ self.old ++ line (word.now ∷ decimal v ∷ []) }
        ensures len { length self.new ≤ length self.old + length word.now + 22 }
    {
        self.append(word);
        self.append(b" ");
        self.decimal(v, b"\n");
    }

    // What follows the place of an I/O record: kind, subclass, type and word.
    #[tactic(auto, using(crate::proofs::Lines::words), unfolding(rules::specs::Listing::ascii))]
    fn io(&mut self, isc: Subclass, t: u64, w: u64)
        requires { (isc.0 < 8) × (length self.old + 23 ≤ TEXT_BYTES) }
        ensures text { self.new
            ≡ self.old ++ line (ascii "io" ∷ decimal isc.0 ∷ hex8 t ∷ hex8 w ∷ []) }
        ensures len { length self.new ≡ length self.old + 23 }
    {
        self.append(b"io ");
        self.decimal(numbers::subclass_byte(isc), b" ");
        self.hex8(t, b" ");
        self.hex8(w, b"\n");
    }

    // The same for a record of another kind: no subclass and no word.
    #[tactic(auto, using(crate::proofs::Lines::words), unfolding(rules::specs::Listing::ascii))]
    fn other(&mut self, name: &[u8], t: u64)
        requires { length self.old + length name.now + 14 ≤ TEXT_BYTES }
        ensures text { self.new
            ≡ self.old ++ line (name.now ∷ ascii "-" ∷ hex8 t ∷ ascii "-" ∷ []) }
        ensures len { length self.new ≡ length self.old + length name.now + 14 }
    {
        self.append(name);
        self.append(b" - ");
        self.hex8(t, b" -\n");
    }

    // The line of the record at index from of b, which is listed at a place.
    fn record(&mut self, place: u64, b: &[u8], from: usize)
        requires { (digit_count place place ≤ 3) × (from + 72 ≤ length b.now)
            × (length self.old + 27 ≤ TEXT_BYTES) }
        ensures text { self.new ≡ self.old ++ record_line place (part from 72 b.now) }
        ensures len { length self.new ≤ length self.old + 27 }
    {
        self.decimal(place, b" ");
        let t = numbers::read_be(b, from, 8);
        match record_add::kind_at(b, from) {
            Kind::Io(isc) => {
                let w = numbers::read_be(b, from + 16, 4);
                self.io(isc, t, w)
            }
            Kind::Done => self.other(b"done", t),
            Kind::Service => self.other(b"service", t),
            Kind::MachineCheck => self.other(b"mchk", t),
            Kind::Other => self.other(b"other", t),
        }
    }

    // A line for each of the first n records of b.
    #[tactic(auto, using(crate::proofs::Lines::turns))]
    fn records(&mut self, b: &[u8], n: usize)
        requires { (n ≤ most_pending) × (n * 72 ≤ length b.now)
            × (length self.old + n * 27 ≤ TEXT_BYTES) }
        ensures { self.new ≡ self.old ++ lines_from 0 (records_in n b.now) }
    {
        for i in 0..n {
            self.record(i as u64, b, i * 72);
        }
    }

    // Writes the text from the start of out. Answers its length.
    fn copy_to(&self, out: &mut [u8; TEXT_BYTES]) -> usize
        ensures { Wrote out.old out.new 0 self.now result }
    {
        out[..self.len].copy_from_slice(&self.bytes[..self.len]);
        self.len
    }
}

// The listing of what is pending.
pub fn write_pending(c: &Controller, out: &mut [u8; TEXT_BYTES]) -> usize
    requires { Held c.now.order c.now.counts }
    ensures { Wrote out.old out.new 0 (shown (listing (pending_in c.now))) result }
{
    let mut records = [0u8; LISTING_BYTES];
    let n = record_take::pending_whole(c);
    record_take::list_all(c, &mut records);
    let mut text = Text::new();
    text.number(b"pending", n as u64);
    text.records(&records, n);
    text.copy_to(out)
}

// A refusal, by its code: a number, since the promise is for every code.
#[tactic(auto, unfolding(rules::specs::Listing::refusal, rules::specs::Listing::ascii))]
pub fn write_refusal(out: &mut [u8; TEXT_BYTES], code: u32) -> usize
    ensures { Wrote out.old out.new 0 (refusal code) result }
{
    let mut text = Text::new();
    text.number(b"refused", u64::from(code));
    text.copy_to(out)
}

// The longest input that is played.
pub const MOST_BYTES: usize = 65536;

// Plays the list in input on a fresh controller of its flag. Writes the listing, or the refusal, from the start of out,
// and answers the length of the text, as its promise says.
pub fn print_list(input: &[u8], out: &mut [u8; TEXT_BYTES]) -> usize
    ensures text { (result ≡ length (printed input.now))
        × (out.new ≡ printed input.now ++ drop result out.old) }
    ensures fits { (result ≤ length out.new) × (result ≡ length (take result out.new)) }
{
    if MOST_BYTES < input.len() {
        return write_refusal(out, Refusal::TooBig.code());
    }
    let mut c = Controller {
        slots: [0u8; SLOT_BYTES],
        order: [0u8; ORDER_BYTES],
        counts: [0usize; COUNTS],
        singles: [0u8; SINGLES_BYTES],
        ais: false,
    };
    if let Err(error) = list_fresh::play_fresh(&mut c, input) {
        return write_refusal(out, error.refusal().code());
    }
    write_pending(&c, out)
}
