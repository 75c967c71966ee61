// Inner crate: requests on a controller: INJECT of one adapter's place and requests that get, with the device record by
// value, and set requests of any group, for which the adapter table is given as an image.
#![tactic(auto)]

ghost use Rattle.std.specs.Prelude.{◌≡◌, Bool, true, false, List, ℕ, ◌≤◌, OnErr};
ghost use Rattle.rules.specs.State.{Pending};
ghost use Rattle.store_queues.specs.Slots.{slot_count};
ghost use Rattle.store_queues.specs.Queues.{total, Held};
ghost use Rattle.store.specs.Memory.{pending_of, pending_in};
ghost use Rattle.answers.specs.Answers.{as_answer};
ghost use Rattle.adapters.specs.Values.{Canonical};
ghost use Rattle.adapter_requests.specs.States.{on_place};
ghost use Rattle.list_image.specs.Image.{image_size};
ghost use Rattle.list_image.specs.Places.{Imaged};
ghost use Rattle.calls.specs.Inner.{Injected, Got, SetTo};

use adapters::{Device, Injection, Place};
use answers::Refusal;
use numbers::{
    AIRQ_INJECT, AISM_ALL, AdapterId, CLEAR_IO_IRQ, CLEAR_IRQS, ENQUEUE, GET_ALL_IRQS, PLACES,
};
use store::Controller;

// How many adapter places a controller has, and how many records its queues hold at most.
#[derive(Clone, Copy)]
pub struct Bounds {
    pub places: u64,
    pub room: usize,
    // An image has a number for each place.
    ghost imaged: { places ≤ image_size },
    // There is a slot for each record.
    ghost stored: { room ≤ slot_count },
}

// INJECT, for the adapter at this place. An injection of count 1 is still to be noted in the device record. It is given
// two numbers, not Bounds, which would ask that the places fit an image: there is none here.
pub fn answer_inject(
    c: &mut Controller,
    places: u64,
    room: usize,
    device: Device,
    place: Place,
    id: AdapterId,
) -> Result<u64, Refusal>
    requires { (room ≤ slot_count) × Held c.old.order c.old.counts × Canonical place }
    ensures injected { Injected places room id.0 (total c.old.counts) c.old.ais device place
        (pending_of c.old.order c.old.counts c.old.slots)
        (pending_of c.new.order c.new.counts c.new.slots) (as_answer result) }
    ensures held { Held c.new.order c.new.counts }
    ensures others { (c.new.singles ≡ c.old.singles) × (c.new.ais ≡ c.old.ais) }
    ensures kept { OnErr result (c.new ≡ c.old) }
{
    if places <= id.0 {
        return Err(Refusal::Invalid);
    }
    let n = store_queues::queued(&c.counts);
    match adapters::inject(c.ais, device, place, room <= n) {
        Injection::NoAdapter => Err(Refusal::Invalid),
        Injection::Dropped => Ok(0),
        Injection::Full => Err(Refusal::Busy),
        Injection::Appended(isc) => {
            record_add::append_interrupt(c, isc, n);
            Ok(1)
        }
    }
}

// A get request, with the device record by value. Groups are told apart by their number, here and below, as C and a
// list give it: every number is a request.
pub fn answer_get(
    c: &Controller,
    device: Device,
    group: u32,
    attr: u64,
    out: &mut [u8],
) -> Result<u64, Refusal>
    requires { Held c.now.order c.now.counts }
    ensures { Got group attr c.now device out.old out.new result }
{
    if group == GET_ALL_IRQS {
        return record_take::get_all(c, attr, out);
    }
    if group == AISM_ALL {
        return adapter_requests::get_masks(c.ais, device, attr, out);
    }
    Err(Refusal::Invalid)
}

// INJECT, for the adapter of an image's place.
fn inject_in(
    c: &mut Controller,
    image: &[u64; PLACES],
    bounds: Bounds,
    device: &mut Device,
    id: AdapterId,
) -> Result<u64, Refusal>
    requires { Held c.old.order c.old.counts × Imaged image.now }
    ensures by_index { (b : List ℕ) → SetTo bounds.places bounds.room c.old.ais 10 id.0 b
        image.now (pending_in c.old) device.old image.now (pending_in c.new) device.new result }
    ensures held { Held c.new.order c.new.counts }
    ensures others { (c.new.singles ≡ c.old.singles) × (c.new.ais ≡ c.old.ais) }
    ensures kept { OnErr result ((c.new ≡ c.old) × (device.new ≡ device.old)) }
{
    let place = list_image::look_up(image, bounds.places, id);
    let appended = answer_inject(c, bounds.places, bounds.room, *device, place, id)?;
    if appended == 1 {
        *device = adapters::after_injection(c.ais, *device, place);
    }
    Ok(appended)
}

// REGISTER and MODIFY, of an image's place. Those of the lent table are lent_requests::set_place: a slice can't be a
// type parameter, and MODIFY sets one field there.
fn set_place(
    image: &mut [u64; PLACES],
    places: u64,
    group: u32,
    attr: u64,
    payload: &[u8],
) -> Result<u64, Refusal>
    requires { (places ≤ image_size) × Imaged image.old × (on_place group ≡ true) }
    ensures by_index { (room : ℕ) (ais : Bool) (p : Pending) (d : Device)
        → SetTo places room ais group attr payload.now image.old p d
        image.new p d result }
    ensures held { Imaged image.new }
    ensures kept { OnErr result (image.new ≡ image.old) }
{
    let id = adapter_requests::payload_id(payload);
    let place = list_image::look_up(image, places, id);
    adapter_requests::check_place(places, place, group, attr, payload)?;
    let after = adapter_requests::place_after(place, group, payload);
    list_image::put(image, places, id, after);
    Ok(0)
}

// Requests about the modes and the page-fault flag, by value; lent_requests::set_modes is by the thin functions over
// the lent record. Paper 01 names both forms. A group that is no request is refused here.
fn set_modes(
    ais: bool,
    device: &mut Device,
    group: u32,
    attr: u64,
    payload: &[u8],
) -> Result<u64, Refusal>
    requires { (group ≡ 2 → ⊥) × (group ≡ 3 → ⊥) × (group ≡ 8 → ⊥) × (group ≡ 10 → ⊥)
        × (on_place group ≡ false) }
    ensures by_index { (places room : ℕ) (image : List ℕ) (p : Pending) →
        SetTo places room ais group attr payload.now image p device.old image p device.new result }
    ensures kept { OnErr result ((device.new ≡ device.old)) }
{
    adapter_requests::check_modes(ais, group, attr, payload)?;
    *device = adapter_requests::modes_after(*device, group, payload);
    Ok(0)
}

// A set request that neither clears nor injects, which are the groups that a list may have and a few more. Controller,
// image and device record come one by one: C lends two of them apart, and a struct of references is not covered.
pub fn set_listed(
    c: &mut Controller,
    image: &mut [u64; PLACES],
    bounds: Bounds,
    device: &mut Device,
    group: u32,
    attr: u64,
    payload: &[u8],
) -> Result<u64, Refusal>
    requires { Held c.old.order c.old.counts × Imaged image.old
        × (group ≡ 3 → ⊥) × (group ≡ 8 → ⊥) × (group ≡ 10 → ⊥) }
    ensures set_to { SetTo bounds.places bounds.room c.old.ais group attr payload.now
        image.old (pending_in c.old) device.old image.new (pending_in c.new) device.new result }
    ensures held { Held c.new.order c.new.counts × Imaged image.new × (c.new.ais ≡ c.old.ais) }
    ensures kept { OnErr result ((c.new ≡ c.old) × (image.new ≡ image.old) × (device.new ≡ device.old)) }
{
    if group == ENQUEUE {
        return record_add::enqueue_irqs(c, bounds.room, attr, payload);
    }
    if adapter_requests::on_place(group) {
        return set_place(image, bounds.places, group, attr, payload);
    }
    set_modes(c.ais, device, group, attr, payload)
}

// A set request of any group.
pub fn set_any(
    c: &mut Controller,
    image: &mut [u64; PLACES],
    bounds: Bounds,
    device: &mut Device,
    group: u32,
    attr: u64,
    payload: &[u8],
) -> Result<u64, Refusal>
    requires { Held c.old.order c.old.counts × Imaged image.old }
    ensures set_to { SetTo bounds.places bounds.room c.old.ais group attr payload.now
        image.old (pending_in c.old) device.old image.new (pending_in c.new) device.new result }
    ensures held { Held c.new.order c.new.counts × Imaged image.new × (c.new.ais ≡ c.old.ais) }
    ensures kept { OnErr result ((c.new ≡ c.old) × (image.new ≡ image.old) × (device.new ≡ device.old)) }
{
    if group == CLEAR_IRQS {
        return record_take::clear_irqs(c, attr);
    }
    if group == CLEAR_IO_IRQ {
        return record_take::clear_io(c, attr, payload);
    }
    if group == AIRQ_INJECT {
        return inject_in(c, image, bounds, device, AdapterId(attr));
    }
    set_listed(c, image, bounds, device, group, attr, payload)
}
