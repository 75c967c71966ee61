// Inner crate: playing a move list on a controller, with the adapter places in an image of the table.
#![tactic(auto)]

ghost use Rattle.std.specs.Prelude.{◌≡◌, false, ◌≤◌, ◌<◌, replicate};
ghost use Rattle.rules.specs.MoveList.{count_in};
ghost use Rattle.store_queues.specs.Queues.{Held};
ghost use Rattle.store.specs.Memory.{pending_in};
ghost use Rattle.list_image.specs.Image.{image_size};
ghost use Rattle.list_image.specs.Places.{Imaged};
ghost use Rattle.list_form.specs.Form.{slot_at, Formed};
ghost use Rattle.list_play.specs.declared.PlayError.TheVariants.{Form};
ghost use Rattle.list_play.specs.Play.{SetByEntry, SetByEntries, PlayedTo, refusal_of, told, made_fresh};

use adapters::Device;
use answers::{Answer, Refusal};
use calls::Bounds;
use numbers::PLACES;
use store::Controller;

// Why a list was not played to its end.
#[derive(Clone, Copy, Debug, PartialEq, Eq)]
pub enum PlayError {
    // Its form or its flag is refused. Nothing changed.
    Form(Refusal),
    // The request at this place, counted from 0, is refused. The controller is fresh.
    Request(u64, Refusal),
}

impl From<Refusal> for PlayError {
    ghost from_gives = { λ refusal error. error ≡ Form refusal };

    fn from(refusal: Refusal) -> PlayError {
        PlayError::Form(refusal)
    }
}

impl PlayError {
    // Why the list was refused, as a whole or by its request. A method, no From: the place is left out.
    pub fn refusal(self) -> Refusal
        ensures { result ≡ refusal_of self }
    {
        match self {
            PlayError::Form(refusal) | PlayError::Request(_, refusal) => refusal,
        }
    }
}

// Whether playing made the controller fresh: always but for a refusal of form.
pub fn made_fresh(played: Result<u64, PlayError>) -> bool
    ensures { result ≡ made_fresh played }
{
    match played {
        Ok(_) | Err(PlayError::Request(_, _)) => true,
        Err(PlayError::Form(_)) => false,
    }
}

// The answer to a list. Of one that is refused part-way the count is the place of the refused request. No From: Answer
// and Result are of other crates.
pub fn answer(played: Result<u64, PlayError>) -> Answer
    ensures { result ≡ told played }
{
    match played {
        Ok(count) => Answer::from(Ok(count)),
        Err(PlayError::Form(refusal)) => Answer::from(Err(refusal)),
        Err(PlayError::Request(at, refusal)) => Answer {
            code: refusal.code(),
            count: at,
        },
    }
}

// Applies the request of the table entry at a place.
fn apply_at(
    c: &mut Controller,
    image: &mut [u64; PLACES],
    bounds: Bounds,
    device: &mut Device,
    list: &[u8],
    place: usize,
) -> Result<u64, Refusal>
    requires { Held c.old.order c.old.counts × Imaged image.old
        × Formed list.now × (place < count_in list.now) }
    ensures set_by_entry { SetByEntry bounds.places bounds.room c.old.ais list.now (slot_at place list.now)
        image.old (pending_in c.old) device.old image.new (pending_in c.new) device.new result }
    ensures held { Held c.new.order c.new.counts × Imaged image.new × (c.new.ais ≡ c.old.ais) }
{
    let e = 20 + 24 * place;
    let at = numbers::read_be(list, e, 4) as usize;
    let group = numbers::read_be(list, e + 4, 4) as u32;
    let end = at + numbers::read_be(list, e + 8, 4) as usize;
    let attr = numbers::read_doubleword(list, e + 16);
    calls::set_listed(c, image, bounds, device, group, attr, &list[at..end])
}

// Applies the requests one after another, up to the first that is refused.
fn apply_all(
    c: &mut Controller,
    image: &mut [u64; PLACES],
    bounds: Bounds,
    device: &mut Device,
    list: &[u8],
    count: usize,
) -> Result<u64, PlayError>
    requires { Held c.old.order c.old.counts × Imaged image.old
        × Formed list.now × (count ≡ count_in list.now) }
    ensures set_by_entries { SetByEntries bounds.places bounds.room c.old.ais list.now
        image.old (pending_in c.old) device.old image.new (pending_in c.new) device.new result }
    ensures held { Held c.new.order c.new.counts × Imaged image.new × (c.new.ais ≡ c.old.ais) }
{
    for i in 0..count {
        if let Err(refusal) = apply_at(c, image, bounds, device, list, i) {
            return Err(PlayError::Request(i as u64, refusal));
        }
    }
    Ok(count as u64)
}

// Plays a move list. The image is one of unused places. A refusal of form changes nothing. A refusal part-way leaves
// the controller fresh.
pub fn play_list(
    c: &mut Controller,
    image: &mut [u64; PLACES],
    bounds: Bounds,
    device: &mut Device,
    list: &[u8],
) -> Result<u64, PlayError>
    requires { Held c.old.order c.old.counts
        × (image.old ≡ replicate image_size 0) }
    ensures played { PlayedTo bounds.places bounds.room c.old.ais list.now
        image.new (pending_in c.new) device.new result }
    ensures held { Held c.new.order c.new.counts × (c.new.ais ≡ c.old.ais) }
    ensures kept { made_fresh result ≡ false → (c.new ≡ c.old) × (device.new ≡ device.old) }
{
    list_form::form(list, c.ais)?;
    store::fresh(c);
    *device = adapters::fresh_device();
    let count = numbers::read_be(list, 4, 4) as usize;
    match apply_all(c, image, bounds, device, list, count) {
        Ok(count) => Ok(count),
        Err(error) => {
            store::fresh(c);
            *device = adapters::fresh_device();
            list_image::clear(image);
            Err(error)
        }
    }
}
