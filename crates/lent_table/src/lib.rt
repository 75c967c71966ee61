// Inner crate: the adapter table as a lent slice of places, and the device record behind a reference.
// Few and thin functions, after those by value: the form that paper 01 names.
#![tactic(auto)]

ghost use Rattle.std.specs.Prelude.{◌≡◌, ◌≤◌, get_or, set, replicate};
ghost use Rattle.adapters.specs.Values.{device_of, device_from, unused, with_masked, mode_set, injected_device};
ghost use Rattle.list_image.specs.Image.{image_size};
ghost use Rattle.lent_table.specs.Table.{snap_to, restored};

use adapters::{Device, Place};
use numbers::{AdapterId, IDS, PLACES, Subclass};

// The place at the id. Past the table's end it reads as free.
pub fn look_up(t: &[Place], id: AdapterId) -> Place
    ensures { result ≡ get_or t.now id.0 unused }
{
    t.get(id.0 as usize)
        .copied()
        .unwrap_or(adapters::free_place())
}

// Stores p at the id. With an id past the table's end nothing happens.
pub fn register(t: &mut [Place], id: AdapterId, p: Place)
    ensures { t.new ≡ set t.old id.0 p }
{
    let i = id.0 as usize;
    // An index, not get_mut: after get_mut no proof knows the table.
    if i < t.len() {
        t[i] = p;
    }
}

// Masks or unmasks the adapter at the id. With an id past the table's end nothing happens.
pub fn mask(t: &mut [Place], id: AdapterId, on: bool)
    ensures { t.new ≡ set t.old id.0
        (with_masked on (get_or t.old id.0 unused)) }
{
    let i = id.0 as usize;
    // An index, for the same reason.
    if i < t.len() {
        t[i].masked = on;
    }
}

// The device record as it is. This and the next are thin functions as well.
pub fn read_device(d: &Device) -> Device
    ensures { result ≡ d.now }
{
    *d
}

// The whole device record anew, as making a controller and playing a list leave it.
pub fn store_device(d: &mut Device, m: Device)
    ensures { d.new ≡ m }
{
    *d = m;
}

// AISM: the mode of one subclass.
pub fn set_mode(d: &mut Device, isc: Subclass, single: bool)
    requires { isc.0 ≤ 7 }
    ensures { d.new ≡ device_from (mode_set (device_of d.old) isc.0 single) }
{
    *d = adapters::mode_set(*d, isc, single);
}

// AISM_ALL: both masks.
pub fn set_masks(d: &mut Device, simm: u8, nimm: u8)
    ensures { d.new ≡ record { simm = simm; nimm = nimm; apf = d.old.apf } }
{
    *d = adapters::masks_set(*d, simm, nimm);
}

// APF_ENABLE and APF_DISABLE_WAIT: the page-fault flag.
pub fn set_flag(d: &mut Device, on: bool)
    ensures { d.new ≡ record { simm = d.old.simm; nimm = d.old.nimm; apf = on } }
{
    *d = adapters::apf_set(*d, on);
}

// INJECT, once the record is appended: in SINGLE mode the bit of nimm is set.
pub fn note_injection(d: &mut Device, ais: bool, p: Place)
    requires { p.isc.0 ≤ 7 }
    ensures { d.new ≡ injected_device ais d.old p }
{
    *d = adapters::after_injection(ais, *d, p);
}

// The places as an image; a place that is not there reads as free.
#[tactic(auto, using(crate::proofs::Tables::snapping))]
pub fn snapshot(t: &[Place]) -> [u64; PLACES]
    ensures { result ≡ snap_to t.now image_size }
{
    let mut all = list_image::empty();
    for i in 0..IDS {
        let id = AdapterId(i);
        let p = look_up(t, id);
        list_image::put_place(&mut all, id, p);
    }
    all
}

// The first n places are those of the image.
#[tactic(auto, using(crate::proofs::Tables::restoring))]
pub fn restore(t: &mut [Place], n: u64, all: &[u64; PLACES])
    requires { n ≤ image_size }
    ensures { t.new ≡ restored t.old all.now n }
{
    for i in 0..n {
        let id = AdapterId(i);
        let p = list_image::place_at(all, id);
        register(t, id, p);
    }
}

// Every place is free, as in a fresh controller's table.
#[tactic(auto, using(crate::proofs::Tables::clearing))]
pub fn clear(t: &mut [Place])
    ensures { t.new ≡ restored t.old (replicate image_size 0) image_size }
{
    for i in 0..IDS {
        register(t, AdapterId(i), adapters::free_place());
    }
}
