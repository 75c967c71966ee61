// Inner crate: adapters, the device record's masks and flag, and what an injection comes to, all by value.
#![tactic(auto)]

ghost use Rattle.std.specs.Prelude.{◌≡◌, true, false, ◌<◌, ◌≤◌};
ghost use Rattle.rules.specs.State.{holds, bit, has_bit, with_bit, without_bit};
ghost use Rattle.adapters.specs.Values.{place_of, device_of, unused, Canonical, masked_as, with_masked, mode_set};
ghost use Rattle.adapters.specs.Values.{under_ais, injection_of, injected_device};

use numbers::Subclass;

// The masks and the page-fault flag.
#[repr(C)]
#[derive(Clone, Copy, Debug, PartialEq, Eq)]
pub struct Device {
    pub simm: u8,
    pub nimm: u8,
    pub apf: bool,
}

// An adapter place. Where it is not used the other fields are 0 and false. C's struct in flic.h: a flag and no Option
// of the rest, and no invariant (`Canonical`), since C lends places with any content.
#[repr(C)]
#[derive(Clone, Copy)]
pub struct Place {
    pub used: bool,
    pub isc: Subclass,
    pub maskable: bool,
    pub swap: bool,
    pub suppressible: bool,
    pub masked: bool,
}

// The device record of a fresh controller.
pub fn fresh_device() -> Device
    ensures { result ≡ record { simm = 0; nimm = 0; apf = false } }
{
    Device {
        simm: 0,
        nimm: 0,
        apf: false,
    }
}

// A place that no adapter has.
pub fn free_place() -> Place
    ensures { result ≡ unused }
{
    Place {
        used: false,
        isc: Subclass(0),
        maskable: false,
        swap: false,
        suppressible: false,
        masked: false,
    }
}

// The bit of a subclass in a mask.
pub fn bit_of(isc: Subclass) -> u8
    requires { isc.0 ≤ 7 }
    ensures { (result ≡ bit isc.0) × (0 < result) }
{
    1 << (7 - isc.0)
}

// Whether a mask has the bit of a subclass.
pub fn has_bit(isc: Subclass, mask: u8) -> bool
    requires { isc.0 ≤ 7 }
    ensures { result ≡ has_bit isc.0 mask }
{
    mask / bit_of(isc) % 2 == 1
}

// A mask with the bit of a subclass set.
pub fn with_bit(isc: Subclass, mask: u8) -> u8
    requires { isc.0 ≤ 7 }
    ensures { result ≡ with_bit isc.0 mask }
{
    if has_bit(isc, mask) {
        return mask;
    }
    mask + bit_of(isc)
}

// A mask with the bit of a subclass cleared.
pub fn without_bit(isc: Subclass, mask: u8) -> u8
    requires { isc.0 ≤ 7 }
    ensures { result ≡ without_bit isc.0 mask }
{
    if has_bit(isc, mask) {
        return mask - bit_of(isc);
    }
    mask
}

// Sets the mode of one subclass: ALL clears both bits, SINGLE sets the bit of simm and clears that of nimm.
pub fn mode_set(d: Device, isc: Subclass, single: bool) -> Device
    requires { isc.0 ≤ 7 }
    ensures { device_of result ≡ mode_set (device_of d) isc.0 single }
{
    let nimm = without_bit(isc, d.nimm);
    if single {
        return Device {
            simm: with_bit(isc, d.simm),
            nimm,
            ..d
        };
    }
    Device {
        simm: without_bit(isc, d.simm),
        nimm,
        ..d
    }
}

// Two masks, and above a subclass with its mode: the structs of the two requests are declared with these, above.
pub fn masks_set(d: Device, simm: u8, nimm: u8) -> Device
    ensures { result ≡ record { simm = simm; nimm = nimm; apf = d.apf } }
{
    Device { simm, nimm, ..d }
}

pub fn apf_set(d: Device, on: bool) -> Device
    ensures { result ≡ record { simm = d.simm; nimm = d.nimm; apf = on } }
{
    Device { apf: on, ..d }
}

// A new adapter, unmasked.
pub fn registered(isc: Subclass, maskable: bool, swap: bool, suppressible: bool) -> Place
    ensures result_value { place_of result ≡ holds (record {
      isc = isc.0;
      maskable = maskable;
      swap = swap;
      suppressible = suppressible;
      masked = false;
    }) }
    ensures canonical { isc.0 ≤ 7 → Canonical result }
{
    let masked = false;
    Place {
        used: true,
        isc,
        maskable,
        swap,
        suppressible,
        masked,
    }
}

// The place with its adapter masked or unmasked. A free place stays as it is.
pub fn mask_set(p: Place, on: bool) -> Place
    ensures result_value { place_of result ≡ masked_as (place_of p) on }
    ensures canonical { Canonical p → (on ≡ true → p.maskable ≡ true) → Canonical result }
    ensures others { result ≡ with_masked result.masked p }
{
    if p.used {
        return Place { masked: on, ..p };
    }
    p
}

// What an injection comes to. Four cases by name: as a Result, Ok(None) would stand for dropped.
#[derive(Clone, Copy)]
pub enum Injection {
    // The place is free.
    NoAdapter,
    // Masked or suppressed: nothing happens.
    Dropped,
    // The nine queues are full.
    Full,
    // A record of the subclass is appended.
    Appended(Subclass),
}

// Whether suppression applies to the place and its subclass's bit of the mask is set.
fn under_ais(ais: bool, p: Place, mask: u8) -> bool
    requires { p.isc.0 ≤ 7 }
    ensures { result ≡ under_ais ais p mask }
{
    if ais {
        if p.suppressible {
            return has_bit(p.isc, mask);
        }
    }
    false
}

// What an injection for the adapter of a place comes to. `full` says whether the nine queues are full.
pub fn inject(ais: bool, d: Device, p: Place, full: bool) -> Injection
    requires { p.isc.0 ≤ 7 }
    ensures { result ≡ injection_of ais d p full }
{
    if !p.used {
        return Injection::NoAdapter;
    }
    if p.masked {
        return Injection::Dropped;
    }
    if under_ais(ais, p, d.nimm) {
        return Injection::Dropped;
    }
    if full {
        return Injection::Full;
    }
    Injection::Appended(p.isc)
}

// The device record after an injection that is appended: in SINGLE mode the subclass's bit of nimm is set.
pub fn after_injection(ais: bool, d: Device, p: Place) -> Device
    requires { p.isc.0 ≤ 7 }
    ensures { result ≡ injected_device ais d p }
{
    if under_ais(ais, p, d.simm) {
        return Device {
            nimm: with_bit(p.isc, d.nimm),
            ..d
        };
    }
    d
}
