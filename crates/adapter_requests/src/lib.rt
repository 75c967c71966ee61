// Inner crate: the requests that touch no pending record, on a device record and one adapter place by value.
#![tactic(auto)]

ghost use Rattle.std.specs.Prelude.{◌≡◌, true, false, List, ℕ, ◌≤◌, eqb, length, OnOk, OnErr};
ghost use Rattle.rules.specs.State.{Limits, State, with_device};
ghost use Rattle.rules.specs.Bytes.{byte, field};
ghost use Rattle.rules.specs.Requests.{apf_enable, apf_disable_wait, get_aism_all, request};
ghost use Rattle.answers.specs.Answers.{Answers, as_answer};
ghost use Rattle.adapters.specs.Values.{place_of, device_of, Canonical};
ghost use Rattle.adapter_requests.specs.States.{payload_id, on_place, decided, place_after, stored_by, PlaceAsked};
ghost use Rattle.adapter_requests.specs.States.{DecidesPlace, modes_after, ModesAsked, DecidesModes};

use adapters::{Device, Place};
use answers::Refusal;
use numbers::{
    ADAPTER_REGISTER, AISM, AISM_ALL, APF_DISABLE_WAIT, APF_ENABLE, AdapterId, NO_ADAPTER, Subclass,
};

// The id in a payload. A payload too short for one names no adapter: by a number that no table has, and no Option,
// since `DecidesPlace` looks up the id that every payload has.
pub fn payload_id(payload: &[u8]) -> AdapterId
    ensures { result.0 ≡ payload_id payload.now }
{
    if payload.len() < 4 {
        return AdapterId(NO_ADAPTER);
    }
    AdapterId(numbers::read_be(payload, 0, 4))
}

// Whether a set request is about an adapter's place: REGISTER (6) or MODIFY (7), the two numbers whose half is 3. It is
// one test, so that the compiler makes no jump table of this and of the tests before it.
pub fn on_place(group: u32) -> bool
    ensures { result ≡ on_place group }
{
    group / 2 == 3
}

// Group 6: whether a REGISTER is accepted.
fn check_register(places: u64, place: Place, attr: u64, payload: &[u8]) -> Result<(), Refusal>
    ensures decides { DecidesPlace 6 places place attr payload.now result }
    ensures asked { OnOk result (PlaceAsked 6 payload.now place) }
{
    if attr != 0 {
        return Err(Refusal::Invalid);
    }
    if payload.len() < 8 {
        return Err(Refusal::Fault);
    }
    if places <= numbers::read_be(payload, 0, 4) {
        return Err(Refusal::Invalid);
    }
    if place.used {
        return Err(Refusal::Invalid);
    }
    if 7 < payload[4] {
        return Err(Refusal::Invalid);
    }
    Ok(())
}

// Group 7: whether a MODIFY is accepted. Its kind is a number, as the payload gives it: every byte is a request.
fn check_modify(places: u64, place: Place, attr: u64, payload: &[u8]) -> Result<(), Refusal>
    ensures decides { DecidesPlace 7 places place attr payload.now result }
    ensures asked { OnOk result (PlaceAsked 7 payload.now place) }
{
    if attr != 0 {
        return Err(Refusal::Invalid);
    }
    if payload.len() < 16 {
        return Err(Refusal::Fault);
    }
    if places <= numbers::read_be(payload, 0, 4) {
        return Err(Refusal::Invalid);
    }
    if !place.used {
        return Err(Refusal::Invalid);
    }
    let kind = payload[4];
    if kind == 0 {
        return Err(Refusal::Invalid);
    }
    if 3 < kind {
        return Err(Refusal::Invalid);
    }
    if kind == 1 {
        if !place.maskable {
            return Err(Refusal::Invalid);
        }
    }
    Ok(())
}

// Whether a request about an adapter's place is accepted. A request comes as group, attribute and payload, as C gives
// them, and a group as its number, of which one to four tests are made: every number is a request (`request`).
pub fn check_place(
    places: u64,
    place: Place,
    group: u32,
    attr: u64,
    payload: &[u8],
) -> Result<(), Refusal>
    requires { on_place group ≡ true }
    ensures decides { DecidesPlace group places place attr payload.now result }
    ensures asked { OnOk result (PlaceAsked group payload.now place) }
{
    if group == ADAPTER_REGISTER {
        return check_register(places, place, attr, payload);
    }
    check_modify(places, place, attr, payload)
}

// The place after an accepted request about it.
pub fn place_after(place: Place, group: u32, payload: &[u8]) -> Place
    requires { PlaceAsked group payload.now place }
    ensures { (place_of result ≡ place_after group payload.now (place_of place))
        × (Canonical place → Canonical result) × (stored_by group result place ≡ result) }
{
    if group == ADAPTER_REGISTER {
        return adapters::registered(
            Subclass(payload[4]),
            payload[5] != 0,
            payload[6] != 0,
            payload[7] % 2 == 1,
        );
    }
    if payload[4] == 1 {
        return adapters::mask_set(place, payload[5] != 0);
    }
    place
}

// Group 9: whether an AISM is accepted.
fn check_mode(ais: bool, attr: u64, payload: &[u8]) -> Result<(), Refusal>
    ensures decides { DecidesModes 9 ais attr payload.now result }
    ensures asked { OnOk result (ModesAsked 9 payload.now) }
{
    if attr != 0 {
        return Err(Refusal::Invalid);
    }
    if !ais {
        return Err(Refusal::NotSupported);
    }
    if payload.len() < 4 {
        return Err(Refusal::Fault);
    }
    if 7 < payload[0] {
        return Err(Refusal::Invalid);
    }
    if 1 < numbers::read_be(payload, 2, 2) {
        return Err(Refusal::Invalid);
    }
    Ok(())
}

// Group 11, set: whether it is accepted.
fn check_masks(ais: bool, attr: u64, payload: &[u8]) -> Result<(), Refusal>
    ensures decides { DecidesModes 11 ais attr payload.now result }
    ensures asked { OnOk result (ModesAsked 11 payload.now) }
{
    if attr != 0 {
        return Err(Refusal::Invalid);
    }
    if !ais {
        return Err(Refusal::NotSupported);
    }
    if payload.len() < 2 {
        return Err(Refusal::Fault);
    }
    Ok(())
}

// Groups 4 and 5: whether the request is accepted.
fn check_flag(attr: u64) -> Result<(), Refusal>
    ensures { (L : Limits) (s : State) (b : List ℕ)
        → (request L s apf_enable attr b ≡ decided result (with_device (modes_after 4 b s.device) s))
        × (request L s apf_disable_wait attr b ≡ decided result (with_device (modes_after 5 b s.device) s)) }
{
    if attr != 0 {
        return Err(Refusal::Invalid);
    }
    Ok(())
}

// Whether a request about the device record is accepted. A group that is no request is refused here.
pub fn check_modes(ais: bool, group: u32, attr: u64, payload: &[u8]) -> Result<(), Refusal>
    requires { (group ≡ 2 → ⊥) × (group ≡ 3 → ⊥) × (group ≡ 8 → ⊥) × (group ≡ 10 → ⊥)
        × (on_place group ≡ false) }
    ensures decides { DecidesModes group ais attr payload.now result }
    ensures asked { OnOk result (ModesAsked group payload.now) }
{
    if group == APF_ENABLE {
        return check_flag(attr);
    }
    if group == APF_DISABLE_WAIT {
        return check_flag(attr);
    }
    if group == AISM {
        return check_mode(ais, attr, payload);
    }
    if group == AISM_ALL {
        return check_masks(ais, attr, payload);
    }
    Err(Refusal::Invalid)
}

// What an AISM asks for: a subclass, and whether its mode is SINGLE.
#[derive(Clone, Copy)]
pub struct Mode {
    pub isc: Subclass,
    pub single: bool,
}

pub fn mode_in(payload: &[u8]) -> Mode
    requires { 4 ≤ length payload.now }
    ensures { (result.isc.0 ≡ byte 0 payload.now)
        × (result.single ≡ eqb (field 2 2 payload.now) 1) }
{
    Mode {
        isc: Subclass(payload[0]),
        single: numbers::read_be(payload, 2, 2) == 1,
    }
}

// What an AISM_ALL asks for.
#[derive(Clone, Copy, Debug, PartialEq, Eq)]
pub struct Masks {
    pub simm: u8,
    pub nimm: u8,
}

pub fn masks_in(payload: &[u8]) -> Masks
    requires { 2 ≤ length payload.now }
    ensures { (result.simm ≡ byte 0 payload.now) × (result.nimm ≡ byte 1 payload.now) }
{
    Masks {
        simm: payload[0],
        nimm: payload[1],
    }
}

// The device record after an accepted request about it, by value: paper 01 names this form and that over the lent
// record.
pub fn modes_after(device: Device, group: u32, payload: &[u8]) -> Device
    requires { ModesAsked group payload.now }
    ensures { device_of result ≡ modes_after group payload.now (device_of device) }
{
    if group == AISM {
        let m = mode_in(payload);
        return adapters::mode_set(device, m.isc, m.single);
    }
    if group == AISM_ALL {
        let m = masks_in(payload);
        return adapters::masks_set(device, m.simm, m.nimm);
    }
    adapters::apf_set(device, group == APF_ENABLE)
}

// Group 11, get: both masks.
pub fn get_masks(ais: bool, device: Device, attr: u64, out: &mut [u8]) -> Result<u64, Refusal>
    ensures answer { (L : Limits) (s : State) → s.ais ≡ ais → s.device ≡ device_of device
        → Answers L s out.old (request L s get_aism_all attr out.old) (as_answer result) s out.new }
    ensures kept { OnErr result (out.new ≡ out.old) }
{
    if attr != 0 {
        return Err(Refusal::Invalid);
    }
    if !ais {
        return Err(Refusal::NotSupported);
    }
    if out.len() < 2 {
        return Err(Refusal::Fault);
    }
    out[0] = device.simm;
    out[1] = device.nimm;
    Ok(0)
}
