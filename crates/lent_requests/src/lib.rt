// Inner crate: the requests about an adapter's place and about the device record, on the lent table and record.
#![tactic(auto)]

ghost use Rattle.std.specs.Prelude.{◌≡◌, true, false, get_or, set};
ghost use Rattle.adapters.specs.Values.{device_of, device_from, unused};
ghost use Rattle.adapter_requests.specs.States.{on_place, stored_by, modes_after, ModesAsked};
ghost use Rattle.lent_requests.specs.Requests.{ModesSet, PlaceSet};

use adapters::{Device, Place};
use answers::Refusal;
use numbers::{ADAPTER_REGISTER, AISM, AISM_ALL, APF_ENABLE, AdapterId, IDS};

// The device record after an accepted request about it, by the thin functions: paper 01 names this form and that by
// value. Groups are told apart by their number, as C gives it.
pub fn change_modes(d: &mut Device, group: u32, payload: &[u8])
    requires { ModesAsked group payload.now }
    ensures { d.new ≡
        device_from (modes_after group payload.now (device_of d.old)) }
{
    if group == AISM {
        let m = adapter_requests::mode_in(payload);
        lent_table::set_mode(d, m.isc, m.single);
        return;
    }
    if group == AISM_ALL {
        let m = adapter_requests::masks_in(payload);
        lent_table::set_masks(d, m.simm, m.nimm);
        return;
    }
    lent_table::set_flag(d, group == APF_ENABLE);
}

// Changes the table for an accepted request; p is the new place. REGISTER stores it at the id, MODIFY sets the masked
// field of the place there.
pub fn change_place(t: &mut [Place], id: AdapterId, group: u32, p: Place)
    ensures { t.new ≡ set t.old id.0
        (stored_by group p (get_or t.old id.0 unused)) }
{
    if group == ADAPTER_REGISTER {
        lent_table::register(t, id, p);
        return;
    }
    lent_table::mask(t, id, p.masked);
}

// A request about the device record: groups 4, 5, 9 and 11; a group that is no request is refused.
pub fn set_modes(
    d: &mut Device,
    ais: bool,
    group: u32,
    attr: u64,
    payload: &[u8],
) -> Result<u64, Refusal>
    requires { (group ≡ 2 → ⊥) × (group ≡ 3 → ⊥) × (group ≡ 8 → ⊥) × (group ≡ 10 → ⊥) × (on_place group ≡ false) }
    ensures { ModesSet ais group attr d.old d.new payload.now result }
{
    adapter_requests::check_modes(ais, group, attr, payload)?;
    change_modes(d, group, payload);
    Ok(0)
}

// A request about an adapter's place: REGISTER and MODIFY.
pub fn set_place(t: &mut [Place], group: u32, attr: u64, payload: &[u8]) -> Result<u64, Refusal>
    requires { on_place group ≡ true }
    ensures { PlaceSet group attr t.old t.new payload.now result }
{
    let id = adapter_requests::payload_id(payload);
    let place = lent_table::look_up(t, id);
    adapter_requests::check_place(IDS, place, group, attr, payload)?;
    let after = adapter_requests::place_after(place, group, payload);
    change_place(t, id, group, after);
    Ok(0)
}
