// Makes P9 by the requests themselves, on the covered core: with AIS, adapter 5 of subclass 3 (maskable, no swap,
// suppressible) is registered, SINGLE is set for its subclass, and it injects once. Writes the move list of that
// controller to standard output, if the list has the paper's length.
#![tactic(auto)]

ghost use Rattle.store_queues.specs.Queues.{Held};
ghost use Rattle.list_image.specs.Places.{Imaged};

use adapters::Device;
use answers::Refusal;
use calls::Bounds;
use numbers::{
    ADAPTER_REGISTER, AIRQ_INJECT, AISM, COUNTS, IDS, ORDER_BYTES, PLACES, ROOM, SINGLES_BYTES,
    SLOT_BYTES,
};
use std::io;
use store::Controller;

// A set request on the controller.
fn set(
    c: &mut Controller,
    image: &mut [u64; PLACES],
    device: &mut Device,
    group: u32,
    attr: u64,
    payload: &[u8],
) -> Result<u64, Refusal>
    requires { Held c.old.order c.old.counts × Imaged image.old }
    ensures { Held c.new.order c.new.counts × Imaged image.new }
{
    let bounds = Bounds {
        places: IDS,
        room: ROOM,
    };
    calls::set_any(c, image, bounds, device, group, attr, payload)
}

// Makes P9 on a fresh controller with free places.
fn make(c: &mut Controller, image: &mut [u64; PLACES], device: &mut Device) -> Result<(), Refusal>
    requires { Held c.old.order c.old.counts × Imaged image.old }
    ensures { Held c.new.order c.new.counts × Imaged image.new }
{
    let adapter = [0, 0, 0, 5, 3, 1, 0, 1];
    let mode = [3, 0, 0, 1];
    set(c, image, device, ADAPTER_REGISTER, 0, &adapter)?;
    set(c, image, device, AISM, 0, &mode)?;
    set(c, image, device, AIRQ_INJECT, 5, &mode)?;
    Ok(())
}

fn main(rt: HostRuntime) -> io::Result<()> {
    let mut c = Controller {
        slots: [0u8; SLOT_BYTES],
        order: [0u8; ORDER_BYTES],
        counts: [0usize; COUNTS],
        singles: [0u8; SINGLES_BYTES],
        ais: true,
    };
    let mut image = list_image::empty();
    let mut device = adapters::fresh_device();
    store::fresh(&mut c);
    let made = make(&mut c, &mut image, &mut device);
    let mut list = [0u8; 174];
    let written = list_write::write_list(&c, device, &image, &mut list);
    if made.is_ok() && written == Ok(174) {
        rt.write_all(&list)?;
    }
    Ok(())
}
