// The public calls. A caller uses this crate, lends the records `store::Controller`, `adapters::Device` and
// `adapters::Place`, and gets an `answers::Answer`.
#![tactic(auto)]

ghost use Rattle.rules.specs.State.{paper_limits};
ghost use Rattle.rules.specs.Machine.{set_attr, get_attr, write_list, play_list};
ghost use Rattle.answers.specs.Answers.{saw, as_answer};
ghost use Rattle.flic.specs.Surface.{Ready, Premise, Made, Requested, Taken};

use adapters::{Device, Place};
use answers::{Answer, Refusal};
use calls::Bounds;
use numbers::{AIRQ_INJECT, AdapterId, CLEAR_IO_IRQ, CLEAR_IRQS, ENQUEUE, IDS, PLACES, ROOM};
use store::Controller;

// A fresh controller with this capability. Its memory holds any values of its types before, for example zeros.
#[unsafe(no_mangle)]
pub extern "C" fn flic_make(
    c: &mut Controller,
    d: &mut Device,
    t: &mut [Place],
    ais: bool,
) -> Answer
    ensures { Made paper_limits ais c.old c.new d.old d.new
        t.old t.new result }
{
    if t.len() != PLACES {
        return Answer::from(Err(Refusal::Fault));
    }
    store::fresh(c);
    c.ais = ais;
    lent_table::store_device(d, adapters::fresh_device());
    lent_table::clear(t);
    Answer::from(Ok(0))
}

// A request that sets, told as a Result. Its group is a number, as C gives it, and tested in this order: no jump table
// on the way to an injection (see adapter_requests::on_place).
fn set(
    c: &mut Controller,
    d: &mut Device,
    t: &mut [Place],
    group: u32,
    attr: u64,
    payload: &[u8],
) -> Result<u64, Refusal>
    requires { Premise c.old d.old t.old }
    ensures { Requested (set_attr group attr)
        c.old c.new d.old d.new t.old t.new payload.now (saw (as_answer result) payload.now) }
{
    if t.len() != PLACES {
        return Err(Refusal::Fault);
    }
    if group == ENQUEUE {
        return record_add::enqueue_irqs(c, ROOM, attr, payload);
    }
    if group == CLEAR_IRQS {
        return record_take::clear_irqs(c, attr);
    }
    if group == AIRQ_INJECT {
        let id = AdapterId(attr);
        let place = lent_table::look_up(t, id);
        let device = lent_table::read_device(d);
        let appended = calls::answer_inject(c, IDS, ROOM, device, place, id)?;
        if appended == 1 {
            lent_table::note_injection(d, c.ais, place);
        }
        return Ok(appended);
    }
    if adapter_requests::on_place(group) {
        return lent_requests::set_place(t, group, attr, payload);
    }
    if group == CLEAR_IO_IRQ {
        return record_take::clear_io(c, attr, payload);
    }
    lent_requests::set_modes(d, c.ais, group, attr, payload)
}

// A request that sets.
#[unsafe(no_mangle)]
pub extern "C" fn flic_set(
    c: &mut Controller,
    d: &mut Device,
    t: &mut [Place],
    group: u32,
    attr: u64,
    payload: &[u8],
) -> Answer
    requires { Premise c.old d.old t.old }
    ensures { Requested (set_attr group attr) c.old c.new d.old d.new
        t.old t.new payload.now (saw result payload.now) }
{
    Answer::from(set(c, d, t, group, attr, payload))
}

// A request that gets.
#[unsafe(no_mangle)]
pub extern "C" fn flic_get(
    c: &Controller,
    d: &Device,
    t: &[Place],
    group: u32,
    attr: u64,
    out: &mut [u8],
) -> Answer
    requires { Premise c.now d.now t.now }
    ensures { Requested (get_attr group attr) c.now c.now d.now d.now
        t.now t.now out.old (saw result out.new) }
{
    if t.len() != PLACES {
        return Answer::from(Err(Refusal::Fault));
    }
    let device = lent_table::read_device(d);
    Answer::from(calls::answer_get(c, device, group, attr, out))
}

// The guest's take. It is lent no table and no device record.
#[unsafe(no_mangle)]
pub extern "C" fn flic_take(
    c: &mut Controller,
    subclasses: u8,
    external: bool,
    mcheck: bool,
    out: &mut [u8],
) -> Answer
    requires { Ready c.old }
    ensures { Taken subclasses external mcheck c.old c.new out.old
        (saw result out.new) }
{
    Answer::from(record_take::take(c, subclasses, external, mcheck, out))
}

// The move list is written to the buffer's start.
#[unsafe(no_mangle)]
pub extern "C" fn flic_write_list(c: &Controller, d: &Device, t: &[Place], out: &mut [u8]) -> Answer
    requires { Premise c.now d.now t.now }
    ensures { Requested write_list c.now c.now d.now d.now
        t.now t.now out.old (saw result out.new) }
{
    if t.len() != PLACES {
        return Answer::from(Err(Refusal::Fault));
    }
    let device = lent_table::read_device(d);
    let image = lent_table::snapshot(t);
    Answer::from(list_write::write_list(c, device, &image, out))
}

// A move list is played: the controller is made fresh, and the list's requests are applied.
#[unsafe(no_mangle)]
pub extern "C" fn flic_play_list(
    c: &mut Controller,
    d: &mut Device,
    t: &mut [Place],
    list: &[u8],
) -> Answer
    requires { Premise c.old d.old t.old }
    ensures { Requested play_list c.old c.new d.old d.new
        t.old t.new list.now (saw result list.now) }
{
    if t.len() != PLACES {
        return Answer::from(Err(Refusal::Fault));
    }
    let mut image = list_image::empty();
    let bounds = Bounds {
        places: IDS,
        room: ROOM,
    };
    let played = list_play::play_list(c, &mut image, bounds, d, list);
    if !list_play::made_fresh(played) {
        return list_play::answer(played); // nothing changed
    }
    lent_table::restore(t, IDS, &image);
    list_play::answer(played)
}
