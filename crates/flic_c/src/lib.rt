// The public calls for C: libflic.a has these names, and include/flic.h declares them. Each is the function of `flic`
// of its name, with its promise: a crate is a library or C's archive, not both. What it requires holds of what the
// calls before have left.
#![tactic(auto)]

ghost use Rattle.rules.specs.State.{paper_limits};
ghost use Rattle.rules.specs.Machine.{set_attr, get_attr, write_list, play_list};
ghost use Rattle.answers.specs.Answers.{saw};
ghost use Rattle.flic.specs.Surface.{Ready, Premise, Made, Requested, Taken};

use adapters::{Device, Place};
use answers::Answer;
use store::Controller;

// A fresh controller with this capability. Its memory holds any values of its types before, for example zeros.
#[unsafe(no_mangle)]
pub extern "C" fn flic_make(
    c: &mut Controller,
    d: &mut Device,
    t: &mut [Place],
    ais: bool,
) -> Answer
    ensures { Made paper_limits ais c.old c.new d.old d.new
        t.old t.new result }
{
    flic::flic_make(c, d, t, ais)
}

// A request that sets.
#[unsafe(no_mangle)]
pub extern "C" fn flic_set(
    c: &mut Controller,
    d: &mut Device,
    t: &mut [Place],
    group: u32,
    attr: u64,
    payload: &[u8],
) -> Answer
    requires { Premise c.old d.old t.old }
    ensures { Requested (set_attr group attr) c.old c.new d.old d.new
        t.old t.new payload.now (saw result payload.now) }
{
    flic::flic_set(c, d, t, group, attr, payload)
}

// A request that gets.
#[unsafe(no_mangle)]
pub extern "C" fn flic_get(
    c: &Controller,
    d: &Device,
    t: &[Place],
    group: u32,
    attr: u64,
    out: &mut [u8],
) -> Answer
    requires { Premise c.now d.now t.now }
    ensures { Requested (get_attr group attr) c.now c.now d.now d.now
        t.now t.now out.old (saw result out.new) }
{
    flic::flic_get(c, d, t, group, attr, out)
}

// The guest's take. It is lent no table and no device record.
#[unsafe(no_mangle)]
pub extern "C" fn flic_take(
    c: &mut Controller,
    subclasses: u8,
    external: bool,
    mcheck: bool,
    out: &mut [u8],
) -> Answer
    requires { Ready c.old }
    ensures { Taken subclasses external mcheck c.old c.new out.old
        (saw result out.new) }
{
    flic::flic_take(c, subclasses, external, mcheck, out)
}

// The move list is written to the buffer's start.
#[unsafe(no_mangle)]
pub extern "C" fn flic_write_list(c: &Controller, d: &Device, t: &[Place], out: &mut [u8]) -> Answer
    requires { Premise c.now d.now t.now }
    ensures { Requested write_list c.now c.now d.now d.now
        t.now t.now out.old (saw result out.new) }
{
    flic::flic_write_list(c, d, t, out)
}

// A move list is played: the controller is made fresh, and the list's requests are applied.
#[unsafe(no_mangle)]
pub extern "C" fn flic_play_list(
    c: &mut Controller,
    d: &mut Device,
    t: &mut [Place],
    list: &[u8],
) -> Answer
    requires { Premise c.old d.old t.old }
    ensures { Requested play_list c.old c.new d.old d.new
        t.old t.new list.now (saw result list.now) }
{
    flic::flic_play_list(c, d, t, list)
}
