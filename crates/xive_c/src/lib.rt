// The public calls of the POWER9 sources for C: libxive.a has these names, and include/xive.h declares them. Each is
// the function of `xive` of its name, with its promise: a crate is a library or C's archive, not both.
#![tactic(auto)]

ghost use Rattle.std.specs.Prelude.{◌≡◌, []};
ghost use Rattle.xive_rules.specs.Sources.{ticket_limits, fresh, initialise, target, sync};
ghost use Rattle.xive_sources.specs.Stored.{sources_of};
ghost use Rattle.answers.specs.Answers.{saw};
ghost use Rattle.xive.specs.Surface.{Called, Read};

use answers::Answer;
use xive_sources::{Reading, SOURCES};

// Makes a fresh controller: no source is initialised. An array of zeros is a fresh controller, too.
#[unsafe(no_mangle)]
pub extern "C" fn xive_make(sources: &mut [u64; SOURCES])
    ensures { sources_of sources.new ≡ fresh ticket_limits }
{
    xive::xive_make(sources);
}

// Initialises a source, or initialises it again.
#[unsafe(no_mangle)]
pub extern "C" fn xive_initialise(
    sources: &mut [u64; SOURCES],
    number: u64,
    payload: &[u8],
) -> Answer
    ensures { Called (initialise number) sources.old sources.new payload.now
        (saw result payload.now) }
{
    xive::xive_initialise(sources, number, payload)
}

// Targets an initialised source, or targets it again.
#[unsafe(no_mangle)]
pub extern "C" fn xive_target(sources: &mut [u64; SOURCES], number: u64, payload: &[u8]) -> Answer
    ensures { Called (target number) sources.old sources.new
        payload.now (saw result payload.now) }
{
    xive::xive_target(sources, number, payload)
}

// Flushes event notifications. There are none here, so it has no effect.
#[unsafe(no_mangle)]
pub extern "C" fn xive_sync(sources: &[u64; SOURCES], number: u64) -> Answer
    ensures { Called (sync number) sources.now sources.now [] (saw result []) }
{
    xive::xive_sync(sources, number)
}

// Reads a source.
#[unsafe(no_mangle)]
pub extern "C" fn xive_read(sources: &[u64; SOURCES], number: u64) -> Reading
    ensures { Read number sources.now result }
{
    xive::xive_read(sources, number)
}
