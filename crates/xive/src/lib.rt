// The public calls of the POWER9 sources. A caller may use only this crate, with the array of stored numbers that the
// caller lends and the `answers::Answer` or `xive_sources::Reading` that a call returns.
#![tactic(auto)]

ghost use Rattle.std.specs.Prelude.{◌≡◌, []};
ghost use Rattle.xive_rules.specs.Sources.{ticket_limits, fresh, initialise, target, sync};
ghost use Rattle.xive_sources.specs.Stored.{sources_of};
ghost use Rattle.answers.specs.Answers.{saw};
ghost use Rattle.xive.specs.Surface.{Called, Ran, Read};

use answers::{Answer, Refusal};
use xive_sources::{Reading, SOURCES, SourceNumber, WORD_BYTES};

// Makes a fresh controller: no source is initialised. An array of zeros is a fresh controller, too.
#[unsafe(no_mangle)]
pub extern "C" fn xive_make(sources: &mut [u64; SOURCES])
    ensures { sources_of sources.new ≡ fresh ticket_limits }
{
    *sources = [0u64; SOURCES];
}

// Initialises a source, or initialises it again.
#[unsafe(no_mangle)]
pub extern "C" fn xive_initialise(
    sources: &mut [u64; SOURCES],
    number: u64,
    payload: &[u8],
) -> Answer
    ensures { Called (initialise number) sources.old sources.new payload.now
        (saw result payload.now) }
{
    Answer::from(initialise(sources, number, payload))
}

// The same, with a refusal by its name.
fn initialise(sources: &mut [u64; SOURCES], number: u64, payload: &[u8]) -> Result<u64, Refusal>
    ensures { Ran (initialise number) sources.old sources.new payload.now result }
{
    if payload.len() < WORD_BYTES {
        return Err(Refusal::Fault);
    }
    if SOURCES as u64 <= number {
        return Err(Refusal::TooBig);
    }
    let word = numbers::read_doubleword(payload, 0);
    xive_sources::store(
        sources,
        SourceNumber(number),
        xive_sources::initialised_with(word),
    );
    Ok(0)
}

// Targets an initialised source, or targets it again.
#[unsafe(no_mangle)]
pub extern "C" fn xive_target(sources: &mut [u64; SOURCES], number: u64, payload: &[u8]) -> Answer
    ensures { Called (target number) sources.old sources.new
        payload.now (saw result payload.now) }
{
    Answer::from(target(sources, number, payload))
}

// The same, with a refusal by its name.
fn target(sources: &mut [u64; SOURCES], number: u64, payload: &[u8]) -> Result<u64, Refusal>
    ensures { Ran (target number) sources.old sources.new payload.now result }
{
    if payload.len() < WORD_BYTES {
        return Err(Refusal::Fault);
    }
    let number = SourceNumber(number);
    let stored = xive_sources::look_up(sources, number)?;
    let word = numbers::read_doubleword(payload, 0);
    if !xive_sources::is_server(xive_sources::server_in(word)) {
        return Err(Refusal::Invalid);
    }
    xive_sources::store(sources, number, xive_sources::targeted_with(stored, word));
    Ok(0)
}

// Flushes event notifications. There are none here, so it has no effect.
#[unsafe(no_mangle)]
pub extern "C" fn xive_sync(sources: &[u64; SOURCES], number: u64) -> Answer
    ensures { Called (sync number) sources.now sources.now [] (saw result []) }
{
    let found = xive_sources::look_up(sources, SourceNumber(number));
    Answer::from(found.and(Ok(0)))
}

// Reads a source.
#[unsafe(no_mangle)]
pub extern "C" fn xive_read(sources: &[u64; SOURCES], number: u64) -> Reading
    ensures { Read number sources.now result }
{
    match xive_sources::look_up(sources, SourceNumber(number)) {
        Ok(stored) => xive_sources::read_out(stored),
        Err(refusal) => xive_sources::read_nothing(refusal.code()),
    }
}
