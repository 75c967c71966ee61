// Inner crate: POWER9 sources as stored numbers, by value and in the lent array, and types of their own for numbers
// that must not be confused. Which bit of a stored number says what is drawn in specs/Stored.antt.
#![tactic(auto)]

ghost use Rattle.std.specs.Prelude.{◌≡◌, false, ◌<◌, ltb, set};
ghost use mathlib.Core.Option.{some};
ghost use Rattle.xive_rules.specs.Words.{server_in, targeting_word, bits};
ghost use Rattle.xive_rules.specs.Sources.{Source, ticket_limits, initial, targeted, values_of};
ghost use Rattle.xive_sources.specs.Stored.{level_of, source_of, Looked, values_in};

use answers::Refusal;

// A number for each, in an array that C lends.
pub const SOURCES: usize = 1024;

pub const SERVERS: u64 = 16;

// The bytes of a payload that are read.
pub const WORD_BYTES: usize = 8;

// The number of a source: a place in the lent array, and nothing else.
#[derive(Clone, Copy, Debug, PartialEq, Eq)]
pub struct SourceNumber(pub u64);

// What the guest reads for the source.
#[derive(Clone, Copy, Debug, PartialEq, Eq)]
pub struct EffectiveNumber(pub u64);

// The processor that handles the interrupt.
#[derive(Clone, Copy, Debug, PartialEq, Eq)]
pub struct Server(pub u64);

#[derive(Clone, Copy, Debug, PartialEq, Eq)]
pub struct Priority(pub u64);

// The fields of a targeting word (002, group 3). The mask bit is kept and has no effect.
#[derive(Clone, Copy, Debug, PartialEq, Eq)]
pub struct Targeting {
    pub priority: Priority,
    pub server: Server,
    pub mask: u64,
    pub effective: EffectiveNumber,
}

// What a reading answers and gives, as C reads it (xive.h): numbers and flags, and Drop alone, since nothing copies it.
#[repr(C)]
#[derive(Drop)]
pub struct Reading {
    pub code: u32,
    pub level: u8,
    pub kind: u8,
    pub masked: bool,
    pub count: u64,
    pub word: u64,
}

// No From, nor for targeting_of and word_of: a word is any number, and not every targeting has one.
pub fn server_in(word: u64) -> Server
    ensures { result.0 ≡ server_in word }
{
    Server(word / 8 % 536870912)
}

pub fn is_server(server: Server) -> bool
    ensures { result ≡ ltb server.0 ticket_limits.servers }
{
    server.0 < SERVERS
}

// The stored number of a source that was initialised with this word. The level of an MSI is stored, too, and never read
// (`level_of`).
pub fn initialised_with(word: u64) -> u64
    ensures { source_of result ≡ some (initial word) }
{
    128 + word % 4 * 512
}

// The stored number of an initialised source that was targeted with this word.
pub fn targeted_with(stored: u64, word: u64) -> u64
    requires { server_in word < ticket_limits.servers }
    ensures { (x : Source) → source_of stored ≡ some x → source_of result ≡ some (targeted word x) }
{
    word + 384 + stored / 512 % 4 * 512
}

// The stored number of an initialised source, or why there is none.
pub fn look_up(sources: &[u64; SOURCES], number: SourceNumber) -> Result<u64, Refusal>
    ensures { Looked sources.now number.0 result }
{
    let Some(&stored) = sources.get(number.0 as usize) else {
        return Err(Refusal::NoEntry);
    };
    if stored / 128 % 2 == 0 {
        return Err(Refusal::Invalid);
    }
    Ok(stored)
}

pub fn store(sources: &mut [u64; SOURCES], number: SourceNumber, stored: u64)
    requires { number.0 < ticket_limits.sources }
    ensures { sources.new ≡ set sources.old number.0 stored }
{
    sources[number.0 as usize] = stored;
}

// The targeting of a source, out of its stored number: without the bits that say what else there is to know.
pub fn targeting_of(stored: u64) -> Targeting
    ensures { (result.priority.0 ≡ bits 0 3 stored) × (result.server.0 ≡ bits 3 4 stored)
        × (result.mask ≡ bits 32 1 stored) × (result.effective.0 ≡ bits 33 31 stored) }
{
    Targeting {
        priority: Priority(stored % 8),
        server: Server(stored / 8 % 16),
        mask: stored / 4294967296 % 2,
        effective: EffectiveNumber(stored / 8589934592),
    }
}

// The word of a targeting.
pub fn word_of(targeting: Targeting) -> u64
    requires { (targeting.priority.0 < 8) × (targeting.server.0 < 536870912) × (targeting.mask < 2)
        × (targeting.effective.0 < 2147483648) }
    ensures { result ≡ targeting_word targeting.priority.0 targeting.server.0 targeting.mask
        targeting.effective.0 }
{
    targeting.effective.0 * 8589934592
        + targeting.mask * 4294967296
        + targeting.server.0 * 8
        + targeting.priority.0
}

pub fn level_of(stored: u64) -> u8
    ensures { result ≡ level_of stored }
{
    if stored / 512 % 2 == 1 {
        (stored / 1024 % 2) as u8
    } else {
        0
    }
}

// A reading of an initialised source.
pub fn read_out(stored: u64) -> Reading
    ensures { (result.code ≡ 0) × (result.count ≡ 0)
        × ((x : Source) → source_of stored ≡ some x → values_in result ≡ values_of (some x)) }
{
    let masked = stored / 256 % 2 == 0;
    Reading {
        code: 0,
        level: level_of(stored),
        kind: (stored / 512 % 2) as u8,
        masked,
        count: 0,
        word: if masked {
            0
        } else {
            word_of(targeting_of(stored))
        },
    }
}

// A reading that is refused: every value is 0 or false. A code, not a Refusal: the promise is for every code.
pub fn read_nothing(code: u32) -> Reading
    ensures { result ≡ record { code = code; level = 0; kind = 0; masked = false; count = 0; word = 0 } }
{
    Reading {
        code,
        level: 0,
        kind: 0,
        masked: false,
        count: 0,
        word: 0,
    }
}
