// Inner crate: the service record and the machine check, at most one of each, in lent bytes. The service record stands
// from byte 0, the machine check from byte 72. Bytes 144 and 145 say whether each is there: 0 if not. C's array: no
// Option of a record.
#![tactic(auto)]

ghost use Rattle.std.specs.Prelude.{◌≡◌, ◌+◌, ◌≤◌, ◌<◌, not, take, drop, eqb};
ghost use mathlib.Core.Option.{none, some};
ghost use mathlib.Core.List.{◌++◌, zip_with};
ghost use Rattle.std.specs.Int.Bits.{bit_or};
ghost use Rattle.rules.specs.Bytes.{byte, part};
ghost use Rattle.rules.specs.State.{first_or, merged_or};
ghost use Rattle.store_singles.specs.Singles.{service_of, mchk_of, flag_of, start_of, single_of, other};

use numbers::SINGLES_BYTES;

// One of the two.
#[derive(Clone, Copy)]
pub enum Single {
    Service,
    MachineCheck,
}

// Where its record starts.
fn start(which: Single) -> usize
    ensures { (result ≡ start_of which) × (result + 72 ≤ 144) }
{
    match which {
        Single::Service => 0,
        Single::MachineCheck => 72,
    }
}

// Where the byte stands that says whether it is there.
fn flag(which: Single) -> usize
    ensures { (result ≡ flag_of which) × (result < 146) }
{
    match which {
        Single::Service => 144,
        Single::MachineCheck => 145,
    }
}

pub fn is_there(g: &[u8; SINGLES_BYTES], which: Single) -> bool
    ensures { result ≡ not (eqb (byte (flag_of which) g.now) 0) }
{
    g[flag(which)] != 0
}

pub fn read(g: &[u8; SINGLES_BYTES], which: Single) -> [u8; 72]
    ensures { result ≡ part (start_of which) 72 g.now }
{
    numbers::load(g, start(which))
}

// Writes r as one of the two. The other one stays.
fn put(g: &mut [u8; SINGLES_BYTES], which: Single, r: [u8; 72])
    ensures { (single_of which g.new ≡ some r) × (single_of (other which) g.new ≡ single_of (other which) g.old) }
{
    numbers::save(g, start(which), r);
    g[flag(which)] = 1;
}

// Adds a service record. The first one stays.
pub fn add_service(g: &mut [u8; SINGLES_BYTES], r: [u8; 72])
    ensures { (service_of g.new ≡ some (first_or (service_of g.old) r))
        × (mchk_of g.new ≡ mchk_of g.old) }
{
    if !is_there(g, Single::Service) {
        put(g, Single::Service, r);
    }
}

// ORs bytes 8 to 23 of r, cr14 and mcic, into the machine check.
fn merge(g: &mut [u8; SINGLES_BYTES], r: [u8; 72])
    ensures { g.new ≡ take 80 g.old
        ++ (zip_with bit_or (part 80 16 g.old) (part 8 16 r) ++ drop 96 g.old) }
{
    for i in 0..16 {
        g[80 + i] |= r[8 + i];
    }
}

// Adds a machine check. Of a second one the bits of cr14 and mcic are added to the first.
pub fn add_mchk(g: &mut [u8; SINGLES_BYTES], r: [u8; 72])
    ensures { (mchk_of g.new ≡ some (merged_or (mchk_of g.old) r))
        × (service_of g.new ≡ service_of g.old) }
{
    if is_there(g, Single::MachineCheck) {
        merge(g, r);
    } else {
        put(g, Single::MachineCheck, r);
    }
}

// Removes one of the two. The other one stays.
pub fn remove(g: &mut [u8; SINGLES_BYTES], which: Single)
    ensures { (single_of which g.new ≡ none) × (single_of (other which) g.new ≡ single_of (other which) g.old) }
{
    g[flag(which)] = 0;
}
