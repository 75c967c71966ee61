// Inner crate: an adapter place as one number, and a table as an array of them. That its places are ones that calls
// leave (`Imaged`) is no invariant of an array: lent_table::snapshot makes one of any table.
#![tactic(auto)]

ghost use Rattle.std.specs.Prelude.{◌≡◌, ◌≤◌, ◌<◌, get_or, set, take, replicate};
ghost use Rattle.rules.specs.State.{free};
ghost use Rattle.adapters.specs.Values.{place_of, Canonical};
ghost use Rattle.list_image.specs.Places.{places_of, Imaged};
ghost use Rattle.list_image.specs.Image.{image_size, packed, unpacked};

use adapters::Place;
use numbers::{AdapterId, PLACES, Subclass};

// The place at an id below `places`, which is one number here, and no bounds of a controller. Any other id reads as
// free. The lent table has a function of its own, lent_table's: a slice can't be a type parameter.
#[tactic(auto, using(crate::proofs::Laws::read_in, crate::proofs::Laws::read_out, crate::proofs::Laws::read_canonical))]
pub fn look_up(image: &[u64; PLACES], places: u64, id: AdapterId) -> Place
    requires { (places ≤ image_size) × Imaged image.now }
    ensures { (place_of result ≡ get_or (take places (places_of image.now)) id.0 free) × Canonical result }
{
    if id.0 < places {
        place_at(image, id)
    } else {
        adapters::free_place()
    }
}

// Stores p at an id below `places`. For any other id nothing changes.
#[tactic(auto, using(crate::proofs::Laws::write_in, crate::proofs::Laws::write_imaged))]
pub fn put(image: &mut [u64; PLACES], places: u64, id: AdapterId, p: Place)
    requires { (places ≤ image_size) × Imaged image.old × Canonical p }
    ensures { (take places (places_of image.new)
        ≡ set (take places (places_of image.old)) id.0 (place_of p)) × Imaged image.new }
{
    if id.0 < places {
        put_place(image, id, p);
    }
}

// The number of a place. A function, and no From: that trait, Place and u64 are all of other crates.
#[tactic(auto, using(numbers::proofs::Laws::flag), unfolding(crate::specs::Image::packed, rules::specs::Bytes::choose))]
pub fn pack(p: Place) -> u64
    ensures { result ≡ packed p }
{
    if !p.used {
        return 0;
    }
    128 + numbers::subclass_byte(p.isc) % 8 * 16
        + u64::from(p.maskable) * 8
        + u64::from(p.swap) * 4
        + u64::from(p.suppressible) * 2
        + u64::from(p.masked)
}

// The place that a number says: a function for the same reason.
#[tactic(auto, unfolding(crate::specs::Image::unpacked, rules::specs::Bytes::choose))]
pub fn unpack(b: u64) -> Place
    ensures { result ≡ unpacked b }
{
    if b < 128 {
        return adapters::free_place();
    }
    Place {
        used: true,
        isc: Subclass((b / 16 % 8) as u8),
        maskable: b / 8 % 2 == 1,
        swap: b / 4 % 2 == 1,
        suppressible: b / 2 % 2 == 1,
        masked: b % 2 == 1,
    }
}

// An image of unused places.
pub fn empty() -> [u64; PLACES]
    ensures { result ≡ replicate image_size 0 }
{
    [0; PLACES]
}

// Makes every place of an image unused.
pub fn clear(image: &mut [u64; PLACES])
    ensures { image.new ≡ replicate image_size 0 }
{
    *image = empty();
}

// Stores p at the id.
pub fn put_place(image: &mut [u64; PLACES], id: AdapterId, p: Place)
    requires { id.0 < image_size }
    ensures { image.new ≡ set image.old id.0 (packed p) }
{
    image[id.0 as usize] = pack(p);
}

// The place at the id.
pub fn place_at(image: &[u64; PLACES], id: AdapterId) -> Place
    requires { id.0 < image_size }
    ensures { result ≡ unpacked (get_or image.now id.0 0) }
{
    unpack(image[id.0 as usize])
}
