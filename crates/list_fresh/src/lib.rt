// Inner crate: a move list that is played on a fresh controller of its own flag.
#![tactic(auto)]

ghost use Rattle.std.specs.Prelude.{◌≡◌, ◌≤◌, length, eqb};
ghost use Rattle.rules.specs.MoveList.{header_bytes, ais_flag_in};
ghost use Rattle.list_play.specs.Play.{told};
ghost use Rattle.list_fresh.specs.Fresh.{PlayedFresh};
ghost use Rattle.store_queues.specs.Queues.{Held};
ghost use Rattle.store.specs.Memory.{pending_in};

use calls::Bounds;
use list_play::PlayError;
use numbers::{IDS, ROOM};
use store::Controller;

// Whether the flag of a list is 1. A list that is too short for a header is refused in any case.
fn capable(list: &[u8]) -> bool
    ensures { header_bytes ≤ length list.now → result ≡ eqb (ais_flag_in list.now) 1 }
{
    if list.len() < 20 {
        return false;
    }
    numbers::read_be(list, 16, 4) == 1
}

// Makes a controller fresh, with the capability of the list's flag, whatever it held, and plays the list on it.
pub fn play_fresh(c: &mut Controller, list: &[u8]) -> Result<u64, PlayError>
    ensures held { Held c.new.order c.new.counts }
    ensures answer { PlayedFresh list.now (pending_in c.new) (told result) }
    ensures flag { header_bytes ≤ length list.now → c.new.ais ≡ eqb (ais_flag_in list.now) 1 }
{
    store::fresh(c);
    c.ais = capable(list);
    let mut image = list_image::empty();
    let mut device = adapters::fresh_device();
    let bounds = Bounds {
        places: IDS,
        room: ROOM,
    };
    list_play::play_list(c, &mut image, bounds, &mut device, list)
}
