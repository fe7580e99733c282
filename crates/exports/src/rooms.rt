// The room of each table at the limits, so that neither header nor host repeats one.
ghost use Rattle.std.specs.Prelude.{◌≡◌};
ghost use Rattle.exports_numbers.specs.Numbers.{room_numbers};

use exports_numbers::{Numbers, rooms};

pub fn wagontulip_rooms(rooms: &mut Numbers)
    ensures { rooms.new ≡ room_numbers }
{
    *rooms = rooms::at_limits();
}
