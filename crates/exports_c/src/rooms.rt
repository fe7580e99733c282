// The room of each table at the limits, for C.
ghost use Rattle.std.specs.Prelude.{◌≡◌};
ghost use Rattle.exports_numbers.specs.Numbers.{room_numbers};

use exports::rooms;
use exports_numbers::Numbers;

#[unsafe(no_mangle)]
pub extern "C" fn wagontulip_rooms(rooms: &mut Numbers)
    ensures { rooms.new ≡ room_numbers }
{
    rooms::wagontulip_rooms(rooms);
}
