//! The room that the host lends for a text.

ghost use Rattle.std.specs.Prelude.{◌≡◌, length};
ghost use Rattle.oth_web.specs.Room.{written};

/// Puts the text into the front of the room, where there is room for all of it. Gives the number of its bytes.
pub fn put(text: &[u8], room: &mut [u8]) -> usize
    ensures length { result ≡ length text.now }
    ensures written { room.new ≡ written text.now room.old }
{
    if room.len() >= text.len() {
        room[..text.len()].copy_from_slice(text);
    }
    text.len()
}
