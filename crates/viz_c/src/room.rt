//! Puts bytes into the rooms of a caller.
ghost use Rattle.std.specs.Prelude.{◌≡◌, ◌&&◌, true, false, length, take, drop, nat_le, IsTrue};
ghost use Rattle.viz_c.specs.Rooms.{IsPut};

/// Puts bytes at the front of a room, if the room is large enough, and returns whether it is.
/// `count` gets how many bytes there are in either case.
pub fn put(bytes: &[u8], room: &mut [u8], count: &mut usize) -> bool
    ensures fits { result ≡ nat_le (length bytes.now) (length room.old) }
    ensures count { count.new ≡ length bytes.now }
    ensures put { IsTrue result → IsPut bytes.now room.old room.new }
    ensures kept { result ≡ false → room.new ≡ room.old }
{
    *count = bytes.len();
    if bytes.len() > room.len() {
        return false;
    }
    room[..bytes.len()].copy_from_slice(bytes);
    true
}

/// Puts each of two pieces at the front of a room of its own, if both rooms are large enough, and
/// returns whether they are. The counts get how many bytes there are in either case.
pub fn put_both(
    first: &[u8],
    second: &[u8],
    first_room: &mut [u8],
    first_count: &mut usize,
    second_room: &mut [u8],
    second_count: &mut usize,
) -> bool
    ensures fits { result ≡ (nat_le (length first.now) (length first_room.old)
        && nat_le (length second.now) (length second_room.old)) }
    ensures first_count { first_count.new ≡ length first.now }
    ensures second_count { second_count.new ≡ length second.now }
    ensures first { IsTrue result → IsPut first.now first_room.old first_room.new }
    ensures second { IsTrue result → IsPut second.now second_room.old second_room.new }
    ensures first_kept { result ≡ false → first_room.new ≡ first_room.old }
    ensures second_kept { result ≡ false → second_room.new ≡ second_room.old }
{
    *first_count = first.len();
    *second_count = second.len();
    if first.len() > first_room.len() || second.len() > second_room.len() {
        return false;
    }
    first_room[..first.len()].copy_from_slice(first);
    second_room[..second.len()].copy_from_slice(second);
    true
}
