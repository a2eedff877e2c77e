// One room: the bytes of a string at its front, and zeros after them.
ghost use Rattle.std.specs.Prelude.{◌≡◌, ◌++◌, ◌+◌, ◌-◌, ◌≤◌, length, take, drop};
ghost use Rattle.linear_model.specs.Bits.{zeros};
ghost use Rattle.pair_model.specs.StateSlice.{in_room};

use linear_words::copies::put;

// Writes zeros to bytes `at` to `end`.
pub fn clear_between(s: &mut [u8], at: usize, end: usize)
    requires { (at ≤ end) × (end ≤ length s.old) }
    ensures { s.new ≡ take at s.old ++ zeros (end - at) ++ drop end s.old }
{
    s[at..end].fill(0);
}

// Leaves the first `n` bytes of a room.
pub fn keep_room(s: &mut [u8], at: usize, n: usize, room: usize)
    requires { (n ≤ room) × (at + room ≤ length s.old) }
    ensures { s.new ≡ take at s.old ++ in_room room (take n (drop at s.old)) ++ drop (at + room) s.old }
{
    clear_between(s, at + n, at + room);
}

// Writes a string to a room.
pub fn put_room(string: &[u8], s: &mut [u8], at: usize, room: usize)
    requires { (length string.now ≤ room) × (at + room ≤ length s.old) }
    ensures { s.new ≡ take at s.old ++ in_room room string.now ++ drop (at + room) s.old }
{
    // Stays with `put`, which copies words: so a step at a deal takes 58 ns in set 2 and 65 in set 1, and by `copy_from_slice`, which
    // calls memmove, 65 and 71.
    put(string, s, at);
    clear_between(s, at + string.len(), at + room);
}
