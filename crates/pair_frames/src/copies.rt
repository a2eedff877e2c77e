// Parts of strings, copied.
ghost use Rattle.std.specs.Prelude.{◌≡◌, ◌++◌, ◌+◌, ◌≤◌, length, take, drop};

use linear_words::copies::put;

// Copies `n` bytes of `s` from `first` on to `out` from `at` on.
pub fn put_part(s: &[u8], first: usize, n: usize, out: &mut [u8], at: usize)
    requires { (first + n ≤ length s.now) × (at + n ≤ length out.old) }
    ensures long { length (take n (drop first s.now)) ≡ n }
    ensures output { out.new ≡
        take at out.old ++ take n (drop first s.now)
        ++ drop (at + length (take n (drop first s.now))) out.old }
{
    // Stays put: by copy_from_slice read_deal takes 17.5 ns and not 12.4 in set 1, and 21.6 ns and not 8.7 in set 2, and an open frame
    // whose header is copied so 15.2 ns and not 12.6.
    put(&s[first..first + n], out, at);
}
