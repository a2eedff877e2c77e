// Bytes of strings, and parts of strings.
ghost use Rattle.std.specs.Prelude.{◌≡◌, ◌≤◌, length, take, drop, get_or};

// The first `n` bytes of `s`.
pub fn front(s: &[u8], n: usize) -> &[u8]
    ensures { (result.now ≡ take n s.now) × (length result.now ≤ n) }
{
    s.get(..n).unwrap_or(s)
}

// `s` from `n` on; past the end, empty.
pub fn skip(s: &[u8], n: usize) -> &[u8]
    ensures { result.now ≡ drop n s.now }
{
    s.get(n..).unwrap_or(&[])
}

// Byte `i` of `s`; past the end, 0.
pub fn byte_at(s: &[u8], i: usize) -> u8
    ensures { result ≡ get_or s.now i 0 }
{
    s.get(i).copied().unwrap_or(0)
}
