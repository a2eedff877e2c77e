// Tests of trit vectors in two planes. No branch depends on a vector's bytes but in `row_is_zero`, whose row is public and goes trit by trit.
// Planes of eight bytes or more are tested for fitness by words, the last of which may begin within the one before it; all else goes byte by
// byte.
ghost use Rattle.std.specs.Prelude.{◌≡◌, ◌+◌, ◌*◌, ◌/◌, ◌%◌, ◌^◌, ◌<◌, ◌≤◌, min, eqb, length};
ghost use Rattle.linear_model.specs.Tables.{from, every};
ghost use Rattle.linear_model.specs.Bits.{byte_of, from_bits};
ghost use Rattle.linear_model.specs.Trits.{fit_trits, zero_trits};
ghost use Rattle.linear_model.specs.Internal.Tests.{Shows, inside, fit_before, zero_after};

use linear_words::bytes::byte_at;
use linear_words::words::{byte_of, word};

// The 64 places from byte `i` on that are before `t`.
fn places(t: usize, i: usize) -> u64
    ensures { result ≡ from_bits 64 (from (8 * i) (inside t)) }
{
    match (t / 8).checked_sub(i) {
        None => 0,
        Some(whole) if 8 <= whole => u64::MAX,
        Some(whole) => (1 << (8 * whole + t % 8)) - 1,
    }
}

// The places of byte `i` that are before `t`.
fn byte_places(t: usize, i: usize) -> u8
    ensures { result ≡ byte_of (inside t) i }
{
    byte_of(places(t, i), 0)
}

// The places before `t` that have both bits set, gathered in one byte. The vector's two planes are the halves of `v`.
// Stays apart from `unfit_words`: no plainer as one, since a last word may begin within the one before it, and bytes never do.
fn unfit_bytes(v: &[u8], m: usize, t: usize) -> u8
    requires { m ≡ length v.now / 2 }
    ensures { eqb result 0 ≡ fit_trits (length v.now / 2) (min t (8 * (length v.now / 2))) v.now }
{
    let mut seen: u8 = 0;
    for i in 0..m {
        seen |= byte_at(v, i) & byte_at(v, m + i) & byte_places(t, i);
    }
    seen
}

// Places 8i to 8i + 63 that are before `t` and have both bits set.
fn unfit_word(v: &[u8], m: usize, t: usize, i: usize) -> u64
    requires { m + i + 8 ≤ length v.now }
    ensures { Shows 64 (fit_before m t v.now) (8 * i) result }
{
    word(v, i) & word(v, m + i) & places(t, i)
}

// The places before `t` that have both bits set, gathered in one word: that of all whole words of a plane, and where bytes are left of
// its last eight.
fn unfit_words(v: &[u8], m: usize, t: usize) -> u64
    requires { (8 ≤ m) × (m ≡ length v.now / 2) }
    ensures { eqb result 0 ≡ fit_trits (length v.now / 2) (min t (8 * (length v.now / 2))) v.now }
{
    let mut seen: u64 = 0;
    for i in 0..m / 8 {
        seen |= unfit_word(v, m, t, 8 * i);
    }
    if m % 8 != 0 {
        seen |= unfit_word(v, m, t, m - 8);
    }
    seen
}

// Whether no trit before place `t` has both bits set. A plane has `m` bytes: where that is a literal, this gets code of its own.
#[inline(always)]
pub fn planes_fit(v: &[u8], m: usize, t: usize) -> bool
    requires { m ≡ length v.now / 2 }
    ensures { result ≡ fit_trits (length v.now / 2) (min t (8 * (length v.now / 2))) v.now }
{
    if 8 <= m {
        unfit_words(v, m, t) == 0
    } else {
        unfit_bytes(v, m, t) == 0
    }
}

// The same for vectors of any length, with the sizes in use written out.
// Stays a match over literals: a const parameter would take a second function for all other sizes.
#[inline(never)]
fn any_trits_fit(v: &[u8], t: usize) -> bool
    ensures { result ≡ fit_trits (length v.now / 2) (min t (8 * (length v.now / 2))) v.now }
{
    match (v.len() / 2, t) {
        (8, 64) => planes_fit(v, 8, t),
        (21, 162) => planes_fit(v, 21, t),
        (64, 512) => planes_fit(v, 64, t),
        (3, 21) => planes_fit(v, 3, t),
        (m, _) => planes_fit(v, m, t),
    }
}

// The same. Document 01's sizes stand here alone, so that it is short enough to be compiled into its callers: called, its slice goes through
// memory, which takes as long as the test.
// Stays a match over literals, as above.
pub fn trits_fit(v: &[u8], t: usize) -> bool
    ensures { result ≡ fit_trits (length v.now / 2) (min t (8 * (length v.now / 2))) v.now }
{
    match (v.len() / 2, t) {
        (32, 256) => planes_fit(v, 32, t),
        (11, 81) => planes_fit(v, 11, t),
        _ => any_trits_fit(v, t),
    }
}

// The places of byte `i` of each plane, from `t` on, that have a bit set.
fn spare_byte(v: &[u8], m: usize, t: usize, i: usize) -> u8
    requires { m + i < 2 ^ 64 }
    ensures { Shows 8 (zero_after m t v.now) (8 * i) result }
{
    let some = byte_at(v, i) | byte_at(v, m + i);
    some ^ (some & byte_places(t, i))
}

// The places from `t` on that have a bit set, gathered in one byte. Before byte t / 8 there are none.
fn spare(v: &[u8], t: usize) -> u8
    ensures { eqb result 0 ≡ zero_trits (length v.now / 2) t v.now }
{
    let m = v.len() / 2;
    let mut seen: u8 = 0;
    for i in t / 8..m {
        seen |= spare_byte(v, m, t, i);
    }
    seen
}

// Whether all trits from place `t` on are 0.
pub fn spare_bits_clear(v: &[u8], t: usize) -> bool
    ensures { result ≡ zero_trits (length v.now / 2) t v.now }
{
    spare(v, t) == 0
}

// Whether all trits of a row are 0. A row is public: the loop goes trit by trit, place 0 first, and is left at the first that is not 0, where
// the answer is known; one with both bits set is not 0 either. The trit at hand is at place `q` of byte `i` of each plane, since eight times a
// length might not fit a `usize`.
pub fn row_is_zero(row: &[u8]) -> bool
    ensures { result ≡ zero_trits (length row.now / 2) 0 row.now }
{
    let m = row.len() / 2;
    let mut i: usize = 0;
    let mut q: usize = 0;
    // Stays a while: the row is gone through in one loop, and the must-fail edit byte_begun_again is about how that moves on. A range over all
    // trits could end past what a `usize` holds.
    while i < m {
        if ((byte_at(row, i) | byte_at(row, m + i)) >> q) % 2 != 0 {
            return false;
        }
        i += (q + 1) / 8;
        q = (q + 1) % 8;
    }
    true
}
