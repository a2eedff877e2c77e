// Trit vectors in two planes: sums, differences and inner shares modulo 3, and tests. No branch depends on a vector's bytes but in
// `row_is_zero`, whose row is public.
ghost use Rattle.std.specs.Prelude.{◌≡◌, ◌++◌, ◌*◌, ◌/◌, min, length, drop};
ghost use Rattle.linear_model.specs.Trits.{add_trits, subtract_trits, inner_share, fit_trits, zero_trits};

use linear_fit::fit;
use linear_shares::shares;
use linear_sums::sums;

// The sum of two trit vectors modulo 3, in the planes that `out` has room for.
pub fn add_trits(a: &[u8], b: &[u8], out: &mut [u8])
    ensures { out.new ≡
        add_trits (length out.old / 2) a.now b.now
        ++ drop (2 * (length out.old / 2)) out.old }
{
    sums::add_trits(a, b, out);
}

// The bits of `w` less the trits of `r`, modulo 3, in the planes that `out` has room for.
pub fn subtract_trits(w: &[u8], r: &[u8], out: &mut [u8])
    ensures { out.new ≡
        subtract_trits (length out.old / 2) w.now r.now
        ++ drop (2 * (length out.old / 2)) out.old }
{
    shares::subtract_trits(w, r, out);
}

// The inner share of a unit, r + ŵ × r, to which side 0 also adds ŵ, modulo 3, in the planes that `out` has room for.
pub fn inner_share(side: u8, w: &[u8], r: &[u8], out: &mut [u8])
    ensures { out.new ≡
        inner_share (length out.old / 2) side w.now r.now
        ++ drop (2 * (length out.old / 2)) out.old }
{
    shares::inner_share(side, w, r, out);
}

// Whether no trit before place `t` has both bits set.
pub fn trits_fit(v: &[u8], t: usize) -> bool
    ensures { result ≡ fit_trits (length v.now / 2) (min t (8 * (length v.now / 2))) v.now }
{
    fit::trits_fit(v, t)
}

// Whether all trits from place `t` on are 0.
pub fn spare_bits_clear(v: &[u8], t: usize) -> bool
    ensures { result ≡ zero_trits (length v.now / 2) t v.now }
{
    fit::spare_bits_clear(v, t)
}

// Whether all trits of a row are 0. A row is public: this leaves at the first trit that is not 0.
pub fn row_is_zero(row: &[u8]) -> bool
    ensures { result ≡ zero_trits (length row.now / 2) 0 row.now }
{
    fit::row_is_zero(row)
}
