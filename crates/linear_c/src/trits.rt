// For C: sums, differences, inner shares and tests of trit vectors in two planes.
ghost use Rattle.std.specs.Prelude.{◌≡◌, ◌++◌, ◌*◌, ◌/◌, min, length, drop};
ghost use Rattle.linear_model.specs.Trits.{add_trits, subtract_trits, inner_share, fit_trits, zero_trits};

use linear::trits;

// The sum of two trit vectors modulo 3.
#[unsafe(no_mangle)]
pub extern "C" fn add_trits(a: &[u8], b: &[u8], out: &mut [u8])
    ensures { out.new ≡
        add_trits (length out.old / 2) a.now b.now
        ++ drop (2 * (length out.old / 2)) out.old }
{
    trits::add_trits(a, b, out);
}

// The bits of `w` less the trits of `r`, modulo 3.
#[unsafe(no_mangle)]
pub extern "C" fn subtract_trits(w: &[u8], r: &[u8], out: &mut [u8])
    ensures { out.new ≡
        subtract_trits (length out.old / 2) w.now r.now
        ++ drop (2 * (length out.old / 2)) out.old }
{
    trits::subtract_trits(w, r, out);
}

// The inner share of a unit, modulo 3.
#[unsafe(no_mangle)]
pub extern "C" fn inner_share(side: u8, w: &[u8], r: &[u8], out: &mut [u8])
    ensures { out.new ≡
        inner_share (length out.old / 2) side w.now r.now
        ++ drop (2 * (length out.old / 2)) out.old }
{
    trits::inner_share(side, w, r, out);
}

// Whether no trit before place `t` has both bits set.
#[unsafe(no_mangle)]
pub extern "C" fn trits_fit(v: &[u8], t: usize) -> bool
    ensures { result ≡ fit_trits (length v.now / 2) (min t (8 * (length v.now / 2))) v.now }
{
    trits::trits_fit(v, t)
}

// Whether all trits from place `t` on are 0.
#[unsafe(no_mangle)]
pub extern "C" fn spare_bits_clear(v: &[u8], t: usize) -> bool
    ensures { result ≡ zero_trits (length v.now / 2) t v.now }
{
    trits::spare_bits_clear(v, t)
}

// Whether all trits of a row are 0.
#[unsafe(no_mangle)]
pub extern "C" fn row_is_zero(row: &[u8]) -> bool
    ensures { result ≡ zero_trits (length row.now / 2) 0 row.now }
{
    trits::row_is_zero(row)
}
