// The counter's join: the code of two share frames.
ghost use Rattle.std.specs.Prelude.{◌≡◌, [], ◌∷◌, cond, not, eqb, ltb, ◌≤◌, length, take};
ghost use Rattle.linear_model.specs.Trits.{fit_trits, zero_trits};
ghost use Rattle.linear_model.specs.Products.{plane_bytes};
ghost use Rattle.numbers.specs.Number.{◌when◌, first, output};
ghost use Rattle.numbers.specs.Refusals.{answer_number};
ghost use Rattle.pair_frames.specs.Schemes.{scheme_in};
ghost use Rattle.numbers.specs.Sets.{number_in};
ghost use Rattle.pair_model.specs.Base.{scheme_of};
ghost use Rattle.pair_model.specs.Frame.{share_kind, frame_bytes, body_of, code_bytes};
ghost use Rattle.pair_model.specs.Join.{join_header_conditions, join_conditions, join_number, joined};

use linear::trits::{add_trits, spare_bits_clear, trits_fit};
use numbers::refusal::Refusal;
use pair_frames::frame::{SHARE, check_header, check_line, code_bytes, line_of, read_header};
use pair_frames::header::Header;
use pair_frames::sets::named_sizes;
use pair_frames::sizes::{HEADER_BYTES, Sizes};

// The refusal of the lower number, where there are two.
fn lower(a: Result<(), Refusal>, b: Result<(), Refusal>) -> Result<(), Refusal>
    ensures { answer_number result ≡
        cond (eqb (answer_number a) 0) (answer_number b)
        (cond (eqb (answer_number b) 0) (answer_number a)
        (cond (ltb (answer_number a) (answer_number b)) (answer_number a) (answer_number b))) }
{
    match (a, b) {
        (Err(p), Err(q)) if q.number() <= p.number() => Err(q),
        _ => a.and(b),
    }
}

// The share in a share frame.
fn share_of(sizes: Sizes, f: &[u8]) -> &[u8]
    requires { length f.now ≡ frame_bytes (scheme_in sizes) share_kind }
    ensures { result.now ≡ take (code_bytes (scheme_in sizes)) (body_of f.now) }
{
    &f[HEADER_BYTES..HEADER_BYTES + code_bytes(sizes)]
}

// One share frame's share: 10 before 11.
fn check_share(sizes: Sizes, f: &[u8]) -> Result<(), Refusal>
    requires { length f.now ≡ frame_bytes (scheme_in sizes) share_kind }
    ensures { answer_number result ≡ first
        (10 when not (fit_trits (plane_bytes sizes.digits) sizes.digits (take (code_bytes (scheme_in sizes)) (body_of f.now)))
        ∷ 11 when not (zero_trits (plane_bytes sizes.digits) sizes.digits (take (code_bytes (scheme_in sizes)) (body_of f.now)))
        ∷ []) }
{
    let v = share_of(sizes, f);
    let fit = trits_fit(v, sizes.digits);
    let clear = spare_bits_clear(v, sizes.digits);
    if !fit {
        return Err(Refusal::UnfitTrit);
    }
    if clear {
        Ok(())
    } else {
        Err(Refusal::UnusedBit)
    }
}

// As far as both headers decide it.
fn check_headers(sizes: Sizes, f: &[u8], g: &[u8]) -> Result<(), Refusal>
    ensures { answer_number result ≡ first (join_header_conditions (scheme_in sizes) f.now g.now) }
{
    let p = read_header(sizes, f, SHARE, SHARE);
    let q = read_header(sizes, g, SHARE, SHARE);
    let (
        Header::Fields {
            side: side_f,
            session: session_f,
            ..
        },
        Header::Fields {
            side: side_g,
            session: session_g,
            ..
        },
    ) = (p, q)
    else {
        return lower(check_header(p), check_header(q));
    };
    if session_f != session_g {
        return Err(Refusal::OtherSession);
    }
    if side_f != 0 {
        return Err(Refusal::OtherSide);
    }
    if side_g != 1 {
        return Err(Refusal::OtherSide);
    }
    Ok(())
}

// A join: the room decides first, then both headers, both shares, and last the lines.
fn check_join(sizes: Sizes, f: &[u8], g: &[u8], room: usize) -> Result<(), Refusal>
    ensures { answer_number result ≡ join_number (scheme_in sizes) f.now g.now room }
{
    if room < code_bytes(sizes) {
        return Err(Refusal::WrongLength);
    }
    check_headers(sizes, f, g)?;
    lower(check_share(sizes, f), check_share(sizes, g))?;
    check_line(line_of(g), f)
}

// The code of two share frames that fit: their bodies added modulo 3. No branch depends on them.
pub fn add_shares(sizes: Sizes, first: &[u8], second: &[u8], out: &mut [u8])
    requires { (length first.now ≡ frame_bytes (scheme_in sizes) share_kind) × (length second.now ≡ frame_bytes (scheme_in sizes) share_kind)
        × (code_bytes (scheme_in sizes) ≤ length out.old) }
    ensures { out.new ≡ output 0 (joined (scheme_in sizes) first.now second.now) out.old }
{
    add_trits(
        share_of(sizes, first),
        share_of(sizes, second),
        &mut out[..code_bytes(sizes)],
    );
}

// The code of two share frames, side 0's first.
fn join_sized(sizes: Sizes, first: &[u8], second: &[u8], out: &mut [u8]) -> Result<(), Refusal>
    ensures result { answer_number result ≡ join_number (scheme_in sizes) first.now second.now (length out.old) }
    ensures output { out.new ≡ output (answer_number result) (joined (scheme_in sizes) first.now second.now) out.old }
{
    check_join(sizes, first, second, out.len())?;
    add_shares(sizes, first, second, out);
    Ok(())
}

// The same in a set.
pub fn join(set: u32, first: &[u8], second: &[u8], out: &mut [u8]) -> Result<(), Refusal>
    ensures result { answer_number result ≡ number_in set (join_conditions (scheme_of set) first.now second.now (length out.old)) }
    ensures output { out.new ≡ output (answer_number result) (joined (scheme_of set) first.now second.now) out.old }
{
    join_sized(named_sizes(set)?, first, second, out)
}
