// ŵi, the body of a mask frame. No branch depends on a half, a mask or a frame.
ghost use Rattle.std.specs.Prelude.{◌≡◌, cond, eqb, length};
ghost use Rattle.linear_model.specs.Bits.{add_bits};
ghost use Rattle.pair_frames.specs.Schemes.{scheme_in};
ghost use Rattle.pair_model.specs.Scheme.{no_files, field};
ghost use Rattle.pair_model.specs.Frame.{open_kind, open_layout, frame_bytes, body_of};
ghost use Rattle.pair_model.specs.Unit.{mask_of};

use linear::bits::{add_bits, add_bits_to};
use linear::products::circulant_product;
use linear_words::copies::put;
use pair_frames::sizes::{HEADER_BYTES, STRING_ROOM, Sizes};

// What a unit brings to its mask: both halves, and of its deal K̃i, x̃i and zi.
#[derive(Clone, Copy)]
pub struct MaskSecrets<'a> {
    pub key: &'a [u8],
    pub label: &'a [u8],
    pub key_mask: &'a [u8],
    pub label_mask: &'a [u8],
    pub z: &'a [u8],
}

// K̂ or x̂: a half, its mask and what the other unit has opened, added modulo 2.
fn add_opened(half: &[u8], mask: &[u8], other: &[u8], out: &mut [u8])
    ensures { out.new ≡
        add_bits (length out.old) (add_bits (length out.old) half.now mask.now) other.now }
{
    add_bits(half, mask, out);
    add_bits_to(other, out);
}

// What K̂ is multiplied with in ŵi: x̃i, and on side 0 x̃0 + x̂.
fn label_factor(side: u8, label_hat: &[u8], label_mask: &[u8], out: &mut [u8])
    requires { length label_mask.now ≡ length out.old }
    ensures { out.new ≡
        cond (eqb side 0) (add_bits (length out.old) label_mask.now label_hat.now) label_mask.now }
{
    if side == 0 {
        add_bits(label_mask, label_hat, out);
    } else {
        put(label_mask, out, 0);
    }
}

// ŵi = K̂ × x̃i + K̃i × x̂ + zi modulo 2; side 0 also adds K̂ × x̂. The product is linear, so K̂ × x̃0 + K̂ × x̂ is one product.
fn mask_of(
    sizes: Sizes,
    side: u8,
    key_hat: &[u8],
    label_hat: &[u8],
    own: MaskSecrets,
    out: &mut [u8],
)
    requires { (length own.label_mask.now ≡ sizes.key_bytes) × (length out.old ≡ sizes.inner_bytes) }
    ensures { out.new ≡
        mask_of (scheme_in sizes) no_files side key_hat.now label_hat.now own.entry.key_mask.now own.entry.label_mask.now
        own.entry.z.now }
{
    let n = sizes.key_bytes;
    let m = sizes.inner_bytes;
    let mut factor = [0u8; STRING_ROOM];
    let mut work = [0u8; STRING_ROOM];
    label_factor(side, label_hat, own.label_mask, &mut factor[..n]);
    circulant_product(key_hat, &factor[..n], out);
    circulant_product(own.key_mask, label_hat, &mut work[..m]);
    add_bits_to(&work[..m], out);
    add_bits_to(own.z, out);
}

// Writes ŵi, of the halves, the deal and the other's open frame.
pub fn write_own_mask(sizes: Sizes, side: u8, own: MaskSecrets, f: &[u8], out: &mut [u8])
    requires { (length own.label_mask.now ≡ sizes.key_bytes) × (length f.now ≡ frame_bytes (scheme_in sizes) open_kind)
        × (length out.old ≡ sizes.inner_bytes) }
    ensures { out.new ≡
        mask_of (scheme_in sizes) no_files side
        (add_bits sizes.key_bytes (add_bits sizes.key_bytes own.entry.key.now own.entry.key_mask.now)
        (field (open_layout (scheme_in sizes)) 0 (body_of f.now)))
        (add_bits sizes.key_bytes (add_bits sizes.key_bytes own.entry.label.now own.entry.label_mask.now)
        (field (open_layout (scheme_in sizes)) 1 (body_of f.now)))
        own.entry.key_mask.now own.entry.label_mask.now own.entry.z.now }
{
    let n = sizes.key_bytes;
    let label_at = HEADER_BYTES + n;
    let mut key_hat = [0u8; STRING_ROOM];
    let mut label_hat = [0u8; STRING_ROOM];
    add_opened(
        own.key,
        own.key_mask,
        &f[HEADER_BYTES..label_at],
        &mut key_hat[..n],
    );
    add_opened(
        own.label,
        own.label_mask,
        &f[label_at..label_at + n],
        &mut label_hat[..n],
    );
    mask_of(sizes, side, &key_hat[..n], &label_hat[..n], own, out);
}
