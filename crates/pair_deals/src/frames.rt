// Both deal frames of a tape, for any sizes. No branch depends on a tape's bytes.
ghost use Rattle.std.specs.Prelude.{◌≡◌, [], ◌∷◌, ◌++◌, ◌+◌, ◌*◌, ◌≤◌, length, drop};
ghost use Rattle.numbers.specs.Number.{output};
ghost use Rattle.pair_model.specs.Scheme.{no_files, side0, side1};
ghost use Rattle.pair_model.specs.Tape.{tape_bytes, z, r};
ghost use Rattle.pair_model.specs.Frame.{shared_parameters, header, header_bytes, deal_kind, frame_bytes};
ghost use Rattle.pair_model.specs.Dealer.{deal_frame, dealt, dealt_bytes};
ghost use Rattle.pair_model.proofs.Internal.FieldCopies.{FieldsCopied};
ghost use Rattle.pair_frames.specs.Headers.{parameters_in};
ghost use Rattle.pair_frames.specs.Schemes.{scheme_in};

use crate::tape::Tape;
use linear::bits::{add_bits, add_bits_to};
use linear::products::circulant_product;
use linear::trits::subtract_trits;
use linear_words::copies::put;
use pair_frames::frame::{DEAL, frame_bytes, header_bytes};
use pair_frames::parameters::Parameters;
use pair_frames::sizes::{HEADER_BYTES, STRING_ROOM, Sizes};

// z1 = z0 + K̃ × x̃ + w̃ modulo 2.
fn second_z(tape: &Tape, out: &mut [u8])
    requires { length out.old ≡ tape.now.sizes.inner_bytes }
    ensures { out.new ≡ z (scheme_in tape.now.sizes) no_files tape.now.bytes.now side1 }
{
    let n = tape.sizes.key_bytes;
    let mut key_mask = [0; STRING_ROOM];
    let mut label_mask = [0; STRING_ROOM];
    add_bits(
        tape.first_key_mask(),
        tape.second_key_mask(),
        &mut key_mask[..n],
    );
    add_bits(
        tape.first_label_mask(),
        tape.second_label_mask(),
        &mut label_mask[..n],
    );
    circulant_product(&key_mask[..n], &label_mask[..n], out);
    add_bits_to(tape.first_z(), out);
    add_bits_to(tape.inner_mask(), out);
}

// r1 = w̃ − r0 modulo 3.
fn second_r(tape: &Tape, out: &mut [u8])
    requires { length out.old ≡ 2 * tape.now.sizes.inner_bytes }
    ensures { out.new ≡ r (scheme_in tape.now.sizes) tape.now.bytes.now side1 }
{
    subtract_trits(tape.inner_mask(), tape.first_r(), out);
}

// Writes the header of a deal frame and its two masks to the front of `out`, and gives the place after them.
fn put_masks(parameters: Parameters, key_mask: &[u8], label_mask: &[u8], out: &mut [u8]) -> usize
    requires { header_bytes + length key_mask.now + length label_mask.now ≤ length out.old }
    ensures place { result ≡ header_bytes + length key_mask.now + length label_mask.now }
    ensures fields { FieldsCopied (header_bytes + length key_mask.now + length label_mask.now)
        (header deal_kind (parameters_in parameters) ∷ key_mask.now ∷ label_mask.now ∷ []) out.old out.new }
{
    let label_at = HEADER_BYTES + key_mask.len();
    put(&header_bytes(DEAL, parameters), out, 0);
    put(key_mask, out, HEADER_BYTES);
    put(label_mask, out, label_at);
    label_at + label_mask.len()
}

// Writes unit 0's deal frame: K̃0, x̃0, z0, r0.
fn write_first(tape: &Tape, parameters: Parameters, out: &mut [u8])
    requires { (parameters.side ≡ 0) × (frame_bytes (scheme_in tape.now.sizes) deal_kind ≤ length out.old) }
    ensures { out.new ≡
        deal_frame (scheme_in tape.now.sizes) (shared_parameters parameters.session parameters.line) no_files tape.now.bytes.now side0
        ++ drop (frame_bytes (scheme_in tape.now.sizes) deal_kind) out.old }
{
    let key_mask = tape.first_key_mask();
    let label_mask = tape.first_label_mask();
    let z_at = put_masks(parameters, key_mask, label_mask, out);
    let r_at = z_at + tape.sizes.inner_bytes;
    put(tape.first_z(), out, z_at);
    put(tape.first_r(), out, r_at);
}

// Writes unit 1's deal frame: K̃1, x̃1, z1, r1.
fn write_second(tape: &Tape, parameters: Parameters, out: &mut [u8])
    requires { (parameters.side ≡ 1) × (frame_bytes (scheme_in tape.now.sizes) deal_kind ≤ length out.old) }
    ensures { out.new ≡
        deal_frame (scheme_in tape.now.sizes) (shared_parameters parameters.session parameters.line) no_files tape.now.bytes.now side1
        ++ drop (frame_bytes (scheme_in tape.now.sizes) deal_kind) out.old }
{
    let key_mask = tape.second_key_mask();
    let label_mask = tape.second_label_mask();
    let z_at = put_masks(parameters, key_mask, label_mask, out);
    let r_at = z_at + tape.sizes.inner_bytes;
    let end = r_at + 2 * tape.sizes.inner_bytes;
    second_z(tape, &mut out[z_at..r_at]);
    second_r(tape, &mut out[r_at..end]);
}

// Writes both deal frames, unit 0's first.
pub fn write_deal(sizes: Sizes, session: u32, line: u8, tape: &[u8], out: &mut [u8])
    requires { (length tape.now ≡ tape_bytes (scheme_in sizes)) × (dealt_bytes (scheme_in sizes) ≤ length out.old) }
    ensures { out.new ≡ output 0 (dealt (scheme_in sizes) (shared_parameters session line) no_files tape.now) out.old }
{
    let tape = Tape { sizes, bytes: tape };
    let first_unit = Parameters {
        side: 0,
        session,
        line,
    };
    let second_unit = Parameters {
        side: 1,
        ..first_unit
    };
    let second = frame_bytes(sizes, DEAL);
    write_first(&tape, first_unit, out);
    write_second(&tape, second_unit, &mut out[second..]);
}
