// The function itself, in one place.
ghost use Rattle.std.specs.Prelude.{◌≡◌, ◌*◌, length, take};
ghost use Rattle.linear_model.specs.Trits.{bit_trits};
ghost use Rattle.linear_model.specs.Products.{circulant_product};
ghost use Rattle.numbers.specs.Number.{output};
ghost use Rattle.numbers.specs.Refusals.{answer_number};
ghost use Rattle.pair_frames.specs.Schemes.{scheme_in};
ghost use Rattle.pair_model.specs.Scheme.{files};
ghost use Rattle.numbers.specs.Sets.{number_in};
ghost use Rattle.pair_model.specs.Base.{scheme_of};
ghost use Rattle.pair_model.specs.Evaluator.{code, evaluate_conditions, evaluate_number};

use linear::products::circulant_product;
use numbers::refusal::Refusal;
use pair_frames::frame::code_bytes;
use pair_frames::sets::named_sizes;
use pair_frames::sizes::{Sizes, TRITS_ROOM};
use pair_matrix::rows::{check_file, write_code};

// The inner vector of a key and a label, as trits: its bits are the low plane.
fn inner_vector(sizes: Sizes, key: &[u8], label: &[u8]) -> [u8; TRITS_ROOM]
    ensures { take (2 * sizes.inner_bytes) result ≡
        bit_trits sizes.inner_bytes (circulant_product sizes.inner_bytes key.now label.now) }
{
    let mut v = [0u8; TRITS_ROOM];
    circulant_product(key, label, &mut v[..sizes.inner_bytes]);
    v
}

// The code of a key and a label: B × (K × label modulo 2) modulo 3.
fn evaluate_sized(
    sizes: Sizes,
    key: &[u8],
    label: &[u8],
    file: &[u8],
    out: &mut [u8],
) -> Result<(), Refusal>
    ensures result { answer_number result ≡ evaluate_number (scheme_in sizes) key.now label.now (files file.now) (length out.old) }
    ensures output { out.new ≡
        output (answer_number result) (code (scheme_in sizes) key.now label.now (files file.now)) out.old }
{
    let planes = 2 * sizes.inner_bytes;
    if key.len() != sizes.key_bytes
        || label.len() != sizes.key_bytes
        || out.len() < code_bytes(sizes)
    {
        return Err(Refusal::WrongLength);
    }
    check_file(sizes, file)?;
    let inner = inner_vector(sizes, key, label);
    write_code(sizes, file, &inner[..planes], out);
    Ok(())
}

// The same in a set.
pub fn evaluate(
    set: u32,
    key: &[u8],
    label: &[u8],
    file: &[u8],
    out: &mut [u8],
) -> Result<(), Refusal>
    ensures result { answer_number result ≡ number_in set (evaluate_conditions (scheme_of set) key.now label.now (files file.now) (length out.old)) }
    ensures output { out.new ≡
        output (answer_number result) (code (scheme_of set) key.now label.now (files file.now)) out.old }
{
    evaluate_sized(named_sizes(set)?, key, label, file, out)
}
