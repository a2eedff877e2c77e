// What a beginning may be refused for.
ghost use Rattle.std.specs.Prelude.{◌≡◌};
ghost use Rattle.numbers.specs.Refusals.{answer_number};
ghost use Rattle.pair_model.specs.Scheme.{Scheme};
ghost use Rattle.pair_model.specs.Frame.{SharedParameters};
ghost use Rattle.pair_model.specs.Unit.{begin_number};

use numbers::refusal::Refusal;

// The lengths of both halves decide first, then the side.
pub fn check_begin(key_bytes: usize, side: u32, key: &[u8], label: &[u8]) -> Result<(), Refusal>
    ensures { (S : Scheme) (shared : SharedParameters) → S.key_bytes ≡ key_bytes
        → answer_number result ≡ begin_number S (record { side = side; shared = shared }) key.now label.now }
{
    if key.len() != key_bytes || label.len() != key_bytes {
        return Err(Refusal::WrongLength);
    }
    if 1 < side {
        Err(Refusal::NoSide)
    } else {
        Ok(())
    }
}
