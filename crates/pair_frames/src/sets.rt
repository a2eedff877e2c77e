// The sets, as numbers that a caller or a state names.
ghost use Rattle.std.specs.Prelude.{◌≡◌, true, false, IfOk, IfErr};
ghost use Rattle.numbers.specs.Sets.{is_set, counted};
ghost use Rattle.numbers.specs.declared.refusal.Refusal.TheVariants.{NoSet};
ghost use Rattle.pair_frames.specs.Numbers.{set_sizes};
ghost use Rattle.pair_frames.specs.Schemes.{numbers_in};

use crate::sizes::{SET_1, SET_2, SET_3, Sizes};
use numbers::refusal::Refusal;

// Whether there is this set.
pub fn is_set(set: u32) -> bool
    ensures { result ≡ is_set set }
{
    matches!(set, 1..=3)
}

// The sizes of a set; a number that is none counts as set 1.
pub fn sizes_of(set: u32) -> Sizes
    ensures { numbers_in result ≡ set_sizes (counted set) }
{
    match set {
        2 => SET_2,
        3 => SET_3,
        _ => SET_1,
    }
}

// The sizes of a set that a call names.
pub fn named_sizes(set: u32) -> Result<Sizes, Refusal>
    ensures named { IfOk result (λ z. (is_set set ≡ true) × (numbers_in z ≡ set_sizes set)) }
    ensures none { IfErr result (λ e. (is_set set ≡ false) × (e ≡ NoSet)) }
{
    if is_set(set) {
        Ok(sizes_of(set))
    } else {
        Err(Refusal::NoSet)
    }
}
