// A tape, by its parts.
ghost use Rattle.std.specs.Prelude.{◌≡◌, ◌*◌, length};
ghost use Rattle.pair_model.specs.Scheme.{side0, side1};
ghost use Rattle.pair_model.specs.Tape.{tape_bytes, K̃, x̃, w̃, z0, r0};
ghost use Rattle.pair_frames.specs.Schemes.{scheme_in};

use pair_frames::sizes::Sizes;

// The bytes of a tape: K̃0, K̃1, x̃0, x̃1, w̃, z0, r0, one after the other.
#[derive(Clone, Copy)]
pub struct Tape<'a> {
    pub sizes: Sizes,
    pub bytes: &'a [u8],
    ghost whole: { length bytes.now ≡ tape_bytes (scheme_in sizes) },
}

impl<'a> Tape<'a> {
    // K̃0.
    pub(crate) fn first_key_mask(&self) -> &'a [u8]
        ensures part { result.now ≡ K̃ (scheme_in self.now.sizes) self.now.bytes.now side0 }
        ensures long { length result.now ≡ self.now.sizes.key_bytes }
    {
        &self.bytes[..self.sizes.key_bytes]
    }

    // K̃1.
    pub(crate) fn second_key_mask(&self) -> &'a [u8]
        ensures part { result.now ≡ K̃ (scheme_in self.now.sizes) self.now.bytes.now side1 }
        ensures long { length result.now ≡ self.now.sizes.key_bytes }
    {
        let n = self.sizes.key_bytes;
        &self.bytes[n..2 * n]
    }

    // x̃0.
    pub(crate) fn first_label_mask(&self) -> &'a [u8]
        ensures part { result.now ≡ x̃ (scheme_in self.now.sizes) self.now.bytes.now side0 }
        ensures long { length result.now ≡ self.now.sizes.key_bytes }
    {
        let n = self.sizes.key_bytes;
        &self.bytes[2 * n..3 * n]
    }

    // x̃1.
    pub(crate) fn second_label_mask(&self) -> &'a [u8]
        ensures part { result.now ≡ x̃ (scheme_in self.now.sizes) self.now.bytes.now side1 }
        ensures long { length result.now ≡ self.now.sizes.key_bytes }
    {
        let n = self.sizes.key_bytes;
        &self.bytes[3 * n..4 * n]
    }

    // w̃.
    pub(crate) fn inner_mask(&self) -> &'a [u8]
        ensures part { result.now ≡ w̃ (scheme_in self.now.sizes) self.now.bytes.now }
        ensures long { length result.now ≡ self.now.sizes.inner_bytes }
    {
        let at = 4 * self.sizes.key_bytes;
        &self.bytes[at..at + self.sizes.inner_bytes]
    }

    // z0.
    pub(crate) fn first_z(&self) -> &'a [u8]
        ensures part { result.now ≡ z0 (scheme_in self.now.sizes) self.now.bytes.now }
        ensures long { length result.now ≡ self.now.sizes.inner_bytes }
    {
        let at = 4 * self.sizes.key_bytes + self.sizes.inner_bytes;
        &self.bytes[at..at + self.sizes.inner_bytes]
    }

    // r0.
    pub(crate) fn first_r(&self) -> &'a [u8]
        ensures part { result.now ≡ r0 (scheme_in self.now.sizes) self.now.bytes.now }
        ensures long { length result.now ≡ 2 * self.now.sizes.inner_bytes }
    {
        let at = 4 * self.sizes.key_bytes + 2 * self.sizes.inner_bytes;
        &self.bytes[at..at + 2 * self.sizes.inner_bytes]
    }
}
