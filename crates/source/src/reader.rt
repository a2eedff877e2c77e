// The reader of pairs: a source and the place of the next pair of bits, which it takes by `pair_from` and `four_from`, as does whoever has only a
// place.
ghost use Rattle.std.specs.Prelude.{◌≡◌, ◌+◌, ◌*◌, ◌%◌, ◌^◌, ◌<◌, ◌≤◌, length, get_or, nat_lt};
ghost use Rattle.source_model.specs.Internal.Reading.{pairs, PairRead, PairsRead};

use linear_words::bytes::byte_at;

// The value of one pair or of several, the first one lowest, and the place after them: pair `pair` of byte `byte`.
#[derive(Clone, Copy)]
pub struct PairAndPlace {
    pub value: u8,
    pub byte: usize,
    pub pair: usize,
}

// A reader: its source, and the next pair, pair `pair` of byte `byte`. The place may be past the end, where pairs are 0.
#[derive(Clone, Copy)]
pub struct PairReader<'a> {
    pub source: &'a [u8],
    pub byte: usize,
    pub pair: usize,
    ghost in_byte: { pair < 4 },
}

impl<'a> PairReader<'a> {
    // A reader of a source, at a place.
    pub(crate) fn at(source: &'a [u8], byte: usize, pair: usize) -> PairReader<'a>
        requires { pair < 4 }
        ensures { (result.source ≡ source.entry) × (result.byte ≡ byte) × (result.pair ≡ pair) }
    {
        PairReader { source, byte, pair }
    }

    // A reader of a source, at pair `k`.
    pub(crate) fn at_pair(source: &'a [u8], k: u64) -> PairReader<'a>
        ensures { (result.source ≡ source.entry) × (4 * result.byte + result.pair ≡ k) }
    {
        PairReader::at(source, (k / 4) as usize, (k % 4) as usize)
    }

    // The number of the next pair.
    pub(crate) fn next(&self) -> u64
        requires { self.now.byte < 2 ^ 62 }
        ensures { result ≡ 4 * self.now.byte + self.now.pair }
    {
        (4 * self.byte + self.pair) as u64
    }

    // The byte after the next pair's; past the end, 0.
    fn byte_after(&self) -> u8
        ensures { result ≡ get_or self.now.source.now (self.now.byte + 1) 0 }
    {
        if self.byte < self.source.len() {
            byte_at(self.source, self.byte + 1)
        } else {
            0
        }
    }

    // The next `count` pairs, which may begin in one byte and end in the next; past the end, 0.
    fn peek(&self, count: usize) -> u8
        requires { count ≤ 4 }
        ensures { result ≡ pairs self.now.source.now (4 * self.now.byte + self.now.pair) count }
    {
        let two = u64::from(byte_at(self.source, self.byte)) + 256 * u64::from(self.byte_after());
        ((two >> (2 * self.pair)) % 256 % (1 << (2 * count))) as u8
    }

    // Whether the source has the byte after the next pair's, too, so that the next four pairs are all there.
    pub(crate) fn has_four(&self) -> bool
        ensures { result ≡ nat_lt (self.now.byte + 1) (length self.now.source.now) }
    {
        !self.source.is_empty() && self.byte < self.source.len() - 1
    }

    // Takes the next pair.
    pub(crate) fn take(&mut self) -> u8
        ensures source { self.new.source ≡ self.old.source }
        ensures read { PairRead self.old.source.now (4 * self.old.byte + self.old.pair) result self.new.byte self.new.pair }
    {
        let read = pair_from(self.source, self.byte, self.pair);
        self.byte = read.byte;
        self.pair = read.pair;
        read.value
    }

    // The same of four pairs at once: the reader stands at the same place of the next byte then.
    pub(crate) fn take_four(&mut self) -> u8
        ensures source { self.new.source ≡ self.old.source }
        ensures read { PairsRead self.old.source.now 4 (4 * self.old.byte + self.old.pair) result self.new.byte self.new.pair }
    {
        let read = four_from(self.source, self.byte, self.pair);
        self.byte = read.byte;
        self.pair = read.pair;
        read.value
    }
}

// The pair at a place of a source, also past its end, and the place after it. Where no place could name that, it is its own.
pub fn pair_from(source: &[u8], byte: usize, at: usize) -> PairAndPlace
    ensures { PairRead source.now (4 * byte + at % 4) result.value result.byte result.pair }
{
    let pair = at % 4;
    let value = PairReader::at(source, byte, pair).peek(1);
    if pair < 3 {
        return PairAndPlace {
            value,
            byte,
            pair: pair + 1,
        };
    }
    if byte < usize::MAX {
        return PairAndPlace {
            value,
            byte: byte + 1,
            pair: 0,
        };
    }
    PairAndPlace { value, byte, pair }
}

// The same of four pairs at once, a whole byte of the source if the place is its first pair.
pub fn four_from(source: &[u8], byte: usize, at: usize) -> PairAndPlace
    ensures { PairsRead source.now 4 (4 * byte + at % 4) result.value result.byte result.pair }
{
    let pair = at % 4;
    let value = PairReader::at(source, byte, pair).peek(4);
    if byte < usize::MAX {
        return PairAndPlace {
            value,
            byte: byte + 1,
            pair,
        };
    }
    PairAndPlace { value, byte, pair }
}
