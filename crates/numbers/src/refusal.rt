// Why a call is refused: the numbers of the table, which C gets.
ghost use Rattle.std.specs.Prelude.{◌≡◌};
ghost use Rattle.numbers.specs.Refusals.{number_of, answer_number};

// What C gets of a call that is done.
pub const DONE: u32 = 0;

// Each refusal with its number.
#[derive(Clone, Copy, Debug, PartialEq, Eq)]
pub enum Refusal {
    // An input other than a frame has another length than stated, or an output slice is too short.
    WrongLength = 1,
    // At the beginning, side is neither 0 nor 1.
    NoSide = 2,
    // A frame is shorter than a header, or of another kind.
    NoKind = 3,
    // A frame's length is not its kind's.
    FrameLength = 4,
    // Another session than the unit's; in join, the two differ.
    OtherSession = 5,
    // Not the side that the frame must name.
    OtherSide = 6,
    // The kind is not the one waited for.
    NotWaitedFor = 7,
    // A block's check differs.
    BlockCheck = 8,
    // A block differs from the layout.
    BlockLayout = 9,
    // A trit with both bits set.
    UnfitTrit = 10,
    // An unused bit set in a share frame.
    UnusedBit = 11,
    // The rows are tied.
    TiedRows = 12,
    // A source has too few bytes, or too few pairs other than 3.
    ShortSource = 13,
    // A call names a set other than 1 to 3.
    NoSet = 14,
    // A frame of another line than the unit's; in join, the two differ.
    OtherLine = 15,
    // The rows of a file whose tied rows are asked for are not tied.
    NotTied = 16,
}

impl Refusal {
    // Its number in the table.
    pub fn number(self) -> u32
        ensures { result ≡ number_of self }
    {
        self as u32
    }
}

// The number that C gets of an answer.
pub fn answer_number<T: Drop>(answer: Result<T, Refusal>) -> u32
    ensures { result ≡ answer_number answer }
{
    match answer {
        Ok(_) => DONE,
        Err(refusal) => refusal.number(),
    }
}
