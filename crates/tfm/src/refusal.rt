// Why a file or an argument is refused, and the number that an answer gives of it.
ghost use Rattle.std.specs.Prelude.{◌≡◌};
ghost use Rattle.tfm.specs.Refusal.{number, refused};

// The refusals, each with its number.
#[derive(Clone, Copy, Debug, PartialEq, Eq)]
pub enum Refusal {
    NoBytes = 1,
    FirstByteOver127 = 2,
    OneByte = 3,
    LengthZero = 4,
    FewerBytesThanSaid = 5,
    FewerThanSixWords = 6,
    SizeOver127 = 7,
    ShortHeader = 8,
    ImpossibleRange = 9,
    EmptyTable = 10,
    TooManyRecipes = 11,
    SizesDisagree = 12,
    ShortCopy = 13,
    FewPairs = 14,
    FindingsDoNotFit = 15,
    ListingDoesNotFit = 16,
    OutOfRange = 17,
    NoCharacter = 18,
}

impl Refusal {
    pub fn number(self) -> u8
        ensures { result ≡ number self }
    {
        self as u8
    }
}

impl From<Refusal> for u8 {
    ghost from_gives = { λ refusal n. n ≡ number refusal };

    fn from(refusal: Refusal) -> u8 {
        refusal.number()
    }
}

// The number of an operation's answer: 0 where it accepts.
pub fn number_of<T>(answer: &Result<T, Refusal>) -> u8
    ensures { result ≡ refused answer.now }
{
    match answer {
        Ok(_) => 0,
        Err(refusal) => (*refusal).number(),
    }
}
