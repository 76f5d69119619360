// Document 01's refusals: the first question that was answered with no. Two of them carry an error of `wire` or `lists`, so the numbers come from a method and
// are no discriminants.
ghost use Rattle.std.specs.Prelude.{◌≡◌};
ghost use Rattle.rollup.specs.declared.refusal.Refusal.TheVariants.{Unread, BadList, OutputTooShort};
ghost use Rattle.rollup.specs.Refusals.{number, answer_of};

use lists::decoding::DecodeError;
use wire::encoding::EncodeError;
use wire::read_error::ReadError;

#[derive(Clone, Copy, Debug, PartialEq, Eq)]
pub enum Refusal {
    // The head does not fit the memory that is lent with it.
    Misfit,
    TooLong,
    // The state cannot be read.
    Unread(ReadError),
    WrongType,
    WrongVersion,
    UnknownValueType,
    NoSparsePrecision,
    BadPrecision,
    BadDataLength,
    BadSparsePrecision,
    BadRegister,
    // The roll-up has no value type in common with the state.
    NoCommonType,
    NotCarried,
    NoRoom,
    // The list of the state cannot be read.
    BadList(DecodeError),
    NotStarted,
    ListTooLong,
    OutputTooShort,
}

impl Refusal {
    // Document 01's number. It has a method, since a contract says which one it is: C and the report are told it.
    pub fn number(self) -> u8
        ensures { result ≡ number self }
    {
        match self {
            Refusal::Misfit => 1,
            Refusal::TooLong => 2,
            Refusal::Unread(e) => e as u8,
            Refusal::WrongType => 7,
            Refusal::WrongVersion => 8,
            Refusal::UnknownValueType => 9,
            Refusal::NoSparsePrecision => 10,
            Refusal::BadPrecision => 11,
            Refusal::BadDataLength => 12,
            Refusal::BadSparsePrecision => 13,
            Refusal::BadRegister => 14,
            Refusal::NoCommonType => 15,
            Refusal::NotCarried => 16,
            Refusal::NoRoom => 17,
            Refusal::BadList(e) => e as u8,
            Refusal::NotStarted => 21,
            Refusal::ListTooLong => 22,
            Refusal::OutputTooShort => 23,
        }
    }
}

impl From<ReadError> for Refusal {
    ghost from_gives = { λ e r. r ≡ Unread e };

    fn from(e: ReadError) -> Refusal {
        Refusal::Unread(e)
    }
}

impl From<DecodeError> for Refusal {
    ghost from_gives = { λ e r. r ≡ BadList e };

    fn from(e: DecodeError) -> Refusal {
        Refusal::BadList(e)
    }
}

impl From<EncodeError> for Refusal {
    ghost from_gives = { λ _ r. r ≡ OutputTooShort };

    fn from(e: EncodeError) -> Refusal {
        match e {
            EncodeError::OutputTooShort => Refusal::OutputTooShort,
        }
    }
}

// The number of an answer, 0 for accepted or written.
pub fn answer_of<T: Copy>(r: Result<T, Refusal>) -> u8
    ensures { result ≡ answer_of r }
{
    match r {
        Ok(_) => 0,
        Err(e) => e.number(),
    }
}
