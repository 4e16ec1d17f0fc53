// Why a call is refused: the conditions of the lists of 01 and 02, by their numbers there.
ghost use Rattle.std.specs.Prelude.{◌≡◌};
ghost use Rattle.base.specs.Reasons.{number};

#[derive(Clone, Copy, Debug, PartialEq, Eq)]
pub enum Reason {
    // 1: a log of fewer than 40 bytes
    ShortLog,
    // 2: a version that is not 1
    Version,
    // 3: a class that the table has not
    UnknownClass,
    // 4: a server count that is not 1 to 64
    ServerCount,
    // 5: a home server not below the count
    Home,
    // 6: byte 5 is not zero
    SpareByte,
    // 7: too many requests; for a writer also lists of unequal length
    RequestCount,
    // 8: an offset or the total is not as the format says
    Layout,
    // 9: the length is not the total
    Length,
    // 10: another sum
    Sum,
    // 11: a server not below the count
    UnknownServer,
    // 12: a second that is 0 or above 4,000,000
    SecondRange,
    // 13: a request not later than the one before
    NotLater,
    // 14: numbers that are no whole rows
    PartialRow,
    // 15: a row of no form
    RowForm,
    // 16: a row out of order
    RowOrder,
    // 17: a row with no copy at its start or source
    NoCopy,
    // 18: a request with no copy
    Unserved,
    // 31: a lent output that is too short
    ShortOutput,
    // 32: a state that no calls give
    BrokenState,
    // 33: a closed state
    Closed,
    // 34: a state that took all requests that it may
    Full,
    // 35: a second not later than the state's
    PastSecond,
    // 36: a request after the week
    AfterWeek,
    // 37: a price file of another form
    PriceFile,
    // 38: a price out of range
    PriceRange,
    // 39: the id of another file
    OtherFile,
    // 43: a class that is no longer sold
    EndedClass,
    // 44: an upload price out of range
    UploadPrice,
    // 45: more logs than a season has
    LogCount,
    // 46: a number of a game out of range
    GameRange,
    // a number that the lists do not have
    Unlisted(u8),
}

impl Reason {
    // Its number.
    pub fn number(self) -> u8
        ensures { result ≡ number self }
    {
        match self {
            Reason::ShortLog => 1,
            Reason::Version => 2,
            Reason::UnknownClass => 3,
            Reason::ServerCount => 4,
            Reason::Home => 5,
            Reason::SpareByte => 6,
            Reason::RequestCount => 7,
            Reason::Layout => 8,
            Reason::Length => 9,
            Reason::Sum => 10,
            Reason::UnknownServer => 11,
            Reason::SecondRange => 12,
            Reason::NotLater => 13,
            Reason::PartialRow => 14,
            Reason::RowForm => 15,
            Reason::RowOrder => 16,
            Reason::NoCopy => 17,
            Reason::Unserved => 18,
            Reason::ShortOutput => 31,
            Reason::BrokenState => 32,
            Reason::Closed => 33,
            Reason::Full => 34,
            Reason::PastSecond => 35,
            Reason::AfterWeek => 36,
            Reason::PriceFile => 37,
            Reason::PriceRange => 38,
            Reason::OtherFile => 39,
            Reason::EndedClass => 43,
            Reason::UploadPrice => 44,
            Reason::LogCount => 45,
            Reason::GameRange => 46,
            Reason::Unlisted(n) => n,
        }
    }
}

// The reason of a number.
impl From<u8> for Reason {
    ghost from_gives = { λ n reason. number reason ≡ n };

    fn from(n: u8) -> Reason {
        match n {
            1 => Reason::ShortLog,
            2 => Reason::Version,
            3 => Reason::UnknownClass,
            4 => Reason::ServerCount,
            5 => Reason::Home,
            6 => Reason::SpareByte,
            7 => Reason::RequestCount,
            8 => Reason::Layout,
            9 => Reason::Length,
            10 => Reason::Sum,
            11 => Reason::UnknownServer,
            12 => Reason::SecondRange,
            13 => Reason::NotLater,
            14 => Reason::PartialRow,
            15 => Reason::RowForm,
            16 => Reason::RowOrder,
            17 => Reason::NoCopy,
            18 => Reason::Unserved,
            31 => Reason::ShortOutput,
            32 => Reason::BrokenState,
            33 => Reason::Closed,
            34 => Reason::Full,
            35 => Reason::PastSecond,
            36 => Reason::AfterWeek,
            37 => Reason::PriceFile,
            38 => Reason::PriceRange,
            39 => Reason::OtherFile,
            43 => Reason::EndedClass,
            44 => Reason::UploadPrice,
            45 => Reason::LogCount,
            46 => Reason::GameRange,
            n => Reason::Unlisted(n),
        }
    }
}
