//! The answers of the calls: their numbers and their texts.

ghost use Rattle.std.specs.Prelude.{◌≡◌, ◌≤◌, length};
ghost use Rattle.c_ends.specs.Code.{code_number, code_of, code_text};

/// The answer of a call.
#[derive(Clone, Copy, Debug, PartialEq, Eq)]
pub enum Code {
    /// The call did what it is for.
    Done = 0,
    /// The handle holds nothing that the call is for.
    NoHandle = 1,
    /// `malloc` returned no memory.
    NoMemory = 2,
    /// The buffer is too small.
    NoRoom = 3,
    /// `ack_ticks` is out of its range.
    BadAckTicks = 4,
    /// `poll_ticks` is out of its range.
    BadPollTicks = 5,
    /// `max_sends` is out of its range.
    BadMaxSends = 6,
    /// A station's number is 16 or 255.
    BadStation = 7,
    /// Over 32 stations.
    TooManyStations = 8,
    /// A station is listed twice.
    StationTwice = 9,
    /// `reply_ticks` is out of its range.
    BadReplyTicks = 10,
    /// `room` is out of its range.
    BadRoom = 11,
    /// Over 256 data files.
    TooManyFiles = 12,
    /// A file's type is none of `df1_file_type`.
    BadType = 13,
    /// A file has no elements.
    EmptyFile = 14,
    /// A file has over 1,000 elements.
    LargeFile = 15,
    /// Two files have one number.
    FileTwice = 16,
    /// There is no such file or word.
    NoWord = 17,
    /// `compat` names no Bit or Integer file of the end.
    BadCompat = 18,
    /// A block of over 244 bytes.
    LongBlock = 19,
    /// A body of over 250 bytes.
    LongBody = 20,
    /// A payload of no bytes.
    NoPayload = 21,
    /// A payload of over 245 bytes.
    LongPayload = 22,
    /// Bit 6 of CMD is set, so the payload is that of a reply.
    NotCommand = 23,
    /// 65,535 commands were issued already.
    Spent = 24,
    /// No command of this number was issued.
    NoCommand = 25,
    /// No reply to it was accepted.
    NotAnswered = 26,
    /// There is no file at this place.
    NoFile = 27,
    /// `max_naks` is out of its range.
    BadMaxNaks = 28,
    /// `max_enqs` is out of its range.
    BadMaxEnqs = 29,
    /// `max_resends` is out of its range.
    BadMaxResends = 30,
    /// `window` is out of its range.
    BadWindow = 31,
    /// `per_source` is out of its range.
    BadPerSource = 32,
    /// A reserved member isn't 0.
    NotReserved = 33,
    /// A transfer's file is over 999.
    BadFile = 34,
    /// A transfer's words are none, over 3,000, or not whole.
    BadWords = 35,
    /// `routes` is neither 0 nor 1.
    BadRoutes = 36,
    /// A master has no station of this number.
    NoStation = 37,
    /// A side is none of `df1_side`.
    BadSide = 38,
    /// A command is none of `df1_command`.
    BadCommand = 39,
    /// An address doesn't begin with the letter of a file's type.
    NoAddressType = 40,
    /// An address's file isn't a number 0 to 999.
    NoAddressFile = 41,
    /// No colon follows an address's file.
    NoAddressColon = 42,
    /// An address's element isn't a number 0 to 999.
    NoAddressElement = 43,
    /// An address's sub-element is no word of the element.
    NoAddressSub = 44,
    /// An address's bit isn't a number 0 to 15, or it is a float's.
    NoAddressBit = 45,
    /// Something else follows an address.
    NoAddressEnd = 46,
    /// No word is read or written.
    NoData = 47,
    /// The data is more than a message has room for.
    TooMuchData = 48,
    /// Elements of a file have no type for a typed command.
    NoElementType = 49,
    /// A command has no room for a sub-element.
    NoSub = 50,
    /// Words are no whole elements.
    HalfElement = 51,
    /// An address has no bit 0 to 15.
    NoBit = 52,
    /// A reply is cut off.
    NoReply = 53,
    /// Data is no typed data.
    NoTypedData = 54,
}

/// All codes, by their numbers.
const CODES: [Code; 55] = [
    Code::Done,
    Code::NoHandle,
    Code::NoMemory,
    Code::NoRoom,
    Code::BadAckTicks,
    Code::BadPollTicks,
    Code::BadMaxSends,
    Code::BadStation,
    Code::TooManyStations,
    Code::StationTwice,
    Code::BadReplyTicks,
    Code::BadRoom,
    Code::TooManyFiles,
    Code::BadType,
    Code::EmptyFile,
    Code::LargeFile,
    Code::FileTwice,
    Code::NoWord,
    Code::BadCompat,
    Code::LongBlock,
    Code::LongBody,
    Code::NoPayload,
    Code::LongPayload,
    Code::NotCommand,
    Code::Spent,
    Code::NoCommand,
    Code::NotAnswered,
    Code::NoFile,
    Code::BadMaxNaks,
    Code::BadMaxEnqs,
    Code::BadMaxResends,
    Code::BadWindow,
    Code::BadPerSource,
    Code::NotReserved,
    Code::BadFile,
    Code::BadWords,
    Code::BadRoutes,
    Code::NoStation,
    Code::BadSide,
    Code::BadCommand,
    Code::NoAddressType,
    Code::NoAddressFile,
    Code::NoAddressColon,
    Code::NoAddressElement,
    Code::NoAddressSub,
    Code::NoAddressBit,
    Code::NoAddressEnd,
    Code::NoData,
    Code::TooMuchData,
    Code::NoElementType,
    Code::NoSub,
    Code::HalfElement,
    Code::NoBit,
    Code::NoReply,
    Code::NoTypedData,
];

impl Code {
    /// Returns the number of a code.
    pub fn number(self) -> u32
        ensures { result ≡ code_number self }
    {
        self as u32
    }

    /// Returns the code of a number, and None exactly if it is no code's.
    pub fn of_number(number: u32) -> Option<Code>
        ensures { result ≡ code_of number }
    {
        CODES.iter().copied().find(|code| code.number() == number)
    }

    /// Returns the text of a code, at most 79 bytes.
    pub fn text(self) -> &'static str
        ensures text { result.now ≡ code_text self }
        ensures short { length result.now ≤ 79 }
    {
        match self {
            Code::Done => "the call did what it is for",
            Code::NoHandle => "the handle holds nothing that the call is for",
            Code::NoMemory => "malloc gave no memory",
            Code::NoRoom => "the buffer is too small",
            Code::BadAckTicks => "ack_ticks is out of its range",
            Code::BadPollTicks => "poll_ticks is out of its range",
            Code::BadMaxSends => "max_sends is out of its range",
            Code::BadStation => "a station's number is 16 or 255",
            Code::TooManyStations => "over 32 stations",
            Code::StationTwice => "a station is listed twice",
            Code::BadReplyTicks => "reply_ticks is out of its range",
            Code::BadRoom => "room is out of its range",
            Code::TooManyFiles => "over 256 data files",
            Code::BadType => "a file's type is none of df1_file_type",
            Code::EmptyFile => "a file has no elements",
            Code::LargeFile => "a file has over 1,000 elements",
            Code::FileTwice => "two files have one number",
            Code::NoWord => "there is no such file or word",
            Code::BadCompat => "compat names no Bit or Integer file of the end",
            Code::LongBlock => "a block of over 244 bytes",
            Code::LongBody => "a body of over 250 bytes",
            Code::NoPayload => "a payload of no bytes",
            Code::LongPayload => "a payload of over 245 bytes",
            Code::NotCommand => "bit 6 of CMD is set, so the payload is that of a reply",
            Code::Spent => "65,535 commands were issued already",
            Code::NoCommand => "no command of this number was issued",
            Code::NotAnswered => "no reply to it was accepted",
            Code::NoFile => "there is no file at this place",
            Code::BadMaxNaks => "max_naks is out of its range",
            Code::BadMaxEnqs => "max_enqs is out of its range",
            Code::BadMaxResends => "max_resends is out of its range",
            Code::BadWindow => "window is out of its range",
            Code::BadPerSource => "per_source is out of its range",
            Code::NotReserved => "a reserved member isn't 0",
            Code::BadFile => "a transfer's file is over 999",
            Code::BadWords => "a transfer's words are none, over 3,000, or not whole",
            Code::BadRoutes => "routes is neither 0 nor 1",
            Code::NoStation => "the master has no such station",
            Code::BadSide => "a side is none of df1_side",
            Code::BadCommand => "the command is none of df1_command",
            Code::NoAddressType => "the address doesn't begin with the letter of a file's type",
            Code::NoAddressFile => "the address's file isn't a number 0 to 999",
            Code::NoAddressColon => "no colon follows the address's file",
            Code::NoAddressElement => "the address's element isn't a number 0 to 999",
            Code::NoAddressSub => "the address's sub-element is no word of the element",
            Code::NoAddressBit => "the address's bit isn't a number 0 to 15, or it is a float's",
            Code::NoAddressEnd => "something else follows the address",
            Code::NoData => "no word is read or written",
            Code::TooMuchData => "the data is more than a message has room for",
            Code::NoElementType => "elements of the file have no type for a typed command",
            Code::NoSub => "the command has no room for a sub-element",
            Code::HalfElement => "the words are no whole elements",
            Code::NoBit => "the address has no bit 0 to 15",
            Code::NoReply => "a reply is cut off",
            Code::NoTypedData => "the data is no typed data",
        }
    }
}
