//! The codes that refuse orders (manual topic: status codes).
use df1_base::Code;

/// The order isn't encoded as its command requires.
pub(crate) const ILLEGAL: Code = Code::Sts(0x10);

/// The bytes at the address don't exist.
pub(crate) const BAD_ADDRESS: Code = Code::Sts(0x50);

/// There is no compatibility file.
pub(crate) const NO_COMPATIBILITY_FILE: Code = Code::Sts(0x80);

/// The size is 0 or not a whole number of words.
pub(crate) const BAD_SIZE: Code = Code::Ext(0x01);

/// The address has too few levels.
pub(crate) const TOO_FEW_LEVELS: Code = Code::Ext(0x02);

/// The address has too many levels.
pub(crate) const TOO_MANY_LEVELS: Code = Code::Ext(0x03);

/// There is no such file, or no such sub-element.
pub(crate) const NO_SUCH_PLACE: Code = Code::Ext(0x06);

/// The data doesn't fit in a message.
pub(crate) const TOO_LARGE: Code = Code::Ext(0x09);

/// The words go past the end of the range or of the file.
pub(crate) const PAST_THE_END: Code = Code::Ext(0x0A);

/// The file can't be written.
pub(crate) const READ_ONLY: Code = Code::Ext(0x0B);

/// The file is of another type.
pub(crate) const OTHER_TYPE: Code = Code::Ext(0x11);
