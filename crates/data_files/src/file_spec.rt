//! The description of a data file (manual topic: addressing).
ghost use Rattle.std.specs.Prelude.{◌≡◌, ◌*◌};
ghost use Rattle.data_files.specs.Words.{holds_words, words_per_element};

use df1_base::FileType;

/// A data file: its number, its type, and its number of elements.
#[derive(Clone, Copy, Debug, PartialEq, Eq)]
pub struct FileSpec {
    /// The number of the file.
    pub number: u16,
    /// The type of its elements.
    pub kind: FileType,
    /// The number of elements.
    pub count: u16,
}

impl FileSpec {
    /// Returns the number of words of the file.
    pub fn words(&self) -> u32
        ensures { result ≡ self.now.count * words_per_element self.now.kind }
    {
        self.count as u32 * words_of(self.kind)
    }

    /// Returns the number of words of an element of the file.
    pub fn width(&self) -> u32
        ensures { result ≡ words_per_element self.now.kind }
    {
        words_of(self.kind)
    }

    /// Returns whether the file holds bits or integers, as a compatibility file does.
    pub fn holds_words(&self) -> bool
        ensures { result ≡ holds_words self.now.kind }
    {
        match self.kind {
            FileType::Bit | FileType::Integer => true,
            FileType::Status
            | FileType::Timer
            | FileType::Counter
            | FileType::Control
            | FileType::Float => false,
        }
    }
}

/// Returns the number of words of an element of this type.
pub(crate) fn words_of(kind: FileType) -> u32
    ensures { result ≡ words_per_element kind }
{
    match kind {
        FileType::Timer | FileType::Counter | FileType::Control => 3,
        FileType::Float => 2,
        FileType::Status | FileType::Bit | FileType::Integer => 1,
    }
}
