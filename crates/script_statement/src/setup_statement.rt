//! What a line says of the setup of one end. A field is None if its value was out of range.

use crate::Bytes;
use data_files::FileSpec;
use end_settings::Setting;

/// A setup line of one end.
#[derive(Drop)]
pub enum SetupStatement {
    /// A setting.
    Set(Setting),
    /// The compatibility file, by its number: None for a word that is not a number, and None inside for a number over
    /// 999, which no file has.
    Compat(Option<Option<u16>>),
    /// The block, the data of its status replies: 1 to 244 bytes.
    Block(Option<Bytes>),
    /// A data file.
    File(Option<FileSpec>),
    /// The first value of a word. The number of the file is None if no file may have it.
    Word {
        file: Option<u16>,
        index: u32,
        value: u16,
    },
}
