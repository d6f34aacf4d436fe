//! The kinds of data files of a PLC-5 or SLC controller.

/// The type of a data file, beside its type byte in hexadecimal (manual topic: addressing).
#[derive(Clone, Copy, Debug, PartialEq, Eq)]
pub enum FileType {
    /// 84
    Status,
    /// 85
    Bit,
    /// 86
    Timer,
    /// 87
    Counter,
    /// 88
    Control,
    /// 89
    Integer,
    /// 8A
    Float,
}
