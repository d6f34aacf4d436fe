//! What arrives at an end of a link from outside.
ghost use Rattle.std.specs.Prelude.{◌≡◌};
ghost use Rattle.df1_base.specs.Signals.{goes_on as others_follow};

/// A signal of a port.
#[derive(Clone, Copy, Debug, PartialEq, Eq)]
pub enum Signal {
    /// A byte of the line.
    Byte(u8),
    /// A unit of time has passed.
    Tick,
    /// One byte is requested.
    Take,
    /// Bytes are requested until there is none.
    Drain,
    /// The input has ended.
    End,
    /// The record that begins at this offset of the input, in bytes from 0, has none of the forms.
    Bad(u64),
    /// The input is longer than 268,435,456 bytes.
    Long,
}

impl Signal {
    /// Returns whether other signals may follow: not after End, Bad and Long.
    pub(crate) fn goes_on(self) -> bool
        ensures { result ≡ others_follow self }
    {
        match self {
            Signal::Byte(_) | Signal::Tick | Signal::Take | Signal::Drain => true,
            Signal::End | Signal::Bad(_) | Signal::Long => false,
        }
    }
}
