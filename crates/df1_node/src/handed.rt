//! The last item that a node handed out.

/// What was handed out last, its fate not yet reported.
#[derive(Clone, Copy, Debug)]
pub(crate) enum Handed {
    Nothing,
    Reply,
    /// The command at this place.
    Command(usize),
}
