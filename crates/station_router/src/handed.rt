//! What a router handed out last.

/// What was handed out last.
#[derive(Clone, Copy, Debug)]
pub(crate) enum Handed {
    /// A carried body, whose fate wasn't reported.
    Carried,
    /// A carried body, whose fate was reported.
    Told,
    /// A body of the inner host, or none at all.
    Inner,
}
