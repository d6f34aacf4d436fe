//! What the lines of a half-duplex script say, one after another: which stations there are, how the master and each
//! station are set up, and the events between them; and what may be wrong with a further line. If the master carries
//! messages between the stations, these issue commands too, and have keys for it.
#![tactic(auto)]

mod apply;
mod first_flaw;
mod laws;
mod reader;
mod stations;

pub use laws::{
    what_is_left_is_what_the_statements_leave, what_is_read_can_be_played,
    what_is_routed_can_be_played,
};
pub use reader::HalfReader;
pub use stations::{StationDraft, Stations};
