//! Tests of runs: scripts with their reports, drills, rehearsals of transfers, and the cells of a lane.
#![tactic(auto)]

#[cfg(test)]
mod cells;
#[cfg(test)]
mod drills;
#[cfg(test)]
mod equal;
#[cfg(test)]
mod rehearsals;
#[cfg(test)]
mod replays;
