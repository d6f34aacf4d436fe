//! Tests of texts: scripts with their first faulty line, for a replay, a route and a rehearsal, and reports.
#![tactic(auto)]

#[cfg(test)]
mod equal;
#[cfg(test)]
mod rehearsals;
#[cfg(test)]
mod reports;
#[cfg(test)]
mod routes;
#[cfg(test)]
mod scripts;
