//! Tests of scripts that are read completely from an input: routes and rehearsals, with what they print.
#![tactic(auto)]

#[cfg(test)]
mod equal;
#[cfg(test)]
mod rehearsals;
#[cfg(test)]
mod routes;
