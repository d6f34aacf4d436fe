//! Tests of the table of keys, and of the lines of a script: each by itself, and those of a half-duplex script in
//! sequence.
#![tactic(auto)]

#[cfg(test)]
mod equal;
#[cfg(test)]
mod half_scripts;
#[cfg(test)]
mod settings;
#[cfg(test)]
mod statements;
