//! Tests of the bytes on the line: the checks, the frames and messages of either kind of line, and the dissection of a
//! capture.
#![tactic(auto)]

#[cfg(test)]
mod checks;
#[cfg(test)]
mod dissections;
#[cfg(test)]
mod equal;
#[cfg(test)]
mod frames;
#[cfg(test)]
mod half_frames;
