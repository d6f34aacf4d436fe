//! The verified link for C programs: each export calls one function on what a handle holds, and repeats its contract.
#![tactic(auto)]

mod addresses;
mod checks;
mod commands;
mod decoders;
mod ends;
mod make;
mod payloads;
mod pointer;
mod replies;
mod runs;
mod seat;
mod spelling;
mod texts;
mod threads;
mod transfers;
mod version;
mod words;
