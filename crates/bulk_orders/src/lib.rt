//! Transfers of whole files by word range commands: their orders, the result of the replies, and the line that reports
//! it (manual topics: commands, word range read and write).
//!
//! A transfer of 1 to 3,000 words has an order for each 100 words and one for the rest. Each order has the number of
//! words of the whole transfer as its total, and its own first word as its offset.
#![tactic(auto)]

pub mod laws;
mod order;
mod outcome;
mod telling;

pub use order::{order_count, pull_order, pull_orders, push_order, push_orders};
pub use outcome::{Bulk, confirm, confirm_from, gather, gather_from, is_under_way};
pub use telling::{put_pull_result, put_push_result};
