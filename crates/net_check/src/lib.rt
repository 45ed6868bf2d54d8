//! Certificates of minimum-cost flow problems, and their verified checker.
#![tactic(auto)]

mod balance;
mod certificate;
mod checker;
pub mod cost;
pub mod cut;
mod slackness;
pub mod wide;

pub use certificate::{Certificate, Side};
pub use checker::{Reason, Verdict, check, least_cost, never_both, no_flow};
pub use slackness::reduced_cost;
