//! The service: requests in their three states, the clock, and the status of
//! subschedules and APIDs.

#![tactic(auto)]

pub mod answer;
mod body;
pub mod service;
pub mod states;
