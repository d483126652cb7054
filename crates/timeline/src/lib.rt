//! The timeline: what is enabled, which serials were given, and the commands that are pending.

#![tactic(auto)]

mod end_all;
pub mod insert_error;
pub mod timeline;
