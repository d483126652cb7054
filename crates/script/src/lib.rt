//! Call scripts: lines are read into calls. Nothing here reads a file.

#![tactic(auto)]

pub mod line;
pub mod script;
