//! Slots and the commands that they hold.

#![tactic(auto)]
