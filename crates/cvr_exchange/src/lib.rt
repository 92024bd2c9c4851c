//! What offices that pass each other volumes as files hold: the same as by exchanges.
#![tactic(auto)]

pub mod law;
