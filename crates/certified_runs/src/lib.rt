//! A certificate made of the steps of runs to largest quotients, by the plain rule over full covers, is valid, part by part.
#![tactic(auto)]

pub mod laws;
