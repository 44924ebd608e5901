//! Generated passwords as commands make them: chosen by the dice, or the stop of a call.
#![tactic(auto)]

mod choosing;

pub use choosing::choose_password;
