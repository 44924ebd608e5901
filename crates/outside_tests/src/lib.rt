//! The tests of `outside_core`, `outside_objects` and `secret_core`: what no clause says. Calls
//! succeed, planned failures come at their numbers, files are read by windows, and the host's
//! objects do what their names say.
#![tactic(auto)]

#[cfg(test)]
mod dice;
#[cfg(test)]
mod disk;
#[cfg(test)]
mod files;
#[cfg(test)]
mod host;
#[cfg(test)]
mod lists;
#[cfg(test)]
mod reading;
#[cfg(test)]
mod secrets;
#[cfg(test)]
mod streams;
