//! The laws of histories of calls: whatever is called on copies of a database and copied over, which
//! documents their files hold.
#![tactic(auto)]

pub mod laws;
