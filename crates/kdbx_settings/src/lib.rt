//! The settings of a file of KDBX after others were asked for: its cipher, its key derivation and
//! its version.
#![tactic(auto)]

mod changing;

pub use changing::{SettingsChange, SettingsFail, change_settings};
