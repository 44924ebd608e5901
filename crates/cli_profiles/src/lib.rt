//! What is said of generated passwords: of which characters they are, and of how many.
#![tactic(auto)]

mod generating;
pub mod laws;
mod profiles;

pub use generating::{generated_in, has_profile_option};
pub use profiles::{PasswordProfile, alphabet_of, length_named, profile_in};
