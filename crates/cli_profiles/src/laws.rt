//! What holds of the profiles of generated passwords. The functions do nothing, and take no memory.
ghost use Rattle.std.specs.Prelude.{◌≡◌, Some};
ghost use Rattle.cli_options.specs.Said.{Said};
ghost use Rattle.cli_profiles.specs.Generating.{generated_in};
ghost use Rattle.cli_profiles.specs.Profiles.{IsProfile, profile_in};
ghost use Rattle.cli_profiles.specs.declared.profiles.PasswordProfile.{PasswordProfile};

/// A password can be chosen by every profile that is asked for.
pub fn profiles_have_passwords()
    ensures { (said : Said) (profile : PasswordProfile) → profile_in said ≡ Some profile
        → IsProfile profile }
{}

/// The same of the profile by which the password of an entry is generated.
pub fn generated_profiles_have_passwords()
    ensures { (said : Said) (profile : PasswordProfile)
        → generated_in said ≡ Some (Some profile) → IsProfile profile }
{}
