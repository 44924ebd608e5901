//! What holds of files and of what a password opens of them. Each law is a function whose contract
//! is the law; it computes nothing.

ghost use Rattle.std.specs.Prelude.{◌≡◌, ℕ, List, Ok};
ghost use Rattle.psafe_file.specs.Opened.{SafeContent, safe_outcome};
ghost use Rattle.psafe_file.specs.SafeFiles.{SafeFile, safe_file};
ghost use Rattle.psafe_file.specs.SafeForms.{IsOpened, IsSafeFile};

/// The parts of a file are those in which all its bytes are; there are no two ways to divide it.
pub fn files_by_their_parts()
    ensures divided { (bytes : List ℕ) (file : SafeFile) → safe_file bytes ≡ Ok file
        → IsSafeFile bytes file }
    ensures read { (bytes : List ℕ) (file : SafeFile) → IsSafeFile bytes file
        → safe_file bytes ≡ Ok file }
{}

/// A password opens the files whose key it gives, with their content.
pub fn opened_files()
    ensures opened { (bytes password : List ℕ) (content : SafeContent)
        → safe_outcome bytes password ≡ Ok content → IsOpened bytes password content }
    ensures given { (bytes password : List ℕ) (content : SafeContent)
        → IsOpened bytes password content → safe_outcome bytes password ≡ Ok content }
{}
