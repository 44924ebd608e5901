//! That texts and stamps name each other.
ghost use Rattle.std.specs.Prelude.{◌≡◌, ℕ, ◌≤◌, List};
ghost use Rattle.time_core.specs.Times.{last_stamp, IsIso};

/// Each text is the time of at most one stamp, and each stamp's time has at most one text, so that
/// [`iso_of`](crate::iso_of) and [`stamp_of_iso`](crate::stamp_of_iso) undo each other. No text is
/// a time after the last stamp.
pub fn one_reading()
    ensures one_stamp { (text : List ℕ) → (a b : ℕ) → IsIso text a → IsIso text b → a ≡ b }
    ensures one_text { (a b : List ℕ) → (seconds : ℕ) → IsIso a seconds → IsIso b seconds → a ≡ b }
    ensures in_range { (text : List ℕ) → (seconds : ℕ) → IsIso text seconds → seconds ≤ last_stamp }
{}
