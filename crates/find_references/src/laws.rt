//! What holds of every resolved text. The function does nothing, and takes no memory.
ghost use Rattle.std.specs.Prelude.{ℕ, List};
ghost use Rattle.find_references.specs.Laws.{IsWithinLimits};
ghost use Rattle.vault_model.specs.Tree.{BareDoc};

/// A text is resolved just where no count passes its limit.
pub fn limits_are_exact()
    ensures { (doc : BareDoc) (text : List ℕ) → IsWithinLimits doc text }
{}
