//! What holds of every history. The functions do nothing, and take no memory.
ghost use Rattle.std.specs.Prelude.{◌≡◌, ◌≢◌, ◌↔◌, ℕ, List, [], IsTrue};
ghost use Rattle.cli_showing.specs.History.{all_changed, names_changed};
ghost use Rattle.cli_showing.specs.Laws.{do_fields_rise, do_names_rise, is_named};
ghost use Rattle.cli_showing.specs.Showing.{field_of};
ghost use Rattle.vault_model.specs.Bare.{BareContent, BareField};

/// Of two versions a history names exactly the fields that differ: those of which one has none, or
/// another value, or that are hidden in one alone. Each is named once, by rising name.
pub fn fields_that_differ_are_named()
    ensures named { (newer older : List BareField) (name : List ℕ)
        → IsTrue (do_fields_rise newer) → IsTrue (do_fields_rise older)
        → IsTrue (is_named name (names_changed newer older))
        ↔ (field_of name newer ≢ field_of name older) }
    ensures rising { (newer older : List BareField)
        → IsTrue (do_fields_rise newer) → IsTrue (do_fields_rise older)
        → IsTrue (do_names_rise (names_changed newer older)) }
{}

/// Of two versions a history names nothing exactly where they say the same.
pub fn no_difference_is_passed_over()
    ensures { (newer older : BareContent) → all_changed newer older ≡ [] ↔ newer ≡ older }
{}
