//! What is so of the worked cases. Each function has it as its contract; it does nothing, and takes
//! no memory.

ghost use Rattle.edit_examples.specs.Cases.{ExampleAttachment, ExampleChange, ExampleEdit, ExampleRestore};
ghost use Rattle.edit_examples.specs.Newest.{ReplacingGrows, UndoingGrows};

/// There is an edit, which makes the second copy of the worked example of what it was before.
pub fn an_entry_is_edited()
    ensures { ExampleEdit }
{}

/// Fields get values and are taken away, tags are changed, and it is said when the entry expires.
pub fn an_entry_is_changed()
    ensures { ExampleChange }
{}

/// Something is attached to the entry, taken out, replaced and taken away.
pub fn something_is_attached()
    ensures { ExampleAttachment }
{}

/// A version is restored, which makes the entry of the edited copy say what it said before the edit.
pub fn a_version_is_restored()
    ensures { ExampleRestore }
{}

/// Were an edit to drop the newest version of an entry, or to put a version of any time in its place,
/// what it leaves would not have grown in what is current, so that it would be no step of a history.
pub fn newest_versions_count()
    ensures undone { ¬ UndoingGrows }
    ensures replaced { ¬ ReplacingGrows }
{}
