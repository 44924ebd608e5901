//! The laws that each refusal to import an export of Bitwarden has its cause in its bytes. Each
//! function has a law as its contract; it does nothing, and takes no memory.

ghost use Rattle.bitwarden_cause_laws.specs.Examples.{ExampleRefusals};
ghost use Rattle.bitwarden_cause_laws.specs.ExportCauses.{ExportRefusalsHaveCauses};

/// An export of Bitwarden that is refused has the cause of its refusal: its bytes are no UTF-8, no
/// JSON or no object; its member `encrypted` is true; `folders` or `items` is there, not null and no
/// list; the folder of that number lacks a text `id` or `name`, and none before it does; the item of
/// that number is no object, or a member of it is of another kind, and so with none before it; the
/// id of the item of that number is the first that is nil; an item's current version would be
/// modified at that time after the year 9999, and that of none before it so late; or two nodes have
/// one id, or a group is below the last level.
pub fn exports()
    ensures { ExportRefusalsHaveCauses }
{}

/// The law speaks of something: small exports that are refused.
pub fn example_refusals()
    ensures { ExampleRefusals }
{}
