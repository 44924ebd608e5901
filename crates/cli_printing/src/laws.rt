//! What holds of every listing. The functions do nothing, and take no memory.
ghost use Rattle.std.specs.Prelude.{◌≡◌, ℕ, Bool, List, false, length, true};
ghost use Rattle.cli_printing.specs.Laws.{IsPart, LeadTo, child_count, children_named, front_along, lines_of, paths_below};
ghost use Rattle.cli_printing.specs.Listing.{group_lines};
ghost use Rattle.vault_model.specs.Tree.{Tree};

/// A listing that does not go down has a line for each child of the group, and no other.
pub fn each_child_has_a_line()
    ensures lines { (flat ids : Bool) (front : List ℕ) (tree : Tree)
        → group_lines false flat ids front tree ≡ lines_of front (children_named ids tree) }
    ensures count { (ids : Bool) (tree : Tree)
        → length (children_named ids tree) ≡ child_count tree }
{}

/// The listing of a group that goes down has the listing of each group below it as a part.
pub fn subgroups_are_listed()
    ensures { (flat ids : Bool) (front : List ℕ) (names : List (List ℕ)) (tree group : Tree)
        → LeadTo names tree group
        → IsPart (group_lines true flat ids (front_along flat front names) group)
        (group_lines true flat ids front tree) }
{}

/// A listing that goes down and has paths is the path of all that is below the group, each on a
/// line, with the id before the last name where ids are listed.
pub fn lines_are_paths()
    ensures { (ids : Bool) (front : List ℕ) (tree : Tree) → group_lines true true ids front tree
        ≡ lines_of front (paths_below ids tree) }
{}
