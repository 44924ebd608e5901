//! The start of a history taken away, in one pass.

ghost use Rattle.std.specs.Prelude.{◌≡◌, ◌-◌, ◌≤◌, drop, length, take};

use outside_core::List;
use vault_model::Version;

// Moves the versions after so many to the start of a history, in their order.
fn move_up(history: &mut List<Version>, by: usize)
    requires { by ≤ length history.old }
    ensures len { length history.new ≡ length history.old }
    ensures moved { take (length history.old - by) history.new ≡ drop by history.old }
{
    let kept = history.len() - by;
    for at in 0..kept {
        history.swap(at, by + at);
    }
}

// Takes out so many versions at the end of a history.
fn cut_end(history: &mut List<Version>, excess: usize)
    requires { excess ≤ length history.old }
    ensures { history.new ≡ take (length history.old - excess) history.old }
{
    for _count in 0..excess {
        let last = history.len() - 1;
        drop(history.remove(last));
    }
}

/// Takes out so many versions at the start of a history; those after them move up.
pub(crate) fn cut_start(history: &mut List<Version>, excess: usize)
    requires { excess ≤ length history.old }
    ensures { history.new ≡ drop excess history.old }
{
    move_up(history, excess);
    cut_end(history, excess);
}
