//! What databases have of groups.
ghost use Rattle.std.specs.Prelude.{◌≡◌};
ghost use Rattle.vault_model.specs.Db.{group_mark_cmp, mark_of};
ghost use Rattle.vault_model.specs.Join.{state_join, stats_join};

use crate::versions::join_stats;
use std::cmp::Ordering;
use std::marker::Model;
use vault_model::{GroupContent, GroupState, Stamp, Stats, compare_group};

/// A group's state, whose content a document lends.
#[derive(Drop)]
pub struct LentState<'a> {
    modified: Stamp,
    content: &'a GroupContent,
    stats: Stats,
}

impl<'a> Model for LentState<'a> {
    ghost use Rattle.vault_model.specs.declared.nodes.GroupState.{GroupState};

    ghost Value = { GroupState };

    ghost view = { λ s. record { modified = s.modified; content = s.content.now; stats = s.stats } };
}

impl<'a> LentState<'a> {
    /// A group's state, lent.
    pub fn new(state: &'a GroupState) -> LentState<'a>
        ensures { result ≡ state.now }
    {
        LentState {
            modified: state.modified,
            content: &state.content,
            stats: state.stats,
        }
    }

    /// When the group was changed.
    pub fn modified(&self) -> Stamp
        ensures { result ≡ self.now.modified }
    {
        self.modified
    }

    /// What the group says.
    pub fn content(&self) -> &'a GroupContent
        ensures { result.now ≡ self.now.content }
    {
        self.content
    }

    /// How the group was used.
    pub fn stats(&self) -> Stats
        ensures { result ≡ self.now.stats }
    {
        self.stats
    }

    /// The state with the greater mark; of equal marks the later access and the greater use.
    #[tactic(auto, unfolding(vault_model::specs::Db::group_mark_cmp))]
    pub fn join(&self, other: &LentState<'a>) -> LentState<'a>
        ensures { result ≡ state_join self.now other.now }
    {
        match self.compare_marks(other) {
            Ordering::Less => other.again(),
            Ordering::Equal => LentState {
                modified: self.modified,
                content: self.content,
                stats: join_stats(self.stats, other.stats),
            },
            Ordering::Greater => self.again(),
        }
    }

    /// The same state, to be kept elsewhere.
    pub fn again(&self) -> LentState<'a>
        ensures { result ≡ self.now }
    {
        LentState {
            modified: self.modified,
            content: self.content,
            stats: self.stats,
        }
    }

    /// Orders groups by the time of their change and then by what they say.
    #[tactic(auto, unfolding(vault_model::specs::Db::group_mark_cmp))]
    fn compare_marks(&self, other: &LentState<'a>) -> Ordering
        ensures { result ≡ group_mark_cmp (mark_of self.now) (mark_of other.now) }
    {
        self.modified
            .cmp(&other.modified)
            .then(compare_group(self.content, other.content))
    }
}
