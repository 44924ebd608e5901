//! A document with its nodes laid side by side: each node's record, and each group's two lists of
//! children.
ghost use Rattle.std.specs.Prelude.{◌≡◌};

use merge_tables::icons::{LentIcon, LentItem};
use merge_tables::states::LentState;
use merge_tables::tables::Table;
use merge_tables::version_keys::VersionKey;
use outside_core::Text;
use std::marker::Model;
use uuid_core::Uuid;
use vault_model::{Bin, GroupView, MetaSettings, MetaView, Stamp, Stats, Timed};

/// Since when a node is in its group, and in which group it was before, the nil id where in none.
#[derive(Clone, Copy)]
pub struct Stay {
    pub placed: Stamp,
    pub previous: Uuid,
}

impl Model for Stay {
    ghost use Rattle.vault_model.specs.Shape.{Stay};

    ghost Value = { Stay };

    ghost view = { λ s. record { placed = s.placed; previous = s.previous } };

    ghost inverse = { λ s. record { placed = s.placed; previous = s.previous } };
}

/// A version of an entry, whose content a document lends.
#[derive(Drop)]
pub struct LentVersion<'a> {
    mark: VersionKey<'a>,
    stats: Stats,
}

impl<'a> Model for LentVersion<'a> {
    ghost use Rattle.vault_model.specs.Shape.{BareVersion};
    ghost use Rattle.merge_nodes.specs.RecordCodes.{version_code};

    ghost Value = { BareVersion };

    ghost coded = { version_code };

    ghost view = { λ v. record { mark = v.mark; stats = v.stats } };
}

impl<'a> LentVersion<'a> {
    /// The version of a mark, and how it was used.
    pub fn new(mark: &VersionKey<'a>, stats: Stats) -> LentVersion<'a>
        ensures { result ≡ record { mark = mark.now; stats = stats } }
    {
        LentVersion {
            mark: mark.again(),
            stats,
        }
    }

    /// When the version was made and what it says.
    pub fn mark(&self) -> &VersionKey<'a>
        ensures { result.now ≡ self.now.mark }
    {
        &self.mark
    }

    /// How the version was used.
    pub fn stats(&self) -> Stats
        ensures { result ≡ self.now.stats }
    {
        self.stats
    }
}

/// An entry without its group: since when it is there and where it was before, its current version,
/// and those before it.
#[derive(Drop)]
pub struct LentEntry<'a> {
    stay: Stay,
    current: LentVersion<'a>,
    history: Vec<LentVersion<'a>>,
}

impl<'a> Model for LentEntry<'a> {
    ghost use Rattle.vault_model.specs.Shape.{EntryRecord};
    ghost use Rattle.merge_nodes.specs.RecordCodes.{entry_code};

    ghost Value = { EntryRecord };

    ghost coded = { entry_code };

    ghost view = { λ e. record {
      placed = e.stay.placed;
      previous = e.stay.previous;
      current = e.current;
      history = e.history.items;
    } };
}

impl<'a> LentEntry<'a> {
    /// An entry of its parts.
    pub fn new(stay: Stay, current: LentVersion<'a>, history: Vec<LentVersion<'a>>) -> LentEntry<'a>
        ensures { result ≡ record {
          placed = stay.placed;
          previous = stay.previous;
          current = current.entry;
          history = history.entry.items;
        } }
    {
        LentEntry {
            stay,
            current,
            history,
        }
    }

    /// Since when the entry is in its group, and where it was before.
    pub fn stay(&self) -> Stay
        ensures { result ≡ record { placed = self.now.placed; previous = self.now.previous } }
    {
        self.stay
    }

    /// The current version.
    pub fn current(&self) -> &LentVersion<'a>
        ensures { result.now ≡ self.now.current }
    {
        &self.current
    }

    /// The versions before the current one, in their order.
    pub fn history(&self) -> &[LentVersion<'a>]
        ensures { result.now ≡ self.now.history }
    {
        self.history.as_slice()
    }
}

/// A group without its children, whose content a document lends.
#[derive(Drop)]
pub struct LentGroup<'a> {
    stay: Stay,
    state: LentState<'a>,
    view: GroupView,
}

impl<'a> Model for LentGroup<'a> {
    ghost use Rattle.vault_model.specs.Shape.{GroupRecord};

    ghost Value = { GroupRecord };

    ghost view = { λ g. record {
      placed = g.stay.placed;
      previous = g.stay.previous;
      state = g.state;
      view = g.view;
    } };
}

impl<'a> LentGroup<'a> {
    /// A group of its parts.
    pub fn new(stay: Stay, state: LentState<'a>, view: GroupView) -> LentGroup<'a>
        ensures { result ≡ record {
          placed = stay.placed;
          previous = stay.previous;
          state = state.entry;
          view = view;
        } }
    {
        LentGroup { stay, state, view }
    }

    /// Since when the group is in its group, and where it was before.
    pub fn stay(&self) -> Stay
        ensures { result ≡ record { placed = self.now.placed; previous = self.now.previous } }
    {
        self.stay
    }

    /// The group's state.
    pub fn state(&self) -> &LentState<'a>
        ensures { result.now ≡ self.now.state }
    {
        &self.state
    }

    /// How the group was last looked at.
    pub fn view(&self) -> GroupView
        ensures { result ≡ self.now.view }
    {
        self.view
    }
}

/// The ids of a group's entries and of its groups, in their order.
#[derive(Drop)]
pub struct Children {
    entries: Vec<Uuid>,
    groups: Vec<Uuid>,
}

impl Model for Children {
    ghost use Rattle.vault_model.specs.Shape.{Children};

    ghost Value = { Children };

    ghost view = { λ s. record { entries = s.entries.items; groups = s.groups.items } };
}

impl Children {
    /// The children of two lists.
    pub fn new(entries: Vec<Uuid>, groups: Vec<Uuid>) -> Children
        ensures { result ≡ record { entries = entries.items; groups = groups.items } }
    {
        Children { entries, groups }
    }

    /// The ids of the entries.
    pub fn entries(&self) -> &[Uuid]
        ensures { result.now ≡ self.now.entries }
    {
        self.entries.as_slice()
    }

    /// The ids of the groups.
    pub fn groups(&self) -> &[Uuid]
        ensures { result.now ≡ self.now.groups }
    {
        self.groups.as_slice()
    }
}

/// What a document says of itself, each value lent by some document, and how it was last looked at.
#[derive(Drop)]
pub struct ShapeMeta<'a> {
    pub name: &'a Timed<Text>,
    pub description: &'a Timed<Text>,
    pub user: &'a Timed<Text>,
    pub bin: &'a Timed<Bin>,
    pub templates: &'a Timed<Uuid>,
    pub settings: &'a Timed<MetaSettings>,
    pub icons: Vec<LentIcon<'a>>,
    pub items: Vec<LentItem<'a>>,
    pub view: MetaView,
}

/// A document, its nodes side by side.
#[derive(Drop)]
pub struct Shape<'a> {
    pub root: Uuid,
    pub entries: Table<LentEntry<'a>>,
    pub groups: Table<LentGroup<'a>>,
    pub children: Table<Children>,
    pub tombs: Table<Stamp>,
    pub meta: ShapeMeta<'a>,
}
