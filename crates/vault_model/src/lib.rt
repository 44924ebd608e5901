//! The vault as values: the tree of groups and entries, its times and orders, and what they mean.
#![tactic(auto)]

pub mod contents;
pub mod documents;
pub mod forms;
pub mod metas;
pub mod nodes;

pub use contents::{
    Association, Attachment, AutoType, Content, Field, GroupContent, Item, Stats, Tri,
    compare_content, compare_group,
};
pub use documents::Doc;
pub use forms::{DocForm, FileVersion, PoolItem};
pub use metas::{Bin, Icon, Meta, MetaSettings, MetaView, Protection, Timed};
pub use nodes::{Entry, Group, GroupState, GroupView, Tombstone, Version, entry_stamp};
pub use secret_core;
pub use secret_core::outside_core;
pub use time_core::{Stamp, iso_of, stamp_of_iso};
