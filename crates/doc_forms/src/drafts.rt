//! Parts of a document before it is whole, when the bytes of attachments are not resolved yet.

use crate::times::Times;
use std::rc::Rc;
use stream_core::outside_core::{List, Text};
use stream_core::secret_core::Secret;
use uuid_core::Uuid;
use vault_model::{GroupContent, GroupState, GroupView, Meta, Stamp, Tombstone, Version};

/// Where an attachment's bytes are.
#[derive(Drop)]
pub enum SourceDraft {
    /// In the attachment's own element.
    OwnBytes(Rc<Secret>),
    /// In the binary of a number, to which the element at an offset refers: the offset, and the
    /// number.
    PoolNumber(usize, u64),
}

/// An attachment.
#[derive(Drop)]
pub struct AttachmentDraft {
    pub name: Text,
    pub source: SourceDraft,
    pub hidden: bool,
}

/// A version of an entry. What it says has no attachments yet: they are kept beside it.
#[derive(Drop)]
pub struct VersionDraft {
    pub version: Version,
    pub attachments: List<AttachmentDraft>,
}

/// An entry.
#[derive(Drop)]
pub struct EntryDraft {
    pub id: Uuid,
    pub placed: Stamp,
    pub previous: Uuid,
    pub current: VersionDraft,
    pub history: Vec<VersionDraft>,
}

/// A group with its entries and its groups.
#[derive(Drop)]
pub struct GroupDraft {
    pub id: Uuid,
    pub placed: Stamp,
    pub previous: Uuid,
    pub state: GroupState,
    pub view: GroupView,
    pub entries: Vec<EntryDraft>,
    pub groups: Vec<GroupDraft>,
}

/// Bytes to which attachments refer by a number, and whether they are hidden.
#[derive(Drop)]
pub struct Binary {
    pub number: u64,
    pub bytes: Rc<Secret>,
    pub hidden: bool,
}

/// What is known of a group before its end.
#[derive(Drop)]
pub struct GroupBuilder {
    pub id: Option<Uuid>,
    pub previous: Uuid,
    pub times: Times,
    pub content: GroupContent,
    pub view: GroupView,
    pub entries: Vec<EntryDraft>,
    pub groups: Vec<GroupDraft>,
}

/// What is known of `Meta` before its end: what the database says of itself, the hash of its file's
/// header, and the binaries, in their order.
#[derive(Drop)]
pub struct MetaBuilder {
    pub meta: Meta,
    pub hash: Option<[u8; 32]>,
    pub binaries: List<Binary>,
}

/// What is known of `Root` before its end: the root group, and the tombstones in their order.
#[derive(Drop)]
pub struct RootBuilder {
    pub tree: Option<GroupDraft>,
    pub tombs: List<Tombstone>,
}

/// What is known of `KeePassFile` before its end.
#[derive(Drop)]
pub struct FileBuilder {
    pub meta: MetaBuilder,
    pub root: Option<RootBuilder>,
}
