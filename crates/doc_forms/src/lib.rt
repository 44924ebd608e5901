//! What a document says: the definitions of its meaning, and the types in which a reader gathers
//! it.
#![tactic(auto)]

pub mod cursor;
pub mod documents;
pub mod drafts;
pub mod fails;
pub mod texts;
pub mod times;

pub use cursor::Cursor;
pub use documents::{DocParts, ReadDoc};
pub use drafts::{
    AttachmentDraft, Binary, EntryDraft, FileBuilder, GroupBuilder, GroupDraft, MetaBuilder,
    RootBuilder, SourceDraft, VersionDraft,
};
pub use fails::{DocFail, RequiredElement};
pub use stream_core;
pub use texts::ElementText;
pub use times::Times;
