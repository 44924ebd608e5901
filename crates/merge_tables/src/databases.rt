//! A database: what it holds of each node, and nothing of the order of nodes.
use crate::metas::LentMeta;
use crate::placements::Placement;
use crate::states::LentState;
use crate::tables::Table;
use crate::versions::VersionTable;
use uuid_core::Uuid;
use vault_model::Stamp;

/// A database. Each node but the root has a place.
#[derive(Drop)]
pub struct Database<'a> {
    pub root: Uuid,
    pub entries: Table<VersionTable<'a>>,
    pub groups: Table<LentState<'a>>,
    pub places: Table<Placement>,
    pub tombs: Table<Stamp>,
    pub meta: LentMeta<'a>,
}
