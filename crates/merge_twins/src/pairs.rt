//! Two copies of one database, as values.
use vault_model::Doc;

/// Two copies of one database.
#[derive(Drop)]
pub struct Twins {
    pub first: Doc,
    pub second: Doc,
}
