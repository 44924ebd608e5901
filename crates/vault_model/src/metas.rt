//! What a document says of its database.

use crate::contents::Item;
use secret_core::outside_core::{Bytes, List, Text};
use time_core::Stamp;
use uuid_core::Uuid;

/// A value with the time of its last change.
#[derive(Drop)]
pub struct Timed<T> {
    pub changed: Stamp,
    pub value: T,
}

/// Whether deleted nodes go into a group of their own, and into which.
#[derive(Clone, Copy)]
pub struct Bin {
    pub enabled: bool,
    pub id: Uuid,
}

/// Which of an entry's five fields are hidden when it is made.
#[derive(Clone, Copy)]
pub struct Protection {
    pub title: bool,
    pub user: bool,
    pub password: bool,
    pub url: bool,
    pub notes: bool,
}

/// The settings that change together.
#[derive(Drop)]
pub struct MetaSettings {
    pub color: Text,
    pub days: u32,
    pub key_rec: i64,
    pub key_force: i64,
    pub protect: Protection,
    pub history_items: i32,
    pub history_size: i64,
    /// Whether the key is to be changed when the database is opened next.
    pub key_force_once: bool,
}

/// A picture that entries and groups may show; its bytes are never interpreted.
#[derive(Drop)]
pub struct Icon {
    pub id: Uuid,
    pub bytes: Bytes,
    pub name: Text,
    pub changed: Stamp,
}

/// What programs remember of how a database was last looked at.
#[derive(Clone, Copy)]
pub struct MetaView {
    pub key_changed: Stamp,
    pub last_group: Uuid,
    pub last_top: Uuid,
}

/// What a database says of itself.
#[derive(Drop)]
pub struct Meta {
    pub name: Timed<Text>,
    pub description: Timed<Text>,
    pub user: Timed<Text>,
    pub bin: Timed<Bin>,
    pub templates: Timed<Uuid>,
    pub settings: Timed<MetaSettings>,
    pub icons: List<Icon>,
    pub items: List<Item>,
    pub view: MetaView,
}
