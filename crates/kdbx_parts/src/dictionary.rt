//! The KDF dictionary, field 11 of a header.

ghost use Rattle.std.specs.Prelude.{◌≡◌, ◌+◌, ◌≤◌, ◌^◌, ◌<◌, IfOk, length, drop, option_map, true};
ghost use Rattle.outside_core.specs.Results.{Returns};
ghost use Rattle.kdbx_parts.specs.Results.{meaning_of};
ghost use Rattle.kdbx_parts.specs.Dictionary.{bytes_in, description_of, counted_bytes, dictionary_of, length_fits, item_at, item_step, items_of, no_keys, required_key, required_bytes, u32_in, u64_in, with_item, aes_description, argon_description};
ghost use Rattle.kdbx_parts.specs.declared.fail.FrameFail.TheVariants.{Dictionary};
ghost use Rattle.kdbx_parts.specs.SeenDictionary.{item_seen, items_seen, keys_seen, description_seen};

use crate::{FrameFail, array_of, same, split_bytes, u32_of, u64_of};
use key_core::argon_core::ArgonKind;

/// The id of AES as a key derivation.
const AES_KDF: [u8; 16] = [
    0xC9, 0xD9, 0xF3, 0x9A, 0x62, 0x8A, 0x44, 0x60, 0xBF, 0x74, 0x0D, 0x08, 0xC1, 0x8A, 0x4F, 0xEA,
];

/// Another id of AES as a key derivation, that of KeePass 2.36 and later.
const AES_KDF_4: [u8; 16] = [
    0x7C, 0x02, 0xBB, 0x82, 0x79, 0xA7, 0x4A, 0xC0, 0x92, 0x7D, 0x11, 0x4A, 0x00, 0x64, 0x82, 0x38,
];

/// The id of Argon2d.
const ARGON2D: [u8; 16] = [
    0xEF, 0x63, 0x6D, 0xDF, 0x8C, 0x29, 0x44, 0x4B, 0x91, 0xF7, 0xA9, 0xA4, 0x03, 0xE3, 0x0A, 0x0C,
];

/// The id of Argon2id.
const ARGON2ID: [u8; 16] = [
    0x9E, 0x29, 0x8B, 0x19, 0x56, 0xDB, 0x47, 0x73, 0xB2, 0x3D, 0xFC, 0x3E, 0xC6, 0xF0, 0xA1, 0xE6,
];

/// The type of a value that is a u32.
const U32: u8 = 0x04;

/// The type of a value that is a u64.
const U64: u8 = 0x05;

/// The type of a value of any bytes.
const BYTES: u8 = 0x42;

/// An item of a dictionary.
#[derive(Clone, Copy)]
pub struct Item<'a> {
    /// The type of its value.
    pub kind: u8,
    /// Its key.
    pub key: &'a [u8],
    /// Its value's bytes.
    pub value: &'a [u8],
    /// The bytes after it.
    pub rest: &'a [u8],
}

/// The values of the items so far, by their keys. The last of a key counts, and a value of another
/// type than the key's is none.
#[derive(Clone, Copy)]
pub struct Keys<'a> {
    /// `$UUID`: the id of the key derivation.
    pub uuid: Option<&'a [u8]>,
    /// `R`: the rounds of AES.
    pub rounds: Option<u64>,
    /// `S`: the salt of Argon2, or the key of AES.
    pub salt: Option<&'a [u8]>,
    /// `P`: the lanes of Argon2.
    pub lanes: Option<u32>,
    /// `M`: the memory of Argon2 in bytes.
    pub memory: Option<u64>,
    /// `I`: the passes of Argon2.
    pub passes: Option<u64>,
    /// `V`: the version of Argon2.
    pub version: Option<u32>,
    /// `K`: whether Argon2 has a key of its own.
    pub key: bool,
    /// `A`: whether Argon2 has associated data.
    pub associated: bool,
}

// How far the reading of the items has come: their values so far, and the bytes after them.
#[derive(Clone, Copy)]
struct ItemsRead<'a> {
    keys: Keys<'a>,
    rest: &'a [u8],
}

/// The key derivation that a dictionary describes.
#[derive(Clone, Copy)]
pub enum KdfDescription<'a> {
    /// The dictionary is of a version that is not read: this one.
    WrongVersion(u16),
    /// The key derivation of this id is not known.
    UnknownId([u8; 16]),
    /// AES.
    Aes {
        /// How often the key is enciphered.
        rounds: u64,
        /// The key of AES.
        seed: [u8; 32],
    },
    /// Argon2.
    Argon {
        /// Argon2d or Argon2id.
        kind: ArgonKind,
        /// How often the memory is filled.
        passes: u64,
        /// The memory in bytes.
        memory: u64,
        /// The lanes.
        lanes: u32,
        /// The salt.
        salt: &'a [u8],
        /// The version of Argon2.
        version: u32,
        /// Whether it has a key or associated data of its own.
        extra: bool,
    },
}

// Four bytes of length, and that many bytes, of the item at this offset; and the bytes after them.
fn counted_bytes(offset: u64, rest: &[u8]) -> Result<(&[u8], &[u8]), FrameFail>
    ensures gives { Returns meaning_of (λ x. (x.0.now, x.1.now)) result
        (counted_bytes (Dictionary offset) rest.now) }
    ensures shorter { IfOk result (λ x. length x.1.now + 4 ≤ length rest.now) }
{
    let (n, rest) = split_bytes(FrameFail::Dictionary(offset), 4, rest)?;
    split_bytes(FrameFail::Dictionary(offset), u32_of(n) as usize, rest)
}

// Whether a value of this type may have this length.
fn length_fits(kind: u8, len: usize) -> bool
    ensures { result ≡ length_fits kind len }
{
    match kind {
        U32 | 0x0C => len == 4,
        U64 | 0x0D => len == 8,
        0x08 => len == 1,
        _ => kind == 0x18 || kind == BYTES,
    }
}

// The item at this offset: type, key, value.
#[tactic(auto, unfolding(crate::specs::Dictionary::item_at))]
fn item_of(offset: u64, rest: &[u8]) -> Result<Item, FrameFail>
    ensures gives { Returns meaning_of item_seen result (item_at (Dictionary offset) rest.now) }
    ensures shorter { IfOk result (λ i. length i.rest.now ≤ length rest.now) }
    ensures length_fits { IfOk result (λ i. length_fits i.kind (length i.value.now) ≡ true) }
{
    let (kind, rest) = split_bytes(FrameFail::Dictionary(offset), 1, rest)?;
    let (key, rest) = counted_bytes(offset, rest)?;
    let (value, rest) = counted_bytes(offset, rest)?;
    if !length_fits(kind[0], value.len()) {
        return Err(FrameFail::Dictionary(offset));
    }
    Ok(Item {
        kind: kind[0],
        key,
        value,
        rest,
    })
}

// The value where its type is bytes.
fn bytes_in<'a>(item: &Item<'a>) -> Option<&'a [u8]>
    ensures { option_map (λ x. x.now) result ≡ bytes_in (item_seen item.now) }
{
    if item.kind == BYTES {
        Some(item.value)
    } else {
        None
    }
}

// The value where its type is a u32.
fn u32_in(item: &Item) -> Option<u32>
    requires { length_fits item.now.kind (length item.now.value.now) ≡ true }
    ensures { result ≡ u32_in (item_seen item.now) }
{
    if item.kind == U32 {
        Some(u32_of(item.value))
    } else {
        None
    }
}

// The value where its type is a u64.
fn u64_in(item: &Item) -> Option<u64>
    requires { length_fits item.now.kind (length item.now.value.now) ≡ true }
    ensures { result ≡ u64_in (item_seen item.now) }
{
    if item.kind == U64 {
        Some(u64_of(item.value))
    } else {
        None
    }
}

// Adds an item to the values.
#[tactic(auto, unfolding(crate::specs::Dictionary::with_item))]
fn add_item<'a>(keys: &mut Keys<'a>, item: &Item<'a>)
    requires { length_fits item.now.kind (length item.now.value.now) ≡ true }
    ensures { keys_seen keys.new ≡ with_item (keys_seen keys.old) (item_seen item.now) }
{
    let key = item.key;
    if same(key, b"$UUID") {
        keys.uuid = bytes_in(item);
    } else if same(key, b"R") {
        keys.rounds = u64_in(item);
    } else if same(key, b"S") {
        keys.salt = bytes_in(item);
    } else if same(key, b"P") {
        keys.lanes = u32_in(item);
    } else if same(key, b"M") {
        keys.memory = u64_in(item);
    } else if same(key, b"I") {
        keys.passes = u64_in(item);
    } else if same(key, b"V") {
        keys.version = u32_in(item);
    } else if same(key, b"K") {
        keys.key = !item.value.is_empty();
    } else if same(key, b"A") {
        keys.associated = !item.value.is_empty();
    }
}

// Reads one item, or the byte 0 that ends them, which it reports.
#[tactic(auto, unfolding(crate::specs::Dictionary::item_step))]
fn read_item(whole: usize, read: &mut ItemsRead) -> Result<bool, FrameFail>
    requires { length read.old.rest.now ≤ whole }
    ensures gives { Returns meaning_of (λ ended. (ended, items_seen read.new)) result
        (item_step whole (items_seen read.old)) }
    ensures shorter { IfOk result (λ _. length read.new.rest.now ≤ length read.old.rest.now) }
{
    let offset = (whole - read.rest.len()) as u64;
    let (kind, after) = split_bytes(FrameFail::Dictionary(offset), 1, read.rest)?;
    if kind[0] == 0 {
        read.rest = after;
        return Ok(true);
    }
    match item_of(offset, read.rest) {
        Ok(item) => {
            add_item(&mut read.keys, &item);
            read.rest = item.rest;
            Ok(false)
        }
        Err(fail) => Err(fail),
    }
}

// No values, and the bytes after the version of a field.
fn no_items(content: &[u8]) -> ItemsRead<'_>
    requires { 2 ≤ length content.now }
    ensures { items_seen result ≡ record { keys = no_keys; rest = drop 2 content.now } }
{
    ItemsRead {
        keys: Keys {
            uuid: None,
            rounds: None,
            salt: None,
            lanes: None,
            memory: None,
            passes: None,
            version: None,
            key: false,
            associated: false,
        },
        rest: &content[2..],
    }
}

// Reads all items of a field, which follow its version of two bytes.
fn read_items<'a>(content: &'a [u8], read: &mut ItemsRead<'a>) -> Result<(), FrameFail>
    requires { items_seen read.old ≡ record { keys = no_keys; rest = drop 2 content.now } }
    ensures { Returns meaning_of (λ _. items_seen read.new) result (items_of content.now) }
{
    'items: for _ in 0..content.len() {
        let ended = read_item(content.len(), read)?;
        if ended {
            return Ok(());
        }
    }
    Err(FrameFail::Dictionary((content.len() - read.rest.len()) as u64))
}

// The value of a key that must occur, in a field of this length.
fn required_key<T: Drop>(len: u64, value: Option<T>) -> Result<T, FrameFail>
    ensures { Returns meaning_of (λ x. x) result (required_key (Dictionary len) value) }
{
    match value {
        Some(value) => Ok(value),
        None => Err(FrameFail::Dictionary(len)),
    }
}

// The value of a key that must occur with N bytes, in a field of this length.
fn required_bytes<const N: usize>(len: u64, value: Option<&[u8]>) -> Result<[u8; N], FrameFail>
    ensures { Returns meaning_of (λ x. x) result (required_bytes (Dictionary len) N
        (option_map (λ x. x.now) value.entry)) }
{
    match value {
        Some(bytes) if bytes.len() == N => Ok(array_of(bytes)),
        _ => Err(FrameFail::Dictionary(len)),
    }
}

// AES, as its items describe it.
fn aes_description<'a>(len: u64, keys: &Keys<'a>) -> Result<KdfDescription<'a>, FrameFail>
    ensures { Returns meaning_of description_seen result
        (aes_description (Dictionary len) (keys_seen keys.now)) }
{
    let rounds = required_key(len, keys.rounds)?;
    let seed = required_bytes(len, keys.salt)?;
    Ok(KdfDescription::Aes { rounds, seed })
}

// Argon2, as its items describe it.
fn argon_description<'a>(
    len: u64,
    kind: ArgonKind,
    keys: &Keys<'a>,
) -> Result<KdfDescription<'a>, FrameFail>
    ensures { Returns meaning_of description_seen result
        (argon_description (Dictionary len) kind (keys_seen keys.now)) }
{
    let salt = match keys.salt {
        Some(salt) => salt,
        None => return Err(FrameFail::Dictionary(len)),
    };
    let lanes = required_key(len, keys.lanes)?;
    let memory = required_key(len, keys.memory)?;
    let passes = required_key(len, keys.passes)?;
    let version = required_key(len, keys.version)?;
    Ok(KdfDescription::Argon {
        kind,
        passes,
        memory,
        lanes,
        salt,
        version,
        extra: keys.key || keys.associated,
    })
}

// The key derivation that all items describe: each key derivation needs its keys.
#[tactic(auto, unfolding(crate::specs::Dictionary::description_of))]
fn description_of<'a>(len: u64, keys: &Keys<'a>) -> Result<KdfDescription<'a>, FrameFail>
    ensures { Returns meaning_of description_seen result
        (description_of (Dictionary len) (keys_seen keys.now)) }
{
    let uuid = required_bytes(len, keys.uuid)?;
    if same(&uuid, &AES_KDF) || same(&uuid, &AES_KDF_4) {
        aes_description(len, keys)
    } else if same(&uuid, &ARGON2D) {
        argon_description(len, ArgonKind::D, keys)
    } else if same(&uuid, &ARGON2ID) {
        argon_description(len, ArgonKind::Id, keys)
    } else {
        Ok(KdfDescription::UnknownId(uuid))
    }
}

/// The key derivation that a dictionary describes, or the refusal Dictionary with the offset of the
/// fault in it.
#[tactic(auto, unfolding(crate::specs::Dictionary::dictionary_of))]
pub fn dictionary_of(content: &[u8]) -> Result<KdfDescription, FrameFail>
    ensures { Returns meaning_of description_seen result (dictionary_of content.now) }
{
    let (version, _) = split_bytes(FrameFail::Dictionary(0), 2, content)?;
    if version[1] != 1 {
        return Ok(KdfDescription::WrongVersion(u16::from_le_bytes(array_of(version))));
    }
    let mut read = no_items(content);
    match read_items(content, &mut read) {
        Ok(()) => description_of(content.len() as u64, &read.keys),
        Err(fail) => Err(fail),
    }
}
