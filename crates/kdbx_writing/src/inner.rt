//! Inner fields as they are written.

ghost use Rattle.std.specs.Prelude.{◌≡◌, ◌+◌, ◌-◌, ◌<◌, ◌≤◌, ◌^◌, ◌∷◌, ◌++◌, length, map};
ghost use Rattle.std.specs.Int.{w32, to_le_bytes};
ghost use Rattle.std.specs.List.{AllByRecursion};
ghost use Rattle.kdbx_inner.specs.Seen.{binary_seen};
ghost use Rattle.kdbx_writing.specs.Fields.{spelled_field};
ghost use Rattle.kdbx_writing.specs.Inner.{FitsField, binary_field, spelled_inner};
ghost use Rattle.kdbx_writing.specs.Pools.{pool_bytes};

use secret_core::Secret;
use vault_model::PoolItem;

// Puts the id and the length of a field at the end.
fn put_head(out: &mut Secret, id: u8, len: usize)
    requires len { len < 2 ^ 32 }
    requires spare { 5 ≤ out.old.spare }
    ensures bytes { out.new.bytes ≡ out.old.bytes ++ id ∷ to_le_bytes w32 len }
    ensures spare { out.new.spare ≡ out.old.spare - 5 }
{
    out.push(id);
    out.extend(&(len as u32).to_le_bytes());
}

// Puts a field at the end.
fn put_field(out: &mut Secret, id: u8, content: &[u8])
    requires len { length content.now < 2 ^ 32 }
    requires spare { length content.now + 5 ≤ out.old.spare }
    ensures bytes { out.new.bytes ≡ out.old.bytes ++ spelled_field (id, content.now) }
    ensures spare { out.new.spare ≡ out.old.spare - (length content.now + 5) }
{
    put_head(out, id, content.len());
    out.extend(content);
}

// Puts an attached file at the end.
fn put_binary(out: &mut Secret, item: &PoolItem)
    requires small { FitsField (binary_seen item.now) }
    requires spare { length item.now.bytes.value.bytes + 6 ≤ out.old.spare }
    ensures bytes { out.new.bytes
        ≡ out.old.bytes ++ spelled_field (binary_field (binary_seen item.now)) }
    ensures spare { out.new.spare ≡ out.old.spare - (length item.now.bytes.value.bytes + 6) }
{
    let len = item.bytes.len();
    put_head(out, 3, len + 1);
    out.push(if item.hidden { 1 } else { 0 });
    out.extend(item.bytes.lend(0, len));
}

// Puts attached files at the end.
fn put_pool(out: &mut Secret, pool: &[PoolItem])
    requires small { AllByRecursion FitsField (map binary_seen pool.now) }
    requires spare { length (pool_bytes pool.now) ≤ out.old.spare }
    ensures bytes { out.new.bytes ≡ out.old.bytes ++ pool_bytes pool.now }
    ensures spare { out.new.spare ≡ out.old.spare - length (pool_bytes pool.now) }
{
    let mut left = pool;
    'files: while let [item, rest @ ..] = left {
        put_binary(out, item);
        left = rest;
    }
}

/// Puts the inner fields at the end: the stream ChaCha20 with this key, and the attached files.
///
/// They are read as what they were written from
/// ([`crate::laws::inner_fields_read_back`]).
pub fn write_inner(out: &mut Secret, key: &[u8; 64], pool: &[PoolItem])
    requires small { AllByRecursion FitsField (map binary_seen pool.now) }
    requires spare { length (spelled_inner key.now (map binary_seen pool.now)) ≤ out.old.spare }
    ensures bytes { out.new.bytes
        ≡ out.old.bytes ++ spelled_inner key.now (map binary_seen pool.now) }
    ensures spare { out.new.spare
        ≡ out.old.spare - length (spelled_inner key.now (map binary_seen pool.now)) }
{
    put_field(out, 1, &3u32.to_le_bytes());
    put_field(out, 2, key);
    put_pool(out, pool);
    put_field(out, 0, &[]);
}

// How many bytes attached files have as they are written.
fn pool_len(pool: &[PoolItem]) -> usize
    requires { length (pool_bytes pool.now) < 2 ^ 62 }
    ensures { result ≡ length (pool_bytes pool.now) }
{
    let mut left = pool;
    let mut len = 0;
    'files: while let [item, rest @ ..] = left {
        len += item.bytes.len() + 6;
        left = rest;
    }
    len
}

/// How many bytes `write_inner` puts.
pub fn inner_len(key: &[u8; 64], pool: &[PoolItem]) -> usize
    requires { length (spelled_inner key.now (map binary_seen pool.now)) < 2 ^ 62 }
    ensures { result ≡ length (spelled_inner key.now (map binary_seen pool.now)) }
{
    key.len() + 19 + pool_len(pool)
}
