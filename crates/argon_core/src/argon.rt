//! Argon2d and Argon2id (RFC 9106).

ghost use Rattle.std.specs.Prelude.{◌≡◌, ◌≤◌, IfSome, IfNone, IfOk, IfErr, length};
ghost use Rattle.argon_core.specs.Argon2.{IsWithinLimits, argon2, first_unmet, tag_of};

use crate::hashes::{first_hash, tag};
use crate::memory::Memory;
use crate::params::{
    ArgonFail, ArgonKind, ArgonParams, Instance, MAX_KIB, MAX_LANES, MAX_SALT, MIN_LANE_KIB,
    MIN_SALT,
};
use secret_core::Key;
use std::alloc::Global;

// The first limit that is not kept, if there is one.
fn first_unmet(params: &ArgonParams, salt_len: usize) -> Option<ArgonFail>
    ensures unmet { result ≡ first_unmet params.now salt_len }
    ensures within { IfNone result (IsWithinLimits params.now) }
{
    let ArgonParams { passes, kib, lanes } = *params;
    if passes == 0 {
        Some(ArgonFail::Passes(passes))
    } else if lanes == 0 || lanes > MAX_LANES {
        Some(ArgonFail::Lanes(lanes))
    } else if kib < MIN_LANE_KIB * lanes || kib > MAX_KIB {
        Some(ArgonFail::Kib(kib))
    } else if salt_len < MIN_SALT || salt_len > MAX_SALT {
        Some(ArgonFail::Salt(salt_len))
    } else {
        None
    }
}

/// The Argon2 tag of 32 bytes (RFC 9106, version 0x13) of a password, a salt, a secret and extra
/// data, each of at most 65,536 bytes.
///
/// The limits are looked at in the order of `ArgonFail`. The memory takes at most `params.kib` units
/// of 1,024 bytes and less than one besides, and is zeroed before it is given back.
pub fn argon2(
    alloc: Global,
    kind: ArgonKind,
    params: &ArgonParams,
    password: &[u8],
    salt: &[u8],
    secret: &[u8],
    extra: &[u8],
) -> Result<Key, ArgonFail>
    requires password { length password.now ≤ 65536 }
    requires salt { length salt.now ≤ 65536 }
    requires secret { length secret.now ≤ 65536 }
    requires extra { length extra.now ≤ 65536 }
    ensures unmet { IfSome (first_unmet params.now (length salt.now)) (λ fail. result ≡ Err fail) }
    ensures met { IfNone (first_unmet params.now (length salt.now))
        (IfErr result (λ fail. fail ≡ ArgonFail.NoMemory)) }
    ensures tag { IfOk result (λ key.
        key ≡ argon2 kind params.now password.now salt.now secret.now extra.now) }
{
    if let Some(fail) = first_unmet(params, salt.len()) {
        return Err(fail);
    }
    let instance = Instance {
        kind,
        params: *params,
        first_hash: first_hash(kind, params, password, salt, secret, extra),
    };
    let key = tag_of(alloc, &instance);
    instance.spend();
    key
}

// The tag of a computation, over memory of its own.
fn tag_of(alloc: Global, instance: &Instance) -> Result<Key, ArgonFail>
    requires { IsWithinLimits instance.now.params }
    ensures tag { IfOk result (λ key. key ≡ tag_of instance.now) }
    ensures memory { IfErr result (λ fail. fail ≡ ArgonFail.NoMemory) }
{
    let Ok(mut memory) = Memory::zeros(alloc, instance.memory_len()) else {
        return Err(ArgonFail::NoMemory);
    };
    let blocks = memory.blocks();
    instance.fill(blocks);
    let mut last = instance.last_block(blocks);
    memory.wipe();
    memory.release();
    let key = tag(&last.words);
    last.wipe();
    last.release();
    Ok(key)
}
