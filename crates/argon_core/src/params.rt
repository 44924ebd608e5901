//! The parameters of Argon2 (RFC 9106, 3.1), and what one computation is made of.

use secret_core::Key64;

/// The most lanes of Argon2 that are allowed.
pub const MAX_LANES: u32 = 1024;

/// The least memory of a lane, in units of 1,024 bytes.
pub const MIN_LANE_KIB: u32 = 8;

/// The most memory that is allowed, in units of 1,024 bytes.
pub const MAX_KIB: u32 = 1_048_576;

/// The fewest bytes of a salt.
pub const MIN_SALT: usize = 8;

/// The most bytes of a salt that are allowed.
pub const MAX_SALT: usize = 1024;

/// A type of Argon2: how the blocks to mix in are chosen.
#[derive(Clone, Copy)]
pub enum ArgonKind {
    /// Argon2d: by the blocks before.
    D,
    /// Argon2id: by counters in the first half of the first pass, and then by the blocks before.
    Id,
}

/// The costs of a computation.
#[derive(Clone, Copy)]
pub struct ArgonParams {
    /// How often the memory is filled.
    pub passes: u32,
    /// The memory in units of 1,024 bytes.
    pub kib: u32,
    /// How many lanes the memory is divided into.
    pub lanes: u32,
}

/// Why a computation is not made, in the order in which the limits are looked at.
#[derive(Clone, Copy)]
pub enum ArgonFail {
    /// The number of passes, which is 0.
    Passes(u32),
    /// The number of lanes, which is not from 1 to 1,024.
    Lanes(u32),
    /// The memory in units of 1,024 bytes: less than 8 for a lane, or more than 1,048,576.
    Kib(u32),
    /// The length of the salt in bytes, which is not from 8 to 1,024.
    Salt(usize),
    /// There was no memory left.
    NoMemory,
}

// One computation: its type, its costs, and the hash of all that it was given. It must be spent by
// `spend`.
pub(crate) struct Instance {
    pub(crate) kind: ArgonKind,
    pub(crate) params: ArgonParams,
    pub(crate) first_hash: Key64,
}

impl Instance {
    /// Zeroes the hash, and gives the computation up.
    pub(crate) fn spend(self) {
        let Instance {
            kind: _,
            params: _,
            mut first_hash,
        } = self;
        first_hash.clear();
        first_hash.release();
    }
}

// A part of a lane that is filled in one go: a lane's columns in one slice, in one pass.
#[derive(Clone, Copy)]
pub(crate) struct Segment {
    pub(crate) pass: usize,
    pub(crate) slice: usize,
    pub(crate) lane: usize,
}
