//! What takes the text of a table: it is counted first, and then written into secret memory.

ghost use Rattle.std.specs.Prelude.{◌≡◌, ◌+◌, ◌++◌, [], List, length, OnOk, ℕ};
ghost use Rattle.std.proofs.Common.{rules};
ghost use Rattle.std.proofs.lemmas.Grind.{common_steps};

use outside_core::NoMemory;
use secret_core::Secret;

/// What takes the text of a table piece by piece: it counts the bytes, or keeps them.
pub(crate) trait TableSink {
    /// What contracts see of it.
    ghost State: { Type 0 };

    ghost state: { Self → State };

    /// What a piece makes of it.
    ghost step: { State → List ℕ → State };

    /// Puts a piece. After a refusal, want of memory, it is not to be used any more.
    fn put(&mut self, piece: &[u8]) -> Result<(), NoMemory>
        ensures { OnOk result (state self.new ≡ step (state self.old) piece.now) };

    /// An empty piece makes nothing of it.
    ghost nothing: { (s : State) → step s [] ≡ s };

    /// Two pieces make of it what both in one make of it.
    ghost joined: { (s : State) (a b : List ℕ) → step (step s a) b ≡ step s (a ++ b) };
}

/// How many bytes were put.
#[derive(Drop)]
pub(crate) struct Counter {
    pub(crate) len: usize,
}

impl TableSink for Counter {
    ghost State = { ℕ };

    ghost state = { λ counter. counter.len };

    ghost step = { λ len piece. len + length piece };

    ghost nothing = { Prim.search (rules, common_steps) };

    ghost joined = { Prim.search (rules, common_steps) };

    fn put(&mut self, piece: &[u8]) -> Result<(), NoMemory> {
        let Some(len) = self.len.checked_add(piece.len()) else {
            return Err(NoMemory);
        };
        self.len = len;
        Ok(())
    }
}

impl TableSink for Secret {
    ghost State = { List ℕ };

    ghost state = { λ text. text.bytes };

    ghost step = { λ bytes piece. bytes ++ piece };

    ghost nothing = { Prim.search (rules, common_steps) };

    ghost joined = { Prim.search (rules, common_steps) };

    fn put(&mut self, piece: &[u8]) -> Result<(), NoMemory> {
        if piece.len() > self.spare() {
            return Err(NoMemory);
        }
        self.extend(piece);
        Ok(())
    }
}
