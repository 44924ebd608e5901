//! Where a reader of blocks is in the file, and how a piece brings it on.

ghost use Rattle.std.specs.Prelude.{◌≡◌, ℕ, ◌+◌, ◌-◌, ◌*◌, ◌<◌, ◌≤◌, ◌^◌, ◌↔◌, List, [], ◌++◌, length, take, drop, IsTrue};
ghost use Rattle.std.specs.Int.{w32, to_le_bytes};

use crate::BlockFail;
use crate::head::{HEAD, MAC, size_of};
use crate::running_mac::RunningMac;
use secret_core::Secret;
use std::mem;

/// What a reader waits for.
#[derive(Clone, Copy)]
pub enum Phase {
    /// the rest of a block's head
    Head,
    /// the rest of a block's content
    Content,
    /// nothing: the end block was read
    Ended,
    /// nothing: a block's MAC was wrong
    Refused,
}

/// What a reader keeps between two pieces: where it is in the file, and what it needs of the block
/// that is due.
#[derive(Drop)]
pub struct State<'a> {
    base: &'a [u8; 64],
    // the index of the block that is due
    index: u64,
    // the offset in the file after the last byte fed
    pub place: u64,
    // the head of that block, of which `had` bytes have come
    head: [u8; HEAD],
    had: usize,
    // how many bytes of its content have not come
    left: u32,
    // its MAC, as far as its size and content have come
    running: RunningMac,
    phase: Phase,
}

/// Whether two MACs or hashes are the same.
pub fn is_same(found: &[u8], kept: &[u8]) -> bool
    ensures { IsTrue result ↔ (found.now ≡ kept.now) }
{
    found == kept
}

impl<'a> State<'a> {
    ghost use Rattle.mac_core.specs.Answers.{FeedReturns, EndReturns, Start};
    ghost use Rattle.mac_core.specs.State.{AtContent, AtHead, HasRead, IsPast, IsState, Stands};

    /// Before block 0, which is at this place of the file.
    pub fn new(base: &'a [u8; 64], place: u64) -> State<'a>
        ensures state { IsState result }
        ensures place { result.place ≡ place }
        ensures holds { (before : List ℕ) → HasRead
            (record { base = base.now; place = place; before = before }) result before [] }
    {
        State {
            base,
            index: 0,
            place,
            head: [0; HEAD],
            had: 0,
            left: 0,
            running: RunningMac::new(base, 0),
            phase: Phase::Head,
        }
    }

    /// Reads a piece to its end.
    pub fn feed(&mut self, piece: &[u8], out: &mut Secret)
        requires state { IsState self.old }
        requires spare { length piece.now ≤ out.old.spare }
        requires place { self.old.place + length piece.now < 2 ^ 64 }
        ensures state { IsState self.new }
        ensures place { self.new.place ≡ self.old.place + length piece.now }
        ensures spare { out.old.spare ≤ out.new.spare + length piece.now }
        ensures holds { (start : Start) (bytes : List ℕ)
            → HasRead start self.old out.old.bytes bytes
            → HasRead start self.new out.new.bytes (bytes ++ piece.now) }
    {
        let mut at = 0;
        'pieces: while at < piece.len() {
            at += self.take(&piece[at..], out);
        }
    }

    /// What the bytes so far are.
    pub fn answer(&self) -> Result<bool, BlockFail>
        requires { IsState self.now }
        ensures { (start : Start) (out bytes : List ℕ) → HasRead start self.now out bytes
            → FeedReturns start out bytes result }
    {
        match self.phase {
            Phase::Head => Ok(false),
            Phase::Content => Ok(false),
            Phase::Ended => Ok(true),
            Phase::Refused => Err(BlockFail::BlockMac(self.index)),
        }
    }

    // Reads bytes up to the next border, at least one, and says how many.
    fn take(&mut self, piece: &[u8], out: &mut Secret) -> usize
        requires state { IsState self.old }
        requires some { 0 < length piece.now }
        requires spare { length piece.now ≤ out.old.spare }
        requires place { self.old.place + length piece.now < 2 ^ 64 }
        ensures state { IsState self.new }
        ensures some { 0 < result }
        ensures within { result ≤ length piece.now }
        ensures place { self.new.place ≡ self.old.place + result }
        ensures spare { out.old.spare ≤ out.new.spare + result }
        ensures holds { (start : Start) (bytes : List ℕ)
            → HasRead start self.old out.old.bytes bytes
            → HasRead start self.new out.new.bytes (bytes ++ take result piece.now) }
    {
        match self.phase {
            Phase::Head => self.take_head(piece),
            Phase::Content => self.take_content(piece, out),
            Phase::Ended => self.pass_over(piece),
            Phase::Refused => self.pass_over(piece),
        }
    }

    // Reads bytes of a block's head.
    fn take_head(&mut self, piece: &[u8]) -> usize
        requires state { IsState self.old }
        requires phase { self.old.phase ≡ Phase.Head }
        requires some { 0 < length piece.now }
        requires place { self.old.place + length piece.now < 2 ^ 64 }
        ensures state { IsState self.new }
        ensures some { 0 < result }
        ensures within { result ≤ length piece.now }
        ensures place { self.new.place ≡ self.old.place + result }
        ensures holds { (start : Start) (out bytes : List ℕ) → HasRead start self.old out bytes
            → HasRead start self.new out (bytes ++ take result piece.now) }
    {
        let count = piece.len().min(HEAD - self.had);
        let end = self.had + count;
        self.head[self.had..end].copy_from_slice(&piece[..count]);
        self.had = end;
        self.place += count as u64;
        if end == HEAD {
            self.begin();
            self.end_block();
        }
        count
    }

    // Passes over a piece where nothing more is read.
    fn pass_over(&mut self, piece: &[u8]) -> usize
        requires state { IsState self.old }
        requires phase { IsPast self.old.phase }
        requires place { self.old.place + length piece.now < 2 ^ 64 }
        ensures state { IsState self.new }
        ensures all { result ≡ length piece.now }
        ensures place { self.new.place ≡ self.old.place + result }
        ensures holds { (start : Start) (out bytes : List ℕ) → HasRead start self.old out bytes
            → HasRead start self.new out (bytes ++ piece.now) }
    {
        self.place += piece.len() as u64;
        piece.len()
    }

    // Reads bytes of a block's content.
    fn take_content(&mut self, piece: &[u8], out: &mut Secret) -> usize
        requires state { IsState self.old }
        requires phase { self.old.phase ≡ Phase.Content }
        requires some { 0 < length piece.now }
        requires spare { length piece.now ≤ out.old.spare }
        requires place { self.old.place + length piece.now < 2 ^ 64 }
        ensures state { IsState self.new }
        ensures some { 0 < result }
        ensures within { result ≤ length piece.now }
        ensures place { self.new.place ≡ self.old.place + result }
        ensures spare { out.old.spare ≤ out.new.spare + result }
        ensures holds { (start : Start) (bytes : List ℕ)
            → HasRead start self.old out.old.bytes bytes
            → HasRead start self.new out.new.bytes (bytes ++ take result piece.now) }
    {
        let count = piece.len().min(self.left as usize);
        let part = &piece[..count];
        out.extend(part);
        self.running.update(part);
        self.left -= count as u32;
        self.place += count as u64;
        self.end_block();
        count
    }

    // Begins the block whose head has come: its MAC is that of its size, so far.
    fn begin(&mut self)
        requires full { self.old.had ≡ 36 }
        requires head { length self.old.head ≡ 36 }
        ensures kept { self.new ≡ record self.old
            { left = self.new.left; running = self.new.running; phase = Phase.Content } }
        ensures content { (start : Start) (out bytes : List ℕ) → AtHead start self.old out bytes
            → AtContent start self.new out bytes }
    {
        let size = size_of(&self.head);
        self.running.update(&size.to_le_bytes());
        self.left = size;
        self.phase = Phase::Content;
    }

    // Where the whole content has come, goes by the MAC to the next block, to the end or to the
    // refusal.
    fn end_block(&mut self)
        requires phase { self.old.phase ≡ Phase.Content }
        requires head { length self.old.head ≡ 36 }
        requires index { self.old.index * 36 + 36 ≤ self.old.place }
        ensures state { IsState self.new }
        ensures base { self.new.base.now ≡ self.old.base.now }
        ensures place { self.new.place ≡ self.old.place }
        ensures stands { (start : Start) (out bytes : List ℕ) → self.old.base.now ≡ start.base
            → AtContent start self.old out bytes → Stands self.new.phase start self.new out bytes }
    {
        if self.left > 0 {
            return;
        }
        let next = RunningMac::new(self.base, self.index + 1);
        let found = mem::replace(&mut self.running, next).finish();
        if !is_same(&found, &self.head[..MAC]) {
            self.phase = Phase::Refused;
        } else if size_of(&self.head) == 0 {
            self.phase = Phase::Ended;
        } else {
            self.index += 1;
            self.had = 0;
            self.phase = Phase::Head;
        }
    }
}
