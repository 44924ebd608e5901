//! The filling of the memory (RFC 9106, 3.2 and 3.4).

ghost use Rattle.std.specs.Prelude.{◌≡◌, ℕ, ◌+◌, ◌-◌, ◌*◌, ◌/◌, ◌%◌, ◌^◌, ◌<◌, ◌≤◌, ◌==◌, true, List, [], length, slice_index, slice_index_or, slice_set, if◌then◌else◌};
ghost use Rattle.argon_core.specs.Compression.{compression, xor_blocks};
ghost use Rattle.argon_core.specs.Argon2.{IsWithinLimits, address_block, chooser_of, chosen_place, column_before, is_independent, lane_len, last_blocks, memory_len, mixed_from, next_from, other_column, other_lane, segment_len, window_len, window_start};
ghost use Rattle.argon_core.specs.Memory.{HoldsBlocks, place_in, seen_in, segment_time};

use crate::compression::{Block, LOW_HALF, compress, xor_into, xor_permuted};
use crate::hashes::{first_block, type_number};
use crate::memory::SingleBlock;
use crate::params::{ArgonKind, Instance, Segment};

const ADDRESSES_IN_BLOCK: usize = 128;

// What the permuted block is mixed into: the block itself, and after the first pass also what stood
// at its place.
fn mix_old(old: &mut Block, fresh: &Block, is_first: bool)
    ensures { old.new ≡ if is_first then fresh.now else xor_blocks old.old fresh.now }
{
    if is_first {
        *old = *fresh;
    } else {
        xor_into(old, fresh);
    }
}

// Fills place `at` of the memory from the blocks before it and of another lane. After the first
// pass what was there is mixed in.
//
// The two blocks that are seldom in the cache are copied first, so that the processor waits for
// them together.
fn refill(memory: &mut [Block], before: usize, other: usize, at: usize, is_first: bool)
    requires few { length memory.old ≤ 1048576 }
    requires before { before < length memory.old }
    requires other { other < length memory.old }
    requires at { at < length memory.old }
    ensures { memory.new ≡ slice_set memory.old at
        (let fresh = compression (slice_index_or memory.old before [])
        (slice_index_or memory.old other []) in
        if is_first then fresh else xor_blocks fresh (slice_index_or memory.old at [])) }
{
    let mut fresh = memory[other];
    let mut mixed = memory[at];
    xor_into(&mut fresh, &memory[before]);
    mix_old(&mut mixed, &fresh, is_first);
    xor_permuted(&mut mixed, &mut fresh);
    memory[at] = mixed;
}

// The place in a window of blocks that a half of the choosing value chooses: the later, the
// likelier.
fn chosen_place(window: usize, half: u64) -> usize
    requires some { 0 < window }
    requires few { window ≤ 1048576 }
    requires half { half < 2 ^ 32 }
    ensures chosen { result ≡ chosen_place window half }
    ensures within { result < window }
{
    let x = (half * half) >> 32;
    window - 1 - ((window as u64 * x) >> 32) as usize
}

impl Instance {
    // How many columns a slice has.
    fn segment_len(&self) -> usize
        requires { IsWithinLimits self.now.params }
        ensures { result ≡ segment_len self.now.params }
    {
        (self.params.kib / (4 * self.params.lanes)) as usize
    }

    // How many columns a lane has.
    fn lane_len(&self) -> usize
        requires { IsWithinLimits self.now.params }
        ensures len { result ≡ lane_len self.now.params }
        ensures few { result ≤ 1048576 }
    {
        4 * self.segment_len()
    }

    // How many blocks the memory has.
    pub(crate) fn memory_len(&self) -> usize
        requires { IsWithinLimits self.now.params }
        ensures len { result ≡ memory_len self.now.params }
        ensures few { result ≤ 1048576 }
    {
        self.params.lanes as usize * self.lane_len()
    }

    // Where the block of a lane and a column is in the memory.
    fn place_of(&self, lane: usize, column: usize) -> usize
        requires limits { IsWithinLimits self.now.params }
        requires lane { lane < self.now.params.lanes }
        requires column { column < lane_len self.now.params }
        ensures place { result ≡ place_in self.now.params lane column }
        ensures within { result < memory_len self.now.params }
    {
        lane * self.lane_len() + column
    }

    // Whether counters choose the other blocks of a segment.
    fn is_independent(&self, at: Segment) -> bool
        ensures { result ≡ is_independent self.now.kind at.pass at.slice }
    {
        match self.kind {
            ArgonKind::D => false,
            ArgonKind::Id => at.pass == 0 && at.slice < 2,
        }
    }

    // The values that choose the other blocks of 128 places of a segment.
    fn address_block(&self, at: Segment, counter: usize) -> Block
        requires { IsWithinLimits self.now.params }
        ensures { result ≡ address_block self.now at.pass at.lane at.slice counter }
    {
        let mut input = [0; 128];
        input[0] = at.pass as u64;
        input[1] = at.lane as u64;
        input[2] = at.slice as u64;
        input[3] = self.memory_len() as u64;
        input[4] = self.params.passes as u64;
        input[5] = type_number(self.kind) as u64;
        input[6] = counter as u64;
        let zeros = [0; 128];
        compress(&zeros, &compress(&zeros, &input))
    }

    // The lane of the other block.
    fn other_lane(&self, at: Segment, chooser: u64) -> usize
        requires { at.lane < self.now.params.lanes }
        ensures lane { result ≡ other_lane self.now.params at.pass at.slice at.lane chooser }
        ensures within { result < self.now.params.lanes }
    {
        if at.pass == 0 && at.slice == 0 {
            at.lane
        } else {
            (chooser >> 32) as usize % self.params.lanes as usize
        }
    }

    // How many columns of a lane are whole while a segment is filled.
    fn finished_len(&self, at: Segment) -> usize
        requires limits { IsWithinLimits self.now.params }
        requires slice { at.slice < 4 }
        ensures len { result
            ≡ (if at.pass == 0 then at.slice else 3) * segment_len self.now.params }
        ensures some { (at.pass ≡ 0 → 0 < at.slice) → 2 ≤ result }
        ensures few { result + segment_len self.now.params ≤ 1048576 }
    {
        let slices = if at.pass == 0 { at.slice } else { 3 };
        slices * self.segment_len()
    }

    // How many blocks there are to choose from.
    fn window_len(&self, at: Segment, place: usize, is_own: bool) -> usize
        requires limits { IsWithinLimits self.now.params }
        requires slice { at.slice < 4 }
        requires place { place < segment_len self.now.params }
        requires later { at.pass ≡ 0 → at.slice ≡ 0 → (2 ≤ place) × (is_own ≡ true) }
        ensures len { result ≡ window_len self.now.params at.pass at.slice place is_own }
        ensures some { 0 < result }
        ensures few { result ≤ 1048576 }
    {
        let finished = self.finished_len(at);
        if is_own {
            finished + place - 1
        } else if place == 0 {
            finished - 1
        } else {
            finished
        }
    }

    // The column where they begin.
    fn window_start(&self, at: Segment) -> usize
        requires limits { IsWithinLimits self.now.params }
        requires slice { at.slice < 4 }
        ensures start { result ≡ window_start self.now.params at.pass at.slice }
        ensures few { result ≤ 1048576 }
    {
        if at.pass == 0 {
            0
        } else {
            (at.slice + 1) % 4 * self.segment_len()
        }
    }

    // The column of the other block.
    fn other_column(&self, at: Segment, place: usize, is_own: bool, chooser: u64) -> usize
        requires limits { IsWithinLimits self.now.params }
        requires slice { at.slice < 4 }
        requires place { place < segment_len self.now.params }
        requires later { at.pass ≡ 0 → at.slice ≡ 0 → (2 ≤ place) × (is_own ≡ true) }
        ensures column { result
            ≡ other_column self.now.params at.pass at.slice place is_own chooser }
        ensures within { result < lane_len self.now.params }
    {
        let window = self.window_len(at, place, is_own);
        let chosen = chosen_place(window, chooser & LOW_HALF);
        (self.window_start(at) + chosen) % self.lane_len()
    }

    // Where the other block of a place is in the memory, by the value that chooses it.
    fn other_place(&self, at: Segment, place: usize, chooser: u64) -> usize
        requires limits { IsWithinLimits self.now.params }
        requires slice { at.slice < 4 }
        requires lane { at.lane < self.now.params.lanes }
        requires place { place < segment_len self.now.params }
        requires later { at.pass ≡ 0 → at.slice ≡ 0 → 2 ≤ place }
        ensures other { let p = self.now.params in
            let l = other_lane p at.pass at.slice at.lane chooser in
            result ≡ place_in p l (other_column p at.pass at.slice place (l == at.lane) chooser) }
        ensures within { result < memory_len self.now.params }
    {
        let lane = self.other_lane(at, chooser);
        let column = self.other_column(at, place, lane == at.lane, chooser);
        self.place_of(lane, column)
    }

    // The column before one, round the end of the lane.
    fn column_before(&self, column: usize) -> usize
        requires limits { IsWithinLimits self.now.params }
        requires column { column < lane_len self.now.params }
        ensures before { result ≡ column_before self.now.params column }
        ensures within { result < lane_len self.now.params }
    {
        if column == 0 {
            self.lane_len() - 1
        } else {
            column - 1
        }
    }

    // The value that chooses the other block of a place, where the values that counters give are
    // known if they are used.
    fn chooser(&self, before: &Block, addresses: &Block, at: Segment, place: usize) -> u64
        requires { is_independent self.now.kind at.pass at.slice ≡ true
            → addresses.now ≡ address_block self.now at.pass at.lane at.slice (place / 128 + 1) }
        ensures { result ≡ chooser_of self.now before.now at.pass at.slice at.lane place }
    {
        if self.is_independent(at) {
            addresses[place % ADDRESSES_IN_BLOCK]
        } else {
            before[0]
        }
    }

    // Fills a place of a segment by mixing the block before it and another.
    fn mix_place(&self, memory: &mut [Block], addresses: &Block, at: Segment, place: usize)
        requires limits { IsWithinLimits self.now.params }
        requires len { length memory.old ≡ memory_len self.now.params }
        requires slice { at.slice < 4 }
        requires lane { at.lane < self.now.params.lanes }
        requires place { place < segment_len self.now.params }
        requires later { at.pass ≡ 0 → 2 ≤ at.slice * segment_len self.now.params + place }
        requires addresses { is_independent self.now.kind at.pass at.slice ≡ true
            → addresses.now ≡ address_block self.now at.pass at.lane at.slice (place / 128 + 1) }
        ensures { let p = self.now.params in
            memory.new ≡ slice_set memory.old
            (place_in p at.lane (at.slice * segment_len p + place))
            (mixed_from self.now (seen_in p memory.old) at.pass at.slice at.lane place) }
    {
        let column = at.slice * self.segment_len() + place;
        let here = self.place_of(at.lane, column);
        let before = self.place_of(at.lane, self.column_before(column));
        let chooser = self.chooser(&memory[before], addresses, at, place);
        let other = self.other_place(at, place, chooser);
        refill(memory, before, other, here, at.pass == 0);
    }

    // Fills a place of a segment.
    fn fill_place(&self, memory: &mut [Block], addresses: &Block, at: Segment, place: usize)
        requires limits { IsWithinLimits self.now.params }
        requires len { length memory.old ≡ memory_len self.now.params }
        requires slice { at.slice < 4 }
        requires lane { at.lane < self.now.params.lanes }
        requires place { place < segment_len self.now.params }
        requires addresses { is_independent self.now.kind at.pass at.slice ≡ true
            → addresses.now ≡ address_block self.now at.pass at.lane at.slice (place / 128 + 1) }
        ensures { let p = self.now.params in
            memory.new ≡ slice_set memory.old
            (place_in p at.lane (at.slice * segment_len p + place))
            (next_from self.now (seen_in p memory.old) at.pass at.slice at.lane place) }
    {
        let column = at.slice * self.segment_len() + place;
        if at.pass == 0 && column < 2 {
            let here = self.place_of(at.lane, column);
            memory[here] = first_block(self, at.lane as u32, column as u32);
        } else {
            self.mix_place(memory, addresses, at, place);
        }
    }

    // Fills a segment.
    fn fill_segment(&self, memory: &mut [Block], at: Segment)
        requires limits { IsWithinLimits self.now.params }
        requires len { length memory.old ≡ memory_len self.now.params }
        requires slice { at.slice < 4 }
        requires lane { at.lane < self.now.params.lanes }
        ensures { let p = self.now.params in
            let before = segment_time p at.pass at.slice at.lane in
            HoldsBlocks self.now memory.old before
            → HoldsBlocks self.now memory.new (before + segment_len p) }
    {
        let is_independent = self.is_independent(at);
        let mut addresses = [0; 128];
        'places: for place in 0..self.segment_len() {
            if is_independent && place % ADDRESSES_IN_BLOCK == 0 {
                addresses = self.address_block(at, place / ADDRESSES_IN_BLOCK + 1);
            }
            self.fill_place(memory, &addresses, at, place);
        }
    }

    /// Fills the memory in all passes.
    pub(crate) fn fill(&self, memory: &mut [Block])
        requires limits { IsWithinLimits self.now.params }
        requires len { length memory.old ≡ memory_len self.now.params }
        ensures { let p = self.now.params in
            HoldsBlocks self.now memory.new (p.passes * memory_len p) }
    {
        'passes: for pass in 0..self.params.passes as usize {
            'slices: for slice in 0..4usize {
                'lanes: for lane in 0..self.params.lanes as usize {
                    self.fill_segment(memory, Segment { pass, slice, lane });
                }
            }
        }
    }

    /// The exclusive or of the last blocks of all lanes.
    pub(crate) fn last_block(&self, memory: &[Block]) -> SingleBlock
        requires limits { IsWithinLimits self.now.params }
        requires filled { HoldsBlocks self.now memory.now
            (self.now.params.passes * memory_len self.now.params) }
        ensures { result.words ≡ last_blocks self.now self.now.params.lanes }
    {
        let mut last = SingleBlock::zeros();
        'lanes: for lane in 0..self.params.lanes as usize {
            let end = self.place_of(lane, self.lane_len() - 1);
            xor_into(&mut last.words, &memory[end]);
        }
        last
    }
}
