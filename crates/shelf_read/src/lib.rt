// A capture is read from a shelf file in lent memory into a new store. 02: CR 7.
#![tactic(auto)]

ghost use Rattle.std.specs.Prelude.{◌≡◌, true, ◌*◌, ◌≤◌, length, take};
ghost use Rattle.std.proofs.Math.Seq.{paste};
ghost use Rattle.rules.specs.Answer.{unless};
ghost use Rattle.rules.specs.Refusal.{most_samples};
ghost use Rattle.rules.specs.Shelf.{blocks_for, heading_in, payloads, head_test, good_blocks, file_test};
ghost use Rattle.rules.specs.ShelfCalls.{capacity_wrong, store_in};
ghost use Rattle.answer.specs.Answered.{answer_of};
ghost use Rattle.store.specs.Stored.{Stored};
ghost use Rattle.node.specs.Memory.{level_of};
ghost use Rattle.capture.specs.Record.{store_of, lent_in};
ghost use Rattle.shelf_head.specs.Head.{heading_as, BlocksRoom};
ghost use Rattle.shelf_read.specs.Read.{room_refusal, TakeRoom, bytes_behind, Reads};

use answer::Refusal;
use capture::Capture;
use lines::Mask;
use memory::lent;
use node::Memory;
use number::MOST_SAMPLES;
use shelf_block::{BLOCK, PAYLOAD, PAYLOAD_AT, good};
use shelf_head::{Heading, blocks_for, file_size, head_good, heading_in};
use store::{copy_at, rebuild_levels};

// Whether these are the good blocks of n bytes, from number 1 on.
fn blocks_good(blocks: &[u8], n: usize) -> bool
    requires { BlocksRoom (length blocks.now) n }
    ensures { result ≡ good_blocks (blocks_for n) 1 n blocks.now }
{
    for i in 0..blocks_for(n) {
        let at = i * BLOCK;
        let count = PAYLOAD.min(n - i * PAYLOAD);
        if !good(&blocks[at..at + BLOCK], i + 1, count) {
            return false;
        }
    }
    true
}

// Whether some capture has the file.
#[tactic(auto, using(shelf_head::proofs::Head::head_room), unfolding(rules::specs::Shelf::file_test))]
fn file_good(file: &[u8]) -> bool
    ensures { result ≡ file_test file.now }
{
    if !head_good(file) {
        return false;
    }
    let h = heading_in(file);
    let n = h.len * h.unitsize;
    file.len() == file_size(n) && blocks_good(&file[BLOCK..], n)
}

// n bytes of samples go from the blocks to the start of sample memory.
pub fn gather(samples: &mut [u8], blocks: &[u8], n: usize)
    requires { BlocksRoom (length blocks.now) n × (n ≤ length samples.old) }
    ensures { samples.new ≡ paste samples.old 0 (take n (payloads (blocks_for n) blocks.now)) n }
{
    for i in 0..blocks_for(n) {
        let to = i * PAYLOAD;
        let from = i * BLOCK + PAYLOAD_AT;
        let end = from + PAYLOAD.min(n - to);
        copy_at(samples, to, &blocks[from..end]);
    }
}

// No store has this capacity.
pub fn capacity_wrong(capacity: usize) -> bool
    ensures { result ≡ capacity_wrong capacity }
{
    capacity == 0 || MOST_SAMPLES < capacity
}

// The record of a new store with what a file says.
pub fn new_store(h: Heading, capacity: usize) -> Capture
    ensures { store_of result ≡ store_in capacity (heading_as h) }
{
    Capture {
        unitsize: h.unitsize,
        capacity,
        len: h.len,
        trigger: h.trigger,
    }
}

// The same for what block 0 of a file says, or 15 where no store of this capacity and memory holds that.
#[tactic(auto, using(shelf_head::proofs::Head::head_room, rules::proofs::ShelfHead::heading_headed))]
pub fn store_for(capacity: usize, file: &[u8], memory: &Memory<'_>) -> Result<Capture, Refusal>
    requires { (capacity ≤ most_samples) × (head_test file.now ≡ true) }
    ensures { answer_of store_of result ≡ unless (room_refusal capacity (lent_in memory.now) (heading_in file.now)) (store_in capacity (heading_in file.now)) }
{
    let h = heading_in(file);
    let c = new_store(h, capacity);
    if capacity < h.len || c.is_short(memory) {
        return Err(Refusal::Room);
    }
    Ok(c)
}

// The samples of a good file go to the start of a new store's memory, and its levels are built.
// Slices that are written to come one by one, as in `store`.
fn take_samples(
    c: Capture,
    file: &[u8],
    samples: &mut [u8],
    l1: &mut [Mask],
    l2: &mut [Mask],
    l3: &mut [Mask],
    l4: &mut [Mask],
)
    requires { TakeRoom (store_of c) (length file.now) (length samples.old) (level_of l1.old l2.old l3.old l4.old) }
    ensures { Stored c.unitsize 0 c.len (bytes_behind (c.len * c.unitsize) file.now) samples.old (level_of l1.old l2.old l3.old l4.old) samples.new (level_of l1.new l2.new l3.new l4.new) }
{
    gather(samples, &file[BLOCK..], c.len * c.unitsize);
    rebuild_levels(&samples[..], l1, l2, l3, l4, c.unitsize, 0, c.len);
}

// A capture from its file, into a new store of a capacity: its record, or 1, 16 or 15 and nothing written. The levels are built afresh.
// What the contract means is in `claim_shelf`: what was read has right levels, and writing it gives the file back.
pub fn read(
    capacity: usize,
    file: &[u8],
    samples: &mut [u8],
    l1: &mut [Mask],
    l2: &mut [Mask],
    l3: &mut [Mask],
    l4: &mut [Mask],
) -> Result<Capture, Refusal>
    ensures { Reads capacity file.now samples.old (level_of l1.old l2.old l3.old l4.old) result samples.new (level_of l1.new l2.new l3.new l4.new) }
{
    if capacity_wrong(capacity) {
        return Err(Refusal::Record);
    }
    if !file_good(file) {
        return Err(Refusal::File);
    }
    let memory = lent(&samples[..], &l1[..], &l2[..], &l3[..], &l4[..]);
    let c = store_for(capacity, file, &memory)?;
    take_samples(c, file, samples, l1, l2, l3, l4);
    Ok(c)
}
