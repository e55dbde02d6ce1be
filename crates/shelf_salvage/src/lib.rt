// A capture is salvaged from a file with bad blocks, into a new store: what is known of it, zero for the rest, and the stretches
// that stay unknown. 02: CR 8.
#![tactic(auto)]

ghost use Rattle.std.specs.Prelude.{◌≡◌, ◌*◌, ◌^◌, ◌≤◌, ◌<◌, length};
ghost use Rattle.std.proofs.Math.Seq.{paste};
ghost use Rattle.rules.specs.Block.{block_size};
ghost use Rattle.rules.specs.Stretches.{pairs_of, pairs_in};
ghost use Rattle.rules.specs.Salvage.{stretches_of, salvaged_bytes};
ghost use Rattle.store.specs.Room.{StoreRoom};
ghost use Rattle.store.specs.Stored.{Stored};
ghost use Rattle.node.specs.Memory.{level_of};
ghost use Rattle.capture.specs.Record.{store_of};
ghost use Rattle.shelf_salvage.specs.Salvage.{Gathers, blanked, BlankRoom, Opened, Salvages};

use answer::Refusal;
use capture::Capture;
use lines::Mask;
use memory::lent;
use shelf_block::{BLOCK, PAYLOAD};
use shelf_head::{blocks_for, head_good};
use shelf_read::{capacity_wrong, gather, store_for};
use shelf_stretches::find;
use store::rebuild_levels;

// The samples of the blocks that are wholly there go to the start of sample memory; there are n bytes of samples.
fn gather_there(samples: &mut [u8], file: &[u8], n: usize)
    requires { (block_size ≤ length file.now) × (n < 2 ^ 32) × (n ≤ length samples.old) }
    ensures { Gathers n file.now samples.old samples.new }
{
    let there = n.min((file.len() - BLOCK) / BLOCK * PAYLOAD);
    let end = BLOCK + BLOCK * blocks_for(there);
    gather(samples, &file[BLOCK..end], there);
}

// Zero over the samples of a list's stretches.
fn blank(samples: &mut [u8], list: &[usize], unit: usize)
    requires { BlankRoom unit list.now (length samples.old) }
    ensures { samples.new ≡ blanked unit (pairs_in list.now) samples.old }
{
    for i in 0..list.len() / 2 {
        let from = list[2 * i] * unit;
        let to = from + list[2 * i + 1] * unit;
        samples[from..to].fill(0);
    }
}

// What is known of a file goes to the start of sample memory, zero where it is not: the list has the file's stretches.
fn fill_samples(c: Capture, file: &[u8], list: &[usize], samples: &mut [u8])
    requires { Opened file.now (store_of c) (length samples.old) × (list.now ≡ pairs_of (stretches_of file.now)) }
    ensures { samples.new ≡ paste samples.old 0 (salvaged_bytes file.now) (c.len * c.unitsize) }
{
    gather_there(samples, file, c.len * c.unitsize);
    blank(samples, list, c.unitsize);
}

// And the levels are built. Slices that are written to come one by one, as in `store`.
fn fill_store(
    c: Capture,
    file: &[u8],
    list: &[usize],
    samples: &mut [u8],
    l1: &mut [Mask],
    l2: &mut [Mask],
    l3: &mut [Mask],
    l4: &mut [Mask],
)
    requires { Opened file.now (store_of c) (length samples.old) × (list.now ≡ pairs_of (stretches_of file.now)) × StoreRoom c.unitsize 0 c.len (length samples.old) (level_of l1.old l2.old l3.old l4.old) }
    ensures { Stored c.unitsize 0 c.len (salvaged_bytes file.now) samples.old (level_of l1.old l2.old l3.old l4.old) samples.new (level_of l1.new l2.new l3.new l4.new) }
{
    fill_samples(c, file, list, samples);
    rebuild_levels(&samples[..], l1, l2, l3, l4, c.unitsize, 0, c.len);
}

#[derive(Clone, Copy)]
pub struct Salvaged {
    pub store: Capture,
    pub stretches: usize,
    pub replaced: usize,
}

// A capture from a file with bad blocks, into a new store of a capacity: its record, how many stretches are unknown, told in the list,
// and how many samples; or 1, 17 or 15 and nothing written. What the contract means is in `claim_salvage`.
pub fn salvage(
    capacity: usize,
    file: &[u8],
    samples: &mut [u8],
    l1: &mut [Mask],
    l2: &mut [Mask],
    l3: &mut [Mask],
    l4: &mut [Mask],
    stretches: &mut [usize],
) -> Result<Salvaged, Refusal>
    ensures { Salvages capacity file.now samples.old (level_of l1.old l2.old l3.old l4.old) stretches.old result samples.new (level_of l1.new l2.new l3.new l4.new) stretches.new }
{
    if capacity_wrong(capacity) {
        return Err(Refusal::Record);
    }
    if !head_good(file) {
        return Err(Refusal::Head);
    }
    let memory = lent(&samples[..], &l1[..], &l2[..], &l3[..], &l4[..]);
    let c = store_for(capacity, file, &memory)?;
    let Some(found) = find(stretches, file) else {
        return Err(Refusal::Room);
    };
    let list = &stretches[..2 * found.stretches];
    fill_store(c, file, list, samples, l1, l2, l3, l4);
    Ok(Salvaged {
        store: c,
        stretches: found.stretches,
        replaced: found.replaced,
    })
}
