// A capture is written as a shelf file into lent memory. 02: CR 7.
#![tactic(auto)]

ghost use Rattle.std.specs.Prelude.{◌≡◌, length};
ghost use Rattle.rules.specs.Shelf.{blocks_for, blocks_of, file_of};
ghost use Rattle.node.specs.Lent.{levels_of};
ghost use Rattle.capture.specs.Record.{store_of};
ghost use Rattle.shelf_head.specs.Head.{BlocksRoom};
ghost use Rattle.shelf_write.specs.Write.{FileRoom, filed_as, Writes};

use answer::Refusal;
use capture::Capture;
use node::Memory;
use shelf_block::{BLOCK, PAYLOAD, put_block};
use shelf_head::{Heading, blocks_for, file_size, heading_of, put_head};

// The blocks of sample bytes, from number 1 on.
fn put_blocks(blocks: &mut [u8], bytes: &[u8])
    requires { BlocksRoom (length blocks.old) (length bytes.now) }
    ensures { blocks.new ≡ blocks_of (blocks_for (length bytes.now)) 1 bytes.now }
{
    let n = bytes.len();
    for i in 0..blocks_for(n) {
        let from = i * PAYLOAD;
        let end = (from + PAYLOAD).min(n);
        let to = i * BLOCK;
        put_block(&mut blocks[to..to + BLOCK], i + 1, &bytes[from..end]);
    }
}

// The whole file.
#[tactic(auto, unfolding(rules::specs::Shelf::file_of))]
fn put_file(file: &mut [u8], h: Heading, bytes: &[u8])
    requires { FileRoom h (length file.old) (length bytes.now) }
    ensures { file.new ≡ file_of (filed_as h bytes.now) }
{
    let (head, blocks) = file.split_at_mut(BLOCK);
    put_head(head, h);
    put_blocks(blocks, bytes);
}

// The file of a capture goes to the start of output: its length, or 1, 2 or 15 and nothing written.
// What the contract means is in `claim_shelf`: reading what was written gives the capture back.
pub fn write(c: Capture, memory: Memory<'_>, output: &mut [u8]) -> Result<usize, Refusal>
    ensures { Writes (store_of c) memory.entry.samples.now (levels_of memory.entry.levels) output.old result output.new }
{
    c.check(&memory)?;
    let n = c.len * c.unitsize;
    let size = file_size(n);
    if output.len() < size {
        return Err(Refusal::Room);
    }
    put_file(&mut output[..size], heading_of(c), &memory.samples[..n]);
    Ok(size)
}
