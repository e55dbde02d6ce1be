// Block 0 of a shelf file: what it says of a capture, written and read, and how long the file is. 02: CR 7.
#![tactic(auto)]

ghost use Rattle.std.specs.Prelude.{◌≡◌, Bool, ◌∷◌, ◌++◌, ◌+◌, ◌*◌, ◌^◌, ◌≤◌, ◌<◌, length};
ghost use Rattle.rules.specs.Sample.{little};
ghost use Rattle.rules.specs.SampleBytes.{sample_bytes};
ghost use Rattle.rules.specs.Block.{block_size, block_of};
ghost use Rattle.rules.specs.Shelf.{heading_of, head_size, head_bytes, blocks_for, heading_in, heading_wrong, mark_bytes_right, head_test};
ghost use Rattle.rules.specs.ShelfCalls.{length_answer, says_answer};
ghost use Rattle.capture.specs.Record.{store_of};
ghost use Rattle.shelf_head.specs.Head.{heading_as, length_of, said_of};

use answer::Refusal;
use capture::{Capture, mark_in, mark_wrong, unit_wrong};
use number::MOST_SAMPLES;
use shelf_block::{BLOCK, PAYLOAD, good, is_at, put_at, put_block};

// How many bytes block 0 holds.
const HEAD: usize = 18;

// What block 0 says of a capture.
#[derive(Clone, Copy)]
pub struct Heading {
    pub unitsize: usize,
    pub len: usize,
    pub trigger: Option<usize>,
}

// What a record says of it.
pub fn heading_of(c: Capture) -> Heading
    ensures { heading_as result ≡ heading_of (store_of c) }
{
    Heading {
        unitsize: c.unitsize,
        len: c.len,
        trigger: c.trigger,
    }
}

// How many blocks hold n bytes of samples.
pub fn blocks_for(n: usize) -> usize
    requires { n < 2 ^ 32 }
    ensures { result ≡ blocks_for n }
{
    n.div_ceil(PAYLOAD)
}

// How long the file of so many bytes of samples is.
pub fn file_size(n: usize) -> usize
    requires { n < 2 ^ 32 }
    ensures { result ≡ block_size * (1 + blocks_for n) }
{
    BLOCK * (1 + blocks_for(n))
}

// How long a capture's file is, or 1.
pub fn file_len(c: Capture) -> Result<usize, Refusal>
    ensures { length_of result ≡ length_answer (store_of c) }
{
    if c.is_wrong() {
        return Err(Refusal::Record);
    }
    Ok(file_size(c.len * c.unitsize))
}

// The bytes that block 0 holds.
fn put_numbers(head: &mut [u8], unit: u8, flag: u8, len: usize, place: usize)
    requires { length head.old ≡ head_size }
    ensures { head.new ≡ unit ∷ flag ∷ (sample_bytes 8 len ++ sample_bytes 8 place) }
{
    head[0] = unit;
    head[1] = flag;
    put_at(head, 2, 10, len);
    put_at(head, 10, 18, place);
}

// 512 bytes become block 0.
#[tactic(auto, unfolding(rules::specs::Shelf::head_bytes))]
pub fn put_head(block: &mut [u8], h: Heading)
    requires { (length block.old ≡ block_size) × (h.unitsize < 256) }
    ensures { block.new ≡ block_of 0 (head_bytes (heading_as h)) }
{
    let mark = h.trigger;
    let mut head = [0; HEAD];
    put_numbers(
        &mut head,
        h.unitsize as u8,
        u8::from(mark.is_some()),
        h.len,
        mark.unwrap_or(0),
    );
    put_block(block, 0, &head);
}

// The number in eight bytes.
fn number_in(part: &[u8]) -> usize
    requires { length part.now ≡ 8 }
    ensures { result ≡ little 8 part.now 0 }
{
    usize::from_le_bytes(part.try_into().unwrap())
}

// What block 0 says, whatever it holds.
pub fn heading_in(file: &[u8]) -> Heading
    requires { block_size ≤ length file.now }
    ensures { heading_as result ≡ heading_in file.now }
{
    Heading {
        unitsize: usize::from(file[12]),
        len: number_in(&file[14..22]),
        trigger: mark_in(usize::from(file[13]), number_in(&file[22..30])),
    }
}

// No store has these numbers.
fn heading_wrong(h: Heading) -> bool
    ensures { result ≡ heading_wrong (heading_as h) }
{
    unit_wrong(h.unitsize) || MOST_SAMPLES < h.len || mark_wrong(h.trigger, h.len)
}

// The flag is 0 and the mark's bytes are, or it is 1.
#[tactic(auto, using(rules::proofs::Block::zeros_are))]
fn mark_right(file: &[u8]) -> bool
    requires { block_size ≤ length file.now }
    ensures { result ≡ mark_bytes_right file.now }
{
    match file[13] {
        0 => is_at(file, 22, 30, 0),
        flag => flag == 1,
    }
}

// Whether the first 512 bytes are block 0 of some capture's file.
#[tactic(auto, unfolding(rules::specs::Shelf::head_test))]
pub fn head_good(file: &[u8]) -> bool
    ensures { result ≡ head_test file.now }
{
    BLOCK <= file.len()
        && good(&file[..BLOCK], 0, HEAD)
        && mark_right(file)
        && !heading_wrong(heading_in(file))
}

// What block 0 of a file says, or 16 where no capture's file begins with these 512 bytes.
#[tactic(auto, using(crate::proofs::Head::head_room))]
pub fn file_says(file: &[u8]) -> Result<Heading, Refusal>
    ensures { said_of result ≡ says_answer file.now }
{
    if !head_good(file) {
        return Err(Refusal::File);
    }
    Ok(heading_in(file))
}
