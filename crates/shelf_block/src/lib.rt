// A block of a shelf file, made and tested: its fields, and its check. 02: CR 7.
#![tactic(auto)]

ghost use Rattle.std.specs.Prelude.{◌≡◌, Bool, ◌&&◌, ◌++◌, ◌+◌, ◌-◌, ◌*◌, ◌≤◌, ◌<◌, length, take, drop};
ghost use Rattle.rules.specs.SampleBytes.{sample_bytes};
ghost use Rattle.rules.specs.Block.{block_size, payload_at, payload_most, zeros, weigh, check_of, block_of, same_bytes, field, good_block};

pub const BLOCK: usize = 512;

pub const PAYLOAD_AT: usize = 12;

pub const PAYLOAD: usize = 500;

// What the sum of a block's bytes is taken by.
const MODULUS: u32 = 65521;

// The number becomes the part's bytes, low byte first.
fn put_number(part: &mut [u8], value: usize)
    ensures { part.new ≡ sample_bytes (length part.old) value }
{
    let mut left = value;
    for byte in part.iter_mut() {
        *byte = (left % 256) as u8;
        left /= 256;
    }
}

// Whether the part's bytes are the number's.
fn is_number(part: &[u8], value: usize) -> bool
    ensures { result ≡ same_bytes part.now (sample_bytes (length part.now) value) }
{
    let mut left = value;
    for byte in part {
        if *byte != (left % 256) as u8 {
            return false;
        }
        left /= 256;
    }
    true
}

// What two bytes weigh that stand 256 places apart. A place below 256 times a byte has 16 bits, and short products are what vectors are quick at.
#[tactic(auto, using(crate::proofs::Weighed::short_product))]
fn pair(place: usize, low: u8, high: u8) -> u32
    requires { place < 256 }
    ensures { (result ≡ place * low + (256 + place) * high) × (result ≤ 195330) }
{
    let p = place as u16;
    u32::from(p * u16::from(low)) + u32::from(p * u16::from(high)) + 256 * u32::from(high)
}

// The sum of place × byte over a whole block.
fn weigh_block(block: &[u8]) -> u32
    requires { length block.now ≡ block_size }
    ensures { result ≡ weigh 0 block.now }
{
    let mut sum = 0;
    for i in 0..256 {
        sum += pair(i, block[i], block[256 + i]);
    }
    sum
}

// The check that a block ought to have. Place 0 weighs nothing, and place 1 is taken off again.
#[tactic(auto, using(crate::proofs::Weighed::weigh_two))]
fn check(block: &[u8]) -> usize
    requires { length block.now ≡ block_size }
    ensures { result ≡ check_of (drop 2 block.now) }
{
    let sum = weigh_block(block) - u32::from(block[1]);
    (sum % MODULUS) as usize
}

// Whether the bytes from one place up to another are the number's.
pub fn is_at(block: &[u8], from: usize, to: usize, value: usize) -> bool
    requires { (from ≤ to) × (to ≤ length block.now) }
    ensures { result ≡ same_bytes (field from to block.now) (sample_bytes (to - from) value) }
{
    is_number(&block[from..to], value)
}

// Count and number.
fn is_headed(block: &[u8], number: usize, count: usize) -> bool
    requires { length block.now ≡ block_size }
    ensures { result ≡ (same_bytes (field 2 4 block.now) (sample_bytes 2 count) && same_bytes (field 4 8 block.now) (sample_bytes 4 number)) }
{
    is_at(block, 2, 4, count) && is_at(block, 4, 8, number)
}

// The fixed zeros, and those behind the payload.
#[tactic(auto, using(rules::proofs::Block::zeros_are, crate::proofs::Made::padding))]
fn is_filled(block: &[u8], count: usize) -> bool
    requires { (length block.now ≡ block_size) × (count ≤ payload_most) }
    ensures { result ≡ (same_bytes (field 8 payload_at block.now) (zeros 4) && same_bytes (field (payload_at + count) block_size block.now) (zeros (payload_most - count))) }
{
    is_at(block, 8, PAYLOAD_AT, 0) && is_at(block, PAYLOAD_AT + count, BLOCK, 0)
}

// Whether 512 bytes are a good block with this number and so many bytes of payload.
#[tactic(auto, using(crate::proofs::Made::grouped))]
pub fn good(block: &[u8], number: usize, count: usize) -> bool
    requires { (length block.now ≡ block_size) × (count ≤ payload_most) }
    ensures { result ≡ good_block number count block.now }
{
    is_headed(block, number, count) && is_filled(block, count) && is_at(block, 0, 2, check(block))
}

// The number goes to the bytes from one place up to another.
pub fn put_at(block: &mut [u8], from: usize, to: usize, value: usize)
    requires { (from ≤ to) × (to ≤ length block.old) }
    ensures { block.new ≡ take from block.old ++ (sample_bytes (to - from) value ++ drop to block.old) }
{
    put_number(&mut block[from..to], value);
}

// Count, number and the fixed zeros.
fn put_fields(block: &mut [u8], number: usize, count: usize)
    requires { length block.old ≡ block_size }
    ensures { block.new ≡ take 2 block.old ++ (sample_bytes 2 count ++ (sample_bytes 4 number ++ (zeros 4 ++ drop payload_at block.old))) }
{
    put_at(block, 2, 4, count);
    put_at(block, 4, 8, number);
    put_at(block, 8, PAYLOAD_AT, 0);
}

// The payload, and the zeros behind it.
fn put_payload(block: &mut [u8], payload: &[u8])
    requires { (length block.old ≡ block_size) × (length payload.now ≤ payload_most) }
    ensures { block.new ≡ take payload_at block.old ++ (payload.now ++ zeros (payload_most - length payload.now)) }
{
    let end = PAYLOAD_AT + payload.len();
    block[PAYLOAD_AT..end].copy_from_slice(payload);
    block[end..].fill(0);
}

// The check, of what stands behind it.
fn seal(block: &mut [u8])
    requires { length block.old ≡ block_size }
    ensures { block.new ≡ sample_bytes 2 (check_of (drop 2 block.old)) ++ drop 2 block.old }
{
    let sum = check(block);
    put_at(block, 0, 2, sum);
}

// 512 bytes become the block of a payload.
pub fn put_block(block: &mut [u8], number: usize, payload: &[u8])
    requires { (length block.old ≡ block_size) × (length payload.now ≤ payload_most) }
    ensures { block.new ≡ block_of number payload.now }
{
    put_fields(block, number, payload.len());
    put_payload(block, payload);
    seal(block);
}
