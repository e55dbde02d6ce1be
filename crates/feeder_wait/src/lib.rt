// A short push of a recorder that waits and does not fire, over its numbers: with a record made and taken apart it would take longer.
#![tactic(auto)]

ghost use Rattle.std.specs.Prelude.{◌≡◌, true, [], ◌∷◌, ◌+◌, ◌≤◌, ltb, length};
ghost use Rattle.std.proofs.lemmas.List.Edits.{sets};
ghost use Rattle.std.proofs.Math.Seq.{paste};
ghost use Rattle.rules.specs.Sample.{UnitSize};
ghost use Rattle.node.specs.Memory.{level_of};
ghost use Rattle.capture.specs.Record.{lent_of, lent_in};
ghost use Rattle.feeder_wait.specs.Wait.{Waiting, fire_of, Count, CopyRoom, FewRoom, FewAfter, ShortAfter};

use capture::{Capture, record, unit_wrong};
use feeder_numbers::{masks_in, previous_in, recorder};
use feeder_scan::samples::Samples;
use feeder_scan::{any_level, fire_few};
use lines::Mask;
use memory::lent;
use node::Memory;
use number::MOST_SAMPLES;

// Whether it waits with nothing stored, as start and push leave its numbers, and neither row 1 nor row 2 holds.
// The order is for speed: tests with no read between them are joined to a longer one, memory after more tests is a call, and numbers read early are kept in registers for the ordinary push.
fn waits(numbers: &[usize; 17], memory: &Memory<'_>, ring: usize) -> bool
    ensures { result ≡ true → Waiting numbers.now (lent_in memory.now) ring }
{
    if numbers[recorder::WAITS] != 1 {
        return false;
    }
    let unitsize = numbers[record::UNIT];
    if unit_wrong(unitsize) {
        return false;
    }
    let capacity = numbers[record::CAPACITY];
    if MOST_SAMPLES < capacity {
        return false;
    }
    let capture = Capture {
        unitsize,
        capacity,
        len: 0,
        trigger: None,
    };
    if capture.is_short(memory) || capacity < numbers[recorder::LIMIT] {
        return false;
    }
    let pre = numbers[recorder::PRE];
    if capacity <= pre || pre < numbers[recorder::KEPT] || ring < pre * unitsize {
        return false;
    }
    numbers[record::LEN] | numbers[record::MARKED] | numbers[record::MARK] == 0
}

// Whether one of the samples fires. Levels come first: most often none has them, and then neither the previous sample nor a pair is looked at.
fn fires(numbers: &[usize; 17], pushed: &Samples<'_>) -> bool
    requires { 1 ≤ pushed.now.n }
    ensures { result ≡ ltb (fire_of numbers.now pushed.now) pushed.now.n }
{
    let masks = masks_in(numbers);
    if any_level(masks, pushed) {
        let prev = previous_in(numbers[recorder::KNOWN], numbers[recorder::PREVIOUS]);
        return fire_few(masks, prev, pushed) < pushed.n;
    }
    false
}

// Two bytes from `at` on. Two and four are written out: see `copy_few`.
fn put_two(ring: &mut [u8], at: usize, a: u8, b: u8)
    requires { at + 2 ≤ length ring.old }
    ensures { ring.new ≡ sets ring.old at (a ∷ b ∷ []) }
{
    ring[at] = a;
    ring[at + 1] = b;
}

// Four bytes from `at` on.
fn put_four(ring: &mut [u8], at: usize, a: u8, b: u8, c: u8, d: u8)
    requires { at + 4 ≤ length ring.old }
    ensures { ring.new ≡ sets ring.old at (a ∷ b ∷ c ∷ d ∷ []) }
{
    let second = at + 1;
    let third = second + 1;
    ring[at] = a;
    ring[second] = b;
    ring[third] = c;
    ring[third + 1] = d;
}

// The first k bytes go to the ring's bytes from `at` on, as the two or four at either end, which may overlap: two moves without a loop.
// All are read before one is written, and the arms begin and end with other bytes: else the compiler joins them and moves byte by byte.
fn copy_few(ring: &mut [u8], at: usize, bytes: &[u8], k: usize)
    requires { CopyRoom at k (length ring.old) (length bytes.now) }
    ensures { ring.new ≡ paste ring.old at bytes.now k }
{
    if k < 4 {
        let end = k - 2;
        let y = bytes[end];
        let z = bytes[end + 1];
        let a = bytes[0];
        let b = bytes[1];
        put_two(ring, at + end, y, z);
        put_two(ring, at, a, b);
        return;
    }
    let a = bytes[0];
    let b = bytes[1];
    let c = bytes[2];
    let d = bytes[3];
    let end = k - 4;
    let second = end + 1;
    let third = second + 1;
    let w = bytes[end];
    let x = bytes[second];
    let y = bytes[third];
    let z = bytes[third + 1];
    put_four(ring, at, a, b, c, d);
    put_four(ring, at + end, w, x, y, z);
}

// Samples, fewer than there are slots up to the ring's end: true once they went there; false, and nothing is written, where one fires.
fn wait_few(numbers: &mut [usize; 17], ring: &mut [u8], pushed: &Samples<'_>) -> bool
    requires { FewRoom numbers.old (length ring.old) pushed.now }
    ensures { FewAfter result numbers.old ring.old pushed.now numbers.new ring.new }
{
    if fires(&*numbers, pushed) {
        return false;
    }
    let Samples { bytes, unitsize, n } = *pushed;
    let pre = numbers[recorder::PRE];
    let place = numbers[recorder::RING_PLACE];
    let kept = numbers[recorder::KEPT];
    let last = pushed.at(n - 1);
    copy_few(ring, place * unitsize, bytes, n * unitsize);
    numbers[recorder::KNOWN] = 1;
    numbers[recorder::PREVIOUS] = usize::from(last);
    numbers[recorder::RING_PLACE] = place + n;
    numbers[recorder::KEPT] = kept + n.min(pre - kept);
    true
}

// The whole samples in len bytes; a division would take longer.
fn count_in(unitsize: usize, len: usize) -> usize
    requires { UnitSize unitsize }
    ensures { Count unitsize len result }
{
    if unitsize == 1 { len } else { len / 2 }
}

// Fewer bytes than this are a short push.
const SHORT: usize = 8;

// A push of these bytes, where it is short and its samples go to the ring: true, and what it leaves; else false, and nothing is written.
pub fn wait_short<'a>(
    numbers: &mut [usize; 17],
    samples: &'a [u8],
    l1: &'a [Mask],
    l2: &'a [Mask],
    l3: &'a [Mask],
    l4: &'a [Mask],
    ring: &mut [u8],
    bytes: &[u8],
) -> bool
    ensures { ShortAfter result numbers.old (lent_of samples.now (level_of l1.now l2.now l3.now l4.now)) ring.old bytes.now numbers.new ring.new }
{
    let memory = lent(samples, l1, l2, l3, l4);
    if !waits(&*numbers, &memory, ring.len()) {
        return false;
    }
    let pre = numbers[recorder::PRE];
    let place = numbers[recorder::RING_PLACE];
    let len = bytes.len();
    if pre <= place || SHORT <= len || len < 2 || pre - place <= len {
        return false;
    }
    let unitsize = numbers[record::UNIT];
    let pushed = Samples {
        bytes,
        unitsize,
        n: count_in(unitsize, len),
    };
    wait_few(numbers, ring, &pushed)
}
