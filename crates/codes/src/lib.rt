// What the C boundary says of each answer: a code, and numbers behind out pointers.
// The code is 0; the number of the refusal, which writes nothing; or 100, which is no.
#![tactic(auto)]

pub mod out;

ghost use Rattle.std.specs.Prelude.{◌≡◌, ℤ};
ghost use Rattle.rules.specs.Answer.{given};
ghost use Rattle.answer.specs.Answered as answered;
ghost use Rattle.answer.specs.Answered.{answer_of, counted_of, told_of};
ghost use Rattle.capture.specs.Record.{store_of, sizes_as};
ghost use Rattle.summary.specs.Summary.{summed_of};
ghost use Rattle.encoder.specs.Answer.{encoded_of};
ghost use Rattle.whole.specs.Wrong.{checked_of};
ghost use Rattle.burst.specs.Answer.{burst_as};
ghost use Rattle.codes.specs.Record.{capture_in, store_numbers, len_number, grown_len, lent_numbers, node_numbers, count_number, burst_numbers, number, place_level, place_number};
ghost use Rattle.codes.specs.Code.{plain, perhaps, fault, Out};
ghost use Rattle.codes.specs.Sought.{Sought};
ghost use Rattle.codes.specs.Turned.{TurnsOut};

use answer::{Counted, Refusal};
use burst::Burst;
use capture::{Capture, Sizes, mark_in, record};
use encoder::Turns;
use lines::Mask;
use node::Node;
use whole::NodeAt;

pub const NONE: u32 = 100;

// The code of a refusal: its row's number.
pub fn code(refusal: Refusal) -> u32
    ensures { result ≡ answered.number refusal }
{
    u32::from(refusal.number())
}

// The record of a capture from its numbers.
pub fn capture_in(numbers: &[usize; 5]) -> Capture
    ensures { result ≡ capture_in numbers.now }
{
    Capture {
        unitsize: numbers[record::UNIT],
        capacity: numbers[record::CAPACITY],
        len: numbers[record::LEN],
        trigger: mark_in(numbers[record::MARKED], numbers[record::MARK]),
    }
}

// The numbers of a record become a capture's.
pub fn put_capture(numbers: &mut [usize; 5], c: Capture)
    ensures { numbers.new ≡ store_numbers (store_of c) numbers.old }
{
    numbers[record::UNIT] = c.unitsize;
    numbers[record::CAPACITY] = c.capacity;
    numbers[record::LEN] = c.len;
    numbers[record::MARKED] = usize::from(c.trigger.is_some());
    numbers[record::MARK] = c.trigger.unwrap_or(0);
}

// An answer that is one value: a sample, or a count of samples, of bytes or of changes.
pub fn value_code<T: Copy>(answer: Result<T, Refusal>, value: &mut T) -> u32
    ensures { Out number (plain (told_of answer)) result value.old value.new }
{
    match answer {
        Err(r) => code(r),
        Ok(v) => {
            *value = v;
            0
        }
    }
}

#[tactic(auto, unfolding(node::specs::Memory::level_of))]
pub fn needed_code(answer: Result<Sizes, Refusal>, sizes: &mut [usize; 5]) -> u32
    ensures { Out lent_numbers (plain (answer_of sizes_as answer)) result sizes.old sizes.new }
{
    match answer {
        Err(r) => code(r),
        Ok(m) => {
            sizes[out::SIZE_SAMPLES] = m.samples;
            sizes[out::SIZE_LEVEL_1] = m.l1;
            sizes[out::SIZE_LEVEL_2] = m.l2;
            sizes[out::SIZE_LEVEL_3] = m.l3;
            sizes[out::SIZE_LEVEL_4] = m.l4;
            0
        }
    }
}

pub fn started_code(answer: Result<Capture, Refusal>, numbers: &mut [usize; 5]) -> u32
    ensures { Out store_numbers (plain (answer_of store_of answer)) result numbers.old numbers.new }
{
    match answer {
        Err(r) => code(r),
        Ok(c) => {
            put_capture(numbers, c);
            0
        }
    }
}

// An append's record differs from the one that it was given in len only; a refusal stores nothing.
pub fn appended_code(answer: Result<Capture, Refusal>, numbers: &mut [usize; 5]) -> u32
    ensures { Out len_number (plain (grown_len (told_of answer))) result numbers.old numbers.new }
{
    match answer {
        Err(r) => code(r),
        Ok(grown) => {
            numbers[record::LEN] = grown.len;
            0
        }
    }
}

// A wrong node is no, and its level and number are written.
pub fn checked_code(
    answer: Result<Option<NodeAt>, Refusal>,
    level: &mut usize,
    number: &mut usize,
) -> u32
    ensures { Out place_level (fault (checked_of answer)) result level.old level.new × Out place_number (fault (checked_of answer)) result number.old number.new }
{
    match answer {
        Err(r) => code(r),
        Ok(None) => 0,
        Ok(Some(wrong)) => {
            *level = wrong.level;
            *number = wrong.number;
            NONE
        }
    }
}

pub fn summed_code(
    answer: Result<Option<Node>, Refusal>,
    node: &mut [Mask; 3],
    count: &mut u32,
) -> u32
    ensures { Out node_numbers (perhaps (summed_of answer)) result node.old node.new × Out count_number (perhaps (summed_of answer)) result count.old count.new }
{
    match answer {
        Err(r) => code(r),
        Ok(Some(n)) => {
            node[out::NODE_FIRST] = n.first;
            node[out::NODE_LAST] = n.last;
            node[out::NODE_TOGGLES] = n.mask;
            *count = n.count;
            0
        }
        Ok(None) => NONE,
    }
}

pub fn turns_code(
    answer: Result<Turns, Refusal>,
    position: &mut i64,
    counts: &mut [usize; 3],
) -> u32
    ensures { TurnsOut (encoded_of answer) result position.old position.new counts.old counts.new }
{
    match answer {
        Err(r) => code(r),
        Ok(t) => {
            *position = t.position;
            counts[out::ENCODER_FORWARD] = t.forward;
            counts[out::ENCODER_BACKWARD] = t.backward;
            counts[out::ENCODER_SKIPPED] = t.skipped;
            0
        }
    }
}

// A place that was looked for.
fn place_code<T: Copy>(found: Option<T>, place: &mut T) -> u32
    ensures { Out number (perhaps (given found)) result place.old place.new }
{
    match found {
        Some(i) => {
            *place = i;
            0
        }
        None => NONE,
    }
}

// A search: the place that it found, and the nodes that it read.
pub fn found_code<T: Copy>(
    answer: Result<Counted<T>, Refusal>,
    place: &mut T,
    read: &mut usize,
) -> u32
    ensures { Sought number (answer_of counted_of answer) result place.old place.new read.old read.new }
{
    match answer {
        Err(r) => code(r),
        Ok(search) => {
            *read = search.steps;
            place_code(search.found, place)
        }
    }
}

// A search across unknown stretches counts no nodes.
pub fn located_code(answer: Result<Option<usize>, Refusal>, place: &mut usize) -> u32
    ensures { Out number (perhaps (told_of answer)) result place.old place.new }
{
    match answer {
        Err(r) => code(r),
        Ok(found) => place_code(found, place),
    }
}

pub fn burst_code(
    answer: Result<Counted<Burst>, Refusal>,
    ends: &mut [usize; 4],
    read: &mut usize,
) -> u32
    ensures { Sought burst_numbers (burst_as answer) result ends.old ends.new read.old read.new }
{
    match answer {
        Err(r) => code(r),
        Ok(search) => {
            *read = search.steps;
            let Some(b) = search.found else {
                return NONE;
            };
            ends[out::BURST_FIRST] = b.first;
            ends[out::BURST_LAST] = b.last;
            ends[out::BURST_JUMPS_END] = b.jumps_end;
            ends[out::BURST_JUMPS_START] = b.jumps_start;
            0
        }
    }
}

// A drawing has no value of its own.
pub fn drawn_code(answer: Result<(), Refusal>) -> u32
    ensures { result ≡ (plain (told_of answer)).code }
{
    match answer {
        Err(r) => code(r),
        Ok(()) => 0,
    }
}
