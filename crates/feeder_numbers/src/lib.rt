// A recorder's record as 17 numbers, for a caller that has no records. The first five are its store's.
#![tactic(auto)]

pub mod recorder;

ghost use Rattle.std.specs.Prelude.{◌≡◌};
ghost use Rattle.feeder.specs.Record.{recorder_of};
ghost use Rattle.feeder_numbers.specs.Numbers.{mask_in, lines_in, previous_in, feeder_from, pushed_numbers, recorder_numbers};

use capture::{Capture, mark_in, record};
use feeder::Feeder;
use lines::Mask;
use terms::Masks;

// The lines of a number: what is above them is dropped.
fn mask_in(n: usize) -> Mask
    ensures { result ≡ mask_in n }
{
    (n % 65536) as u16
}

// The five masks of a recorder that waits.
pub fn masks_in(numbers: &[usize; 17]) -> Masks
    ensures { result ≡ lines_in numbers.now }
{
    Masks {
        high: mask_in(numbers[recorder::HIGH_LINES]),
        low: mask_in(numbers[recorder::LOW_LINES]),
        rising: mask_in(numbers[recorder::RISING_LINES]),
        falling: mask_in(numbers[recorder::FALLING_LINES]),
        edge: mask_in(numbers[recorder::EDGE_LINES]),
    }
}

// The previous sample, where there is one.
pub fn previous_in(known: usize, v: usize) -> Option<Mask>
    ensures { result ≡ previous_in known v }
{
    (known != 0).then_some(mask_in(v))
}

// The record of a recorder from its numbers.
pub fn feeder_in(numbers: &[usize; 17]) -> Feeder
    ensures { result ≡ feeder_from numbers.now }
{
    Feeder {
        capture: Capture {
            unitsize: numbers[record::UNIT],
            capacity: numbers[record::CAPACITY],
            len: numbers[record::LEN],
            trigger: mark_in(numbers[record::MARKED], numbers[record::MARK]),
        },
        limit: numbers[recorder::LIMIT],
        pre: numbers[recorder::PRE],
        masks: (numbers[recorder::WAITS] != 0).then_some(masks_in(numbers)),
        prev: previous_in(numbers[recorder::KNOWN], numbers[recorder::PREVIOUS]),
        place: numbers[recorder::RING_PLACE],
        kept: numbers[recorder::KEPT],
    }
}

// The numbers that a push may change become a recorder's.
pub fn put_pushed(numbers: &mut [usize; 17], f: Feeder)
    ensures { numbers.new ≡ pushed_numbers (recorder_of f) numbers.old }
{
    let mark = f.capture.trigger;
    numbers[record::LEN] = f.capture.len;
    numbers[record::MARKED] = usize::from(mark.is_some());
    numbers[record::MARK] = mark.unwrap_or(0);
    numbers[recorder::WAITS] = usize::from(f.masks.is_some());
    numbers[recorder::KNOWN] = usize::from(f.prev.is_some());
    numbers[recorder::PREVIOUS] = usize::from(f.prev.unwrap_or(0));
    numbers[recorder::RING_PLACE] = f.place;
    numbers[recorder::KEPT] = f.kept;
}

// All numbers become a recorder's.
pub fn put_feeder(numbers: &mut [usize; 17], f: Feeder)
    ensures { numbers.new ≡ recorder_numbers (recorder_of f) numbers.old }
{
    let masks = f.masks.unwrap_or_default();
    numbers[record::UNIT] = f.capture.unitsize;
    numbers[record::CAPACITY] = f.capture.capacity;
    numbers[recorder::LIMIT] = f.limit;
    numbers[recorder::PRE] = f.pre;
    numbers[recorder::HIGH_LINES] = usize::from(masks.high);
    numbers[recorder::LOW_LINES] = usize::from(masks.low);
    numbers[recorder::RISING_LINES] = usize::from(masks.rising);
    numbers[recorder::FALLING_LINES] = usize::from(masks.falling);
    numbers[recorder::EDGE_LINES] = usize::from(masks.edge);
    put_pushed(numbers, f);
}
