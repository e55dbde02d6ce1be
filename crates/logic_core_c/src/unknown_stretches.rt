// Searches across unknown stretches.
ghost use Rattle.std.specs.Prelude.{true, false};
ghost use Rattle.node.specs.Memory.{level_of};
ghost use Rattle.codes.specs.Record.{capture_in, number};
ghost use Rattle.codes.specs.Code.{perhaps, Out};
ghost use Rattle.unknown.specs.Answer.{certain_of, possible_of};

use lines::Mask;

#[unsafe(no_mangle)]
pub extern "C" fn lc_next_certain<'a>(
    numbers: &[usize; 5],
    samples: &[u8],
    l1: &'a [Mask],
    l2: &'a [Mask],
    l3: &'a [Mask],
    l4: &'a [Mask],
    stretches: &[usize],
    mask: Mask,
    from: usize,
    place: &mut usize,
) -> u32
    ensures { Out number (perhaps (certain_of false (capture_in numbers.now) samples.now (level_of l1.now l2.now l3.now l4.now) stretches.now mask from)) result place.old place.new }
{
    logic_core::unknown_stretches::lc_next_certain(
        numbers, samples, l1, l2, l3, l4, stretches, mask, from, place,
    )
}

#[unsafe(no_mangle)]
pub extern "C" fn lc_prev_certain<'a>(
    numbers: &[usize; 5],
    samples: &[u8],
    l1: &'a [Mask],
    l2: &'a [Mask],
    l3: &'a [Mask],
    l4: &'a [Mask],
    stretches: &[usize],
    mask: Mask,
    from: usize,
    place: &mut usize,
) -> u32
    ensures { Out number (perhaps (certain_of true (capture_in numbers.now) samples.now (level_of l1.now l2.now l3.now l4.now) stretches.now mask from)) result place.old place.new }
{
    logic_core::unknown_stretches::lc_prev_certain(
        numbers, samples, l1, l2, l3, l4, stretches, mask, from, place,
    )
}

#[unsafe(no_mangle)]
pub extern "C" fn lc_next_possible<'a>(
    numbers: &[usize; 5],
    samples: &[u8],
    l1: &'a [Mask],
    l2: &'a [Mask],
    l3: &'a [Mask],
    l4: &'a [Mask],
    stretches: &[usize],
    mask: Mask,
    from: usize,
    place: &mut usize,
) -> u32
    ensures { Out number (perhaps (possible_of false (capture_in numbers.now) samples.now (level_of l1.now l2.now l3.now l4.now) stretches.now mask from)) result place.old place.new }
{
    logic_core::unknown_stretches::lc_next_possible(
        numbers, samples, l1, l2, l3, l4, stretches, mask, from, place,
    )
}

#[unsafe(no_mangle)]
pub extern "C" fn lc_prev_possible<'a>(
    numbers: &[usize; 5],
    samples: &[u8],
    l1: &'a [Mask],
    l2: &'a [Mask],
    l3: &'a [Mask],
    l4: &'a [Mask],
    stretches: &[usize],
    mask: Mask,
    from: usize,
    place: &mut usize,
) -> u32
    ensures { Out number (perhaps (possible_of true (capture_in numbers.now) samples.now (level_of l1.now l2.now l3.now l4.now) stretches.now mask from)) result place.old place.new }
{
    logic_core::unknown_stretches::lc_prev_possible(
        numbers, samples, l1, l2, l3, l4, stretches, mask, from, place,
    )
}
