// Searches across unknown stretches (02: CR 9): the next and the previous change that is certain, there whatever the unknown samples
// were, or possible, there for some. `stretches` is a list as lc_salvage leaves it: first place and count of each. Mills get none of it.
ghost use Rattle.std.specs.Prelude.{true, false};
ghost use Rattle.node.specs.Memory.{level_of};
ghost use Rattle.codes.specs.Record.{capture_in, number};
ghost use Rattle.codes.specs.Code.{perhaps, Out};
ghost use Rattle.unknown.specs.Answer.{certain_of, possible_of};

use codes::capture_in;
use lines::Mask;
use memory::lent;

// The next certain change after a place, or 100 where there is none. Refuses with 1, 2 and 18.
pub fn lc_next_certain<'a>(
    numbers: &[usize; 5],
    samples: &[u8],
    l1: &'a [Mask],
    l2: &'a [Mask],
    l3: &'a [Mask],
    l4: &'a [Mask],
    stretches: &[usize],
    mask: Mask,
    from: usize,
    place: &mut usize,
) -> u32
    ensures { Out number (perhaps (certain_of false (capture_in numbers.now) samples.now (level_of l1.now l2.now l3.now l4.now) stretches.now mask from)) result place.old place.new }
{
    let answer = unknown::next_certain(
        capture_in(numbers),
        lent(samples, l1, l2, l3, l4),
        stretches,
        mask,
        from,
    );
    codes::located_code(answer, place)
}

// The last certain change up to a place, or 100 where there is none. Refuses with 1, 2 and 18.
pub fn lc_prev_certain<'a>(
    numbers: &[usize; 5],
    samples: &[u8],
    l1: &'a [Mask],
    l2: &'a [Mask],
    l3: &'a [Mask],
    l4: &'a [Mask],
    stretches: &[usize],
    mask: Mask,
    from: usize,
    place: &mut usize,
) -> u32
    ensures { Out number (perhaps (certain_of true (capture_in numbers.now) samples.now (level_of l1.now l2.now l3.now l4.now) stretches.now mask from)) result place.old place.new }
{
    let answer = unknown::prev_certain(
        capture_in(numbers),
        lent(samples, l1, l2, l3, l4),
        stretches,
        mask,
        from,
    );
    codes::located_code(answer, place)
}

// The next possible change after a place, or 100 where there is none. Refuses with 1, 2 and 18.
pub fn lc_next_possible<'a>(
    numbers: &[usize; 5],
    samples: &[u8],
    l1: &'a [Mask],
    l2: &'a [Mask],
    l3: &'a [Mask],
    l4: &'a [Mask],
    stretches: &[usize],
    mask: Mask,
    from: usize,
    place: &mut usize,
) -> u32
    ensures { Out number (perhaps (possible_of false (capture_in numbers.now) samples.now (level_of l1.now l2.now l3.now l4.now) stretches.now mask from)) result place.old place.new }
{
    let answer = unknown::next_possible(
        capture_in(numbers),
        lent(samples, l1, l2, l3, l4),
        stretches,
        mask,
        from,
    );
    codes::located_code(answer, place)
}

// The last possible change up to a place, or 100 where there is none. Refuses with 1, 2 and 18.
pub fn lc_prev_possible<'a>(
    numbers: &[usize; 5],
    samples: &[u8],
    l1: &'a [Mask],
    l2: &'a [Mask],
    l3: &'a [Mask],
    l4: &'a [Mask],
    stretches: &[usize],
    mask: Mask,
    from: usize,
    place: &mut usize,
) -> u32
    ensures { Out number (perhaps (possible_of true (capture_in numbers.now) samples.now (level_of l1.now l2.now l3.now l4.now) stretches.now mask from)) result place.old place.new }
{
    let answer = unknown::prev_possible(
        capture_in(numbers),
        lent(samples, l1, l2, l3, l4),
        stretches,
        mask,
        from,
    );
    codes::located_code(answer, place)
}
