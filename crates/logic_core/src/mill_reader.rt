// A mill's calls (02: CR 1): the questions, on the lines of a grant, at places that count from the mark.
ghost use Rattle.std.specs.Prelude.{◌≡◌, ℤ};
ghost use Rattle.node.specs.Memory.{level_of};
ghost use Rattle.mill_search.specs.Answer.{next_of, previous_of, burst_of};
ghost use Rattle.mill_encoder.specs.Answer.{encoder_of};
ghost use Rattle.codes.specs.Record.{capture_in, lines_numbers, number};
ghost use Rattle.codes.specs.Code.{plain, perhaps, Out};
ghost use Rattle.codes.specs.Sought.{Sought};
ghost use Rattle.codes.specs.Turned.{TurnsOut};
ghost use Rattle.mill_codes.specs.Written.{first_place, end_place, marked_number, place, BurstOut};
ghost use Rattle.logic_core.specs.Mill.{bounded_for, got_for, shown_for, CopiesOut, DrawsOut};

use codes::capture_in;
use lines::Mask;
use memory::lent;
use pixel::View;

// The places that the run has, from first on and below end, and whether place 0 is a mark. Refuses with 1 and 2.
pub fn lc_mill_extent<'a>(
    numbers: &[usize; 5],
    samples: &[u8],
    l1: &'a [Mask],
    l2: &'a [Mask],
    l3: &'a [Mask],
    l4: &'a [Mask],
    first: &mut i64,
    end: &mut i64,
    marked: &mut usize,
) -> u32
    ensures { Out first_place (plain (bounded_for (capture_in numbers.now) samples.now (level_of l1.now l2.now l3.now l4.now))) result first.old first.new × Out end_place (plain (bounded_for (capture_in numbers.now) samples.now (level_of l1.now l2.now l3.now l4.now))) result end.old end.new × Out marked_number (plain (bounded_for (capture_in numbers.now) samples.now (level_of l1.now l2.now l3.now l4.now))) result marked.old marked.new }
{
    let answer = mill_read::extent(capture_in(numbers), lent(samples, l1, l2, l3, l4));
    mill_codes::bounded_code(answer, first, end, marked)
}

// 01's Get. Refuses with 1, 2, 13 and 9.
pub fn lc_mill_get<'a>(
    numbers: &[usize; 5],
    samples: &[u8],
    l1: &'a [Mask],
    l2: &'a [Mask],
    l3: &'a [Mask],
    l4: &'a [Mask],
    grant: Mask,
    at: i64,
    value: &mut Mask,
) -> u32
    ensures { Out number (plain (got_for (capture_in numbers.now) samples.now (level_of l1.now l2.now l3.now l4.now) grant at)) result value.old value.new }
{
    let answer = mill_read::get(
        capture_in(numbers),
        lent(samples, l1, l2, l3, l4),
        grant,
        at,
    );
    codes::value_code(answer, value)
}

// 01's Samples: the count copied. Refuses with 1, 2, 13 and 11.
pub fn lc_mill_samples<'a>(
    numbers: &[usize; 5],
    samples: &[u8],
    l1: &'a [Mask],
    l2: &'a [Mask],
    l3: &'a [Mask],
    l4: &'a [Mask],
    grant: Mask,
    start: i64,
    count: usize,
    output: &mut [Mask],
    copied: &mut usize,
) -> u32
    ensures { CopiesOut (capture_in numbers.now) samples.now (level_of l1.now l2.now l3.now l4.now) grant start count output.old result copied.old copied.new output.new }
{
    let answer = mill_read::samples(
        capture_in(numbers),
        lent(samples, l1, l2, l3, l4),
        grant,
        start,
        count,
        output,
    );
    codes::value_code(answer, copied)
}

// 01's Summary: first, last and toggles, or 100 where the range is empty. Refuses with 1, 2 and 13.
pub fn lc_mill_summary<'a>(
    numbers: &[usize; 5],
    samples: &[u8],
    l1: &'a [Mask],
    l2: &'a [Mask],
    l3: &'a [Mask],
    l4: &'a [Mask],
    grant: Mask,
    a: i64,
    b: i64,
    node: &mut [Mask; 3],
) -> u32
    ensures { Out lines_numbers (perhaps (shown_for (capture_in numbers.now) samples.now (level_of l1.now l2.now l3.now l4.now) grant a b)) result node.old node.new }
{
    let answer = mill_read::summary(
        capture_in(numbers),
        lent(samples, l1, l2, l3, l4),
        grant,
        a,
        b,
    );
    mill_codes::shown_code(answer, node)
}

// 01's Next: the place, or 100 where there is none. Refuses with 1, 2, 12 and 13.
pub fn lc_mill_next_change<'a>(
    numbers: &[usize; 5],
    samples: &[u8],
    l1: &'a [Mask],
    l2: &'a [Mask],
    l3: &'a [Mask],
    l4: &'a [Mask],
    grant: Mask,
    mask: Mask,
    from: i64,
    at: &mut i64,
    read: &mut usize,
) -> u32
    ensures { Sought place (next_of (capture_in numbers.now) samples.now (level_of l1.now l2.now l3.now l4.now) grant mask from) result at.old at.new read.old read.new }
{
    let answer = mill_search::next_change(
        capture_in(numbers),
        lent(samples, l1, l2, l3, l4),
        grant,
        mask,
        from,
    );
    codes::found_code(answer, at, read)
}

// 01's Previous: the place, or 100 where there is none. Refuses with 1, 2, 12 and 13.
pub fn lc_mill_prev_change<'a>(
    numbers: &[usize; 5],
    samples: &[u8],
    l1: &'a [Mask],
    l2: &'a [Mask],
    l3: &'a [Mask],
    l4: &'a [Mask],
    grant: Mask,
    mask: Mask,
    from: i64,
    at: &mut i64,
    read: &mut usize,
) -> u32
    ensures { Sought place (previous_of (capture_in numbers.now) samples.now (level_of l1.now l2.now l3.now l4.now) grant mask from) result at.old at.new read.old read.new }
{
    let answer = mill_search::prev_change(
        capture_in(numbers),
        lent(samples, l1, l2, l3, l4),
        grant,
        mask,
        from,
    );
    codes::found_code(answer, at, read)
}

// 01's burst_at: first, last, and the jumps at the end and at the start, or 100 where there is none. Refuses with 1, 2, 12 and 13.
pub fn lc_mill_burst_at<'a>(
    numbers: &[usize; 5],
    samples: &[u8],
    l1: &'a [Mask],
    l2: &'a [Mask],
    l3: &'a [Mask],
    l4: &'a [Mask],
    grant: Mask,
    mask: Mask,
    sample: i64,
    max_gap: usize,
    tolerance: usize,
    budget: usize,
    first: &mut i64,
    last: &mut i64,
    jumps: &mut [usize; 2],
    read: &mut usize,
) -> u32
    ensures { BurstOut (burst_of (capture_in numbers.now) samples.now (level_of l1.now l2.now l3.now l4.now) grant mask sample max_gap tolerance budget) result first.old first.new last.old last.new jumps.old jumps.new read.old read.new }
{
    let answer = mill_search::burst_at(
        capture_in(numbers),
        lent(samples, l1, l2, l3, l4),
        grant,
        mask,
        sample,
        max_gap,
        tolerance,
        budget,
    );
    mill_codes::burst_code(answer, first, last, jumps, read)
}

// An encoder replayed from lines a and b, as the service's (02: CR 6). Refuses with 1, 2, 14 and 12.
pub fn lc_mill_encoder<'a>(
    numbers: &[usize; 5],
    samples: &[u8],
    l1: &'a [Mask],
    l2: &'a [Mask],
    l3: &'a [Mask],
    l4: &'a [Mask],
    grant: Mask,
    a: usize,
    b: usize,
    position: &mut i64,
    counts: &mut [usize; 3],
) -> u32
    ensures { TurnsOut (encoder_of (capture_in numbers.now) samples.now (level_of l1.now l2.now l3.now l4.now) grant a b) result position.old position.new counts.old counts.new }
{
    let answer = mill_encoder::encoder(
        capture_in(numbers),
        lent(samples, l1, l2, l3, l4),
        grant,
        a,
        b,
    );
    codes::turns_code(answer, position, counts)
}

// 01's render; start is a place as the mill counts. Refuses with 1, 2, 10 and 11.
#[tactic(auto, using(crate::proofs::Drawn::drawn_code))]
pub fn lc_mill_render<'a>(
    numbers: &[usize; 5],
    samples: &[u8],
    l1: &'a [Mask],
    l2: &'a [Mask],
    l3: &'a [Mask],
    l4: &'a [Mask],
    grant: Mask,
    start: f64,
    spp: f64,
    width: usize,
    output: &mut [Mask],
) -> u32
    ensures { DrawsOut (capture_in numbers.now) samples.now (level_of l1.now l2.now l3.now l4.now) grant start spp width output.old result output.new }
{
    let answer = mill_render::render(
        capture_in(numbers),
        lent(samples, l1, l2, l3, l4),
        grant,
        View { start, spp },
        width,
        output,
    );
    codes::drawn_code(answer)
}
