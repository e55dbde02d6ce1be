// The recorder's calls.
ghost use Rattle.node.specs.Memory.{level_of};
ghost use Rattle.feeder_numbers.specs.Numbers.{feeder_from};
ghost use Rattle.codes.specs.Code.{plain, Out};
ghost use Rattle.feeder_codes.specs.Recorder.{begun_numbers, cut_number};
ghost use Rattle.logic_core.specs.Recorder.{begun_for, PushesOut};

use lines::Mask;

#[unsafe(no_mangle)]
pub extern "C" fn lc_feeder_start<'a>(
    channels: usize,
    capacity: usize,
    limit: usize,
    terms: &[u8],
    seconds: bool,
    wish: f64,
    rate: usize,
    samples: &[u8],
    l1: &'a [Mask],
    l2: &'a [Mask],
    l3: &'a [Mask],
    l4: &'a [Mask],
    ring: &[u8],
    numbers: &mut [usize; 17],
    cut: &mut usize,
) -> u32
    ensures { Out begun_numbers (plain (begun_for channels capacity limit terms.now seconds wish rate samples.now (level_of l1.now l2.now l3.now l4.now) ring.now)) result numbers.old numbers.new × Out cut_number (plain (begun_for channels capacity limit terms.now seconds wish rate samples.now (level_of l1.now l2.now l3.now l4.now) ring.now)) result cut.old cut.new }
{
    logic_core::recorder::lc_feeder_start(
        channels, capacity, limit, terms, seconds, wish, rate, samples, l1, l2, l3, l4, ring,
        numbers, cut,
    )
}

#[unsafe(no_mangle)]
pub extern "C" fn lc_push(
    numbers: &mut [usize; 17],
    samples: &mut [u8],
    l1: &mut [Mask],
    l2: &mut [Mask],
    l3: &mut [Mask],
    l4: &mut [Mask],
    ring: &mut [u8],
    bytes: &[u8],
) -> u32
    ensures { PushesOut (feeder_from numbers.old) bytes.now samples.old (level_of l1.old l2.old l3.old l4.old) ring.old result numbers.old numbers.new samples.new (level_of l1.new l2.new l3.new l4.new) ring.new }
{
    logic_core::recorder::lc_push(numbers, samples, l1, l2, l3, l4, ring, bytes)
}
