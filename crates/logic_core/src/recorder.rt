// The recorder's calls. Its record is lent as 17 numbers, of which the first five are its store's: questions take those. `feeder_numbers::recorder` names the others.
ghost use Rattle.std.specs.Prelude.{◌≡◌, Bool};
ghost use Rattle.node.specs.Memory.{level_of};
ghost use Rattle.feeder_numbers.specs.Numbers.{feeder_from};
ghost use Rattle.codes.specs.Code.{plain, Out};
ghost use Rattle.feeder_codes.specs.Recorder.{begun_numbers, cut_number};
ghost use Rattle.logic_core.specs.Recorder.{begun_for, PushesOut};

use lines::Mask;
use memory::lent;

// 01's start of a recorder. Terms are two bytes each. Refuses with 1 to 7.
#[tactic(auto, using(feeder::proofs::Begun::start_rule_lem))]
pub fn lc_feeder_start<'a>(
    channels: usize,
    capacity: usize,
    limit: usize,
    terms: &[u8],
    seconds: bool,
    wish: f64,
    rate: usize,
    samples: &[u8],
    l1: &'a [Mask],
    l2: &'a [Mask],
    l3: &'a [Mask],
    l4: &'a [Mask],
    ring: &[u8],
    numbers: &mut [usize; 17],
    cut: &mut usize,
) -> u32
    ensures { Out begun_numbers (plain (begun_for channels capacity limit terms.now seconds wish rate samples.now (level_of l1.now l2.now l3.now l4.now) ring.now)) result numbers.old numbers.new × Out cut_number (plain (begun_for channels capacity limit terms.now seconds wish rate samples.now (level_of l1.now l2.now l3.now l4.now) ring.now)) result cut.old cut.new }
{
    let answer = feeder::start(
        channels,
        capacity,
        limit,
        term_bytes::terms_in(terms),
        feeder_codes::wish_in(seconds, wish),
        rate,
        lent(samples, l1, l2, l3, l4),
        ring,
    );
    feeder_codes::begun_code(answer, numbers, cut)
}

// 01's push: 0 while it goes on, 100 once it is complete. Refuses with 1, 2 and 8.
pub fn lc_push(
    numbers: &mut [usize; 17],
    samples: &mut [u8],
    l1: &mut [Mask],
    l2: &mut [Mask],
    l3: &mut [Mask],
    l4: &mut [Mask],
    ring: &mut [u8],
    bytes: &[u8],
) -> u32
    ensures { PushesOut (feeder_from numbers.old) bytes.now samples.old (level_of l1.old l2.old l3.old l4.old) ring.old result numbers.old numbers.new samples.new (level_of l1.new l2.new l3.new l4.new) ring.new }
{
    let waited = feeder_wait::wait_short(
        numbers,
        &samples[..],
        &l1[..],
        &l2[..],
        &l3[..],
        &l4[..],
        ring,
        bytes,
    );
    if waited {
        return 0;
    }
    let f = feeder_numbers::feeder_in(&*numbers);
    let answer = feeder_push::push(f, samples, l1, l2, l3, l4, ring, bytes);
    feeder_codes::pushed_code(answer, numbers)
}
