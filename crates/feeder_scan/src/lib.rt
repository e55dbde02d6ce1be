// The first sample of a push that fires, and the last sample of a push.
#![tactic(auto)]

pub mod samples;

ghost use Rattle.std.specs.Prelude.{◌≡◌, false, ◌-◌, ◌≤◌, ◌<◌, ltb};
ghost use Rattle.rules.specs.Trigger.{matches, first_fire, last_of};
ghost use Rattle.terms.specs.Terms.{as_masks};
ghost use Rattle.feeder_scan.specs.Scan.{samples_in, sample_in, wanted_of, masks_for, level_met, NoneFires, fire_from};

use lines::Mask;
use samples::Samples;
use terms::Masks;

// What the five masks ask of a sample and the one before it: these lines are 1, these are 0, these differ.
// Rising is High and Edge on one line, Falling is Low and Edge.
#[derive(Clone, Copy)]
struct Wanted {
    high: Mask,
    low: Mask,
    edge: Mask,
}

impl Wanted {
    fn of(m: Masks) -> Wanted
        ensures { result ≡ wanted_of m }
    {
        Wanted {
            high: m.high | m.rising,
            low: m.low | m.falling,
            edge: m.rising | m.falling | m.edge,
        }
    }

    // v after prev: no line fails. Of the levels, the lines of low fail where v is 1, and those of high where v is 0.
    fn met(self, prev: Mask, v: Mask) -> bool
        ensures { result ≡ matches (masks_for self) prev v }
    {
        let levels = (v & (self.high ^ self.low)) ^ self.high;
        let edge = ((prev ^ v) & self.edge) ^ self.edge;
        levels | edge == 0
    }

    // v has the levels that are asked for: it may fire, after some sample.
    fn level(self, v: Mask) -> bool
        ensures { result ≡ level_met self v }
    {
        (v & (self.high ^ self.low)) ^ self.high == 0
    }
}

// The first of the places a to e, e not among them, that fires, prev the sample before a; e where none does.
fn fire_in(w: Wanted, prev: Mask, samples: &Samples<'_>, a: usize, e: usize) -> usize
    requires { (a ≤ e) × (e ≤ samples.now.n) }
    ensures { result ≡ fire_from (masks_for w) (sample_in samples.now) prev a e }
{
    let mut p = prev;
    for i in a..e {
        let v = samples.at(i);
        if w.met(p, v) {
            return i;
        }
        p = v;
    }
    e
}

// Whether one of the places a to e fires. It looks at each, so that many are taken at once.
#[inline(always)]
fn any_fires(w: Wanted, samples: &Samples<'_>, a: usize, e: usize) -> bool
    requires { (1 ≤ a) × (a ≤ e) × (e ≤ samples.now.n) }
    ensures { result ≡ ltb (fire_from (masks_for w) (sample_in samples.now) (sample_in samples.now (a - 1)) a e) e }
{
    let mut any = false;
    for i in a..e {
        any |= w.met(samples.at(i - 1), samples.at(i));
    }
    any
}

// How many places are looked at before it is asked whether one of them fires.
const BLOCK: usize = 256;

// The first place that fires, prev the sample before them: the first place by itself, then block by block.
#[inline(always)]
fn fire_in_blocks(w: Wanted, prev: Mask, samples: &Samples<'_>) -> usize
    requires { 1 ≤ samples.now.n }
    ensures { result ≡ fire_from (masks_for w) (sample_in samples.now) prev 0 samples.now.n }
{
    if w.met(prev, samples.at(0)) {
        return 0;
    }
    let n = samples.n;
    let mut a = 1;
    while a < n {
        let e = a + BLOCK.min(n - a);
        if any_fires(w, samples, a, e) {
            return fire_in(w, samples.at(a - 1), samples, a, e);
        }
        a = e;
    }
    a
}

// The first of some samples that fires, one after the other.
// Where there is no sample before them it is the first itself, which then differs in no line.
pub fn fire_few(masks: Masks, prev: Option<Mask>, samples: &Samples<'_>) -> usize
    requires { 1 ≤ samples.now.n }
    ensures { result ≡ first_fire (as_masks masks) prev (samples_in samples.now) }
{
    let p = prev.unwrap_or(samples.at(0));
    fire_in(Wanted::of(masks), p, samples, 0, samples.n)
}

// Whether a sample has the levels that are asked for. Where none has, none fires, whatever sample came before.
pub fn any_level(masks: Masks, samples: &Samples<'_>) -> bool
    ensures { result ≡ false → NoneFires (as_masks masks) (samples_in samples.now) }
{
    let w = Wanted::of(masks);
    for i in 0..samples.n {
        if w.level(samples.at(i)) {
            return true;
        }
    }
    false
}

// Below this many samples blocks cost more than they save.
const FEW: usize = 8;

// The first of the samples that fires; their count where none does.
pub fn first_fire(masks: Masks, prev: Option<Mask>, samples: &Samples<'_>) -> usize
    ensures { result ≡ first_fire (as_masks masks) prev (samples_in samples.now) }
{
    let Samples { bytes, unitsize, n } = *samples;
    if n == 0 {
        return 0;
    }
    if n < FEW {
        return fire_few(masks, prev, samples);
    }
    let w = Wanted::of(masks);
    let p = prev.unwrap_or(samples.at(0));
    // The unit is a number in each branch, so that each gets its own loops. They are inlined for it: else a push of 64 bytes takes a third longer.
    if unitsize == 1 {
        fire_in_blocks(
            w,
            p,
            &Samples {
                bytes,
                unitsize: 1,
                n,
            },
        )
    } else {
        fire_in_blocks(
            w,
            p,
            &Samples {
                bytes,
                unitsize: 2,
                n,
            },
        )
    }
}

// The sample before the next one, once the samples came after prev.
pub fn last_sample(prev: Option<Mask>, samples: &Samples<'_>) -> Option<Mask>
    ensures { result ≡ last_of prev (samples_in samples.now) }
{
    if samples.n == 0 {
        return prev;
    }
    Some(samples.at(samples.n - 1))
}
