// One push of a recorder.
#![tactic(auto)]

ghost use Rattle.std.specs.Prelude.{◌≡◌, ◌++◌, ◌+◌, ◌-◌, ◌*◌, ◌≤◌, ◌<◌, max, min, length, drop, unwrap_or};
ghost use Rattle.rules.specs.Refusal.{most_samples, recorder_refusal};
ghost use Rattle.rules.specs.Ring.{kept_bytes};
ghost use Rattle.rules.specs.Push.{fired_by, wanted, passed};
ghost use Rattle.node.specs.Memory.{level_of};
ghost use Rattle.answer.specs.Answered.{refusal_of};
ghost use Rattle.capture.specs.Record.{lent_of};
ghost use Rattle.feeder.specs.Record.{recorder_of};
ghost use Rattle.feeder_scan.specs.Scan.{sample_in};
ghost use Rattle.feeder_ring.specs.Room.{RingRoom};
ghost use Rattle.feeder_run.specs.Run.{RunRoom};
ghost use Rattle.feeder_push.specs.Push.{Pushes};
ghost use Rattle.feeder_push.specs.Inner.{Answers, Stores, Waits};

use answer::Refusal;
use capture::Capture;
use feeder::Feeder;
use feeder_ring::{place_after, ring_write};
use feeder_run::store_run;
use feeder_scan::samples::Samples;
use feeder_scan::{first_fire, last_sample};
use lines::Mask;
use memory::lent;

// The record after a push: the recording goes on, or is complete.
#[derive(Clone, Copy)]
pub enum Pushed {
    GoingOn(Feeder),
    Complete(Feeder),
}

// Slices that are written to come one by one, as in `store`.
// 01's push: refused with 1, 2 or 8 and everything as it was given, or the samples go to the ring or to the store.
pub fn push(
    f: Feeder,
    samples: &mut [u8],
    l1: &mut [Mask],
    l2: &mut [Mask],
    l3: &mut [Mask],
    l4: &mut [Mask],
    ring: &mut [u8],
    bytes: &[u8],
) -> Result<Pushed, Refusal>
    ensures { Pushes f bytes.now samples.old (level_of l1.old l2.old l3.old l4.old) ring.old result samples.new (level_of l1.new l2.new l3.new l4.new) ring.new }
{
    f.check(
        &lent(&samples[..], &l1[..], &l2[..], &l3[..], &l4[..]),
        &ring[..],
    )?;
    let unitsize = f.capture.unitsize;
    let pushed = Samples {
        bytes,
        unitsize,
        n: bytes.len() / unitsize,
    };
    let Some(masks) = f.masks else {
        let taken = store_run(&f, samples, l1, l2, l3, l4, &ring[..], &pushed, 0, 0);
        return answer(f, taken);
    };
    let i = first_fire(masks, f.prev, &pushed);
    if i < pushed.n {
        return fire(f, samples, l1, l2, l3, l4, &ring[..], &pushed, i);
    }
    Ok(Pushed::GoingOn(wait(f, ring, &pushed)))
}

// The answer of f, an unarmed recorder, once samples went to its store or had no room there.
fn answer(f: Feeder, taken: Option<usize>) -> Result<Pushed, Refusal>
    requires { f.capture.len + unwrap_or taken 0 ≤ most_samples }
    ensures { Answers (recorder_of f) taken result }
{
    let Some(k) = taken else {
        return Err(Refusal::Full);
    };
    let len = f.capture.len + k;
    let next = Feeder {
        capture: Capture { len, ..f.capture },
        ..f
    };
    if f.limit != 0 && len == f.limit {
        return Ok(Pushed::Complete(next));
    }
    Ok(Pushed::GoingOn(next))
}

// ---- an armed recorder

// kept with k more, of which pre at most are kept.
fn filled(kept: usize, pre: usize, k: usize) -> usize
    ensures { result ≡ min pre (kept + k) }
{
    pre.min(kept.saturating_add(k))
}

// The recorder fired by v, sample i of the push.
fn fired_by(f: Feeder, v: Mask, i: usize) -> Feeder
    ensures { recorder_of result ≡ fired_by (recorder_of f) v i }
{
    Feeder {
        capture: Capture {
            trigger: Some(filled(f.kept, f.pre, i)),
            ..f.capture
        },
        masks: None,
        prev: Some(v),
        place: 0,
        kept: 0,
        ..f
    }
}

// A push that fires at its sample i: the ring's samples that are still wanted, and the push's own but for those passed over.
fn fire(
    f: Feeder,
    samples: &mut [u8],
    l1: &mut [Mask],
    l2: &mut [Mask],
    l3: &mut [Mask],
    l4: &mut [Mask],
    ring: &[u8],
    pushed: &Samples<'_>,
    i: usize,
) -> Result<Pushed, Refusal>
    requires { RunRoom f pushed.now (length samples.old) (level_of l1.old l2.old l3.old l4.old) (length ring.now) × (i < pushed.now.n) }
    ensures { Stores f (fired_by (recorder_of f) (sample_in pushed.now i) i) (wanted (recorder_of f) i + (pushed.now.n - passed (recorder_of f) i)) (kept_bytes f.capture.unitsize f.pre ring.now f.place (wanted (recorder_of f) i) ++ drop (passed (recorder_of f) i * f.capture.unitsize) pushed.now.bytes.now) samples.old (level_of l1.old l2.old l3.old l4.old) result samples.new (level_of l1.new l2.new l3.new l4.new) }
{
    let before = i.min(f.pre);
    let w = f.kept.min(f.pre - before);
    let taken = store_run(&f, samples, l1, l2, l3, l4, ring, pushed, w, i - before);
    answer(fired_by(f, pushed.at(i), i), taken)
}

// A push that does not fire: its samples go to the ring.
fn wait(f: Feeder, ring: &mut [u8], pushed: &Samples<'_>) -> Feeder
    requires { RingRoom pushed.now.unitsize f.pre f.place (length ring.old) }
    ensures { Waits (recorder_of f) pushed.now ring.old result ring.new }
{
    ring_write(ring, f.pre, f.place, pushed);
    Feeder {
        prev: last_sample(f.prev, pushed),
        place: place_after(f.pre, f.place, pushed.n),
        kept: filled(f.kept, f.pre, pushed.n),
        ..f
    }
}
