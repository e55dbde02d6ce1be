// What a push hands to the store: samples of the ring and its own, as far as there is room.
#![tactic(auto)]

ghost use Rattle.std.specs.Prelude.{◌≡◌, ◌++◌, ◌+◌, ◌-◌, ◌*◌, ◌≤◌, ltb, length, take, drop};
ghost use Rattle.rules.specs.Sample.{UnitSize};
ghost use Rattle.node.specs.Memory.{level_of};
ghost use Rattle.store.specs.Stored.{Stored};
ghost use Rattle.rules.specs.Ring.{kept_bytes};
ghost use Rattle.rules.specs.Push.{room_for};
ghost use Rattle.feeder_run.specs.Run.{room_of, Within, RunIs, bytes_of, WriteRoom, RunRoom, Takes};

use capture::Capture;
use feeder::Feeder;
use feeder_scan::samples::Samples;
use lines::Mask;
use store::append_parts;

// The w newest samples of the ring, and the push's but for the first d, join the stored ones, as far as the limit has room.
// How many did, or nothing where not all have room. Slices that are written to come one by one, as in `store`. Inlined, the record of a short push
// stays in registers.
#[inline(always)]
pub fn store_run(
    f: &Feeder,
    samples: &mut [u8],
    l1: &mut [Mask],
    l2: &mut [Mask],
    l3: &mut [Mask],
    l4: &mut [Mask],
    ring: &[u8],
    pushed: &Samples<'_>,
    w: usize,
    d: usize,
) -> Option<usize>
    requires { RunRoom f.now pushed.now (length samples.old) (level_of l1.old l2.old l3.old l4.old) (length ring.now) × (w ≤ f.now.pre) × (d ≤ pushed.now.n) }
    ensures { Takes f.now (w + (pushed.now.n - d)) (kept_bytes f.now.capture.unitsize f.now.pre ring.now f.now.place w ++ drop (d * f.now.capture.unitsize) pushed.now.bytes.now) samples.old (level_of l1.old l2.old l3.old l4.old) result samples.new (level_of l1.new l2.new l3.new l4.new) }
{
    let own = pushed.n - d;
    if is_full(f, w, own) {
        return None;
    }
    let run = run_of(f, w, own);
    write_run(
        samples,
        l1,
        l2,
        l3,
        l4,
        &f.capture,
        ring,
        pushed.bytes,
        &run,
        d,
    );
    Some(run.count)
}

// A run: `older` samples from slot `end` of the ring on, `newer` from slot `start` on, and `own` of the push.
#[derive(Clone, Copy)]
struct Run {
    end: usize,
    older: usize,
    start: usize,
    newer: usize,
    own: usize,
    count: usize,
}

// Row 8: w samples and then `own` have no room. A limit cuts them, and is within the capacity.
fn is_full(f: &Feeder, w: usize, own: usize) -> bool
    requires { Within f.now }
    ensures { result ≡ ltb f.now.capture.capacity (f.now.capture.len + room_for f.now.limit f.now.capture.len (w + own)) }
{
    let room = f.capture.capacity - f.capture.len;
    f.limit == 0 && (room < w || room - w < own)
}

// The places that are left.
fn room_of(f: &Feeder) -> usize
    requires { Within f.now }
    ensures { result ≡ room_of f.now }
{
    let end = if f.limit == 0 {
        f.capture.capacity
    } else {
        f.limit
    };
    end - f.capture.len
}

// The w newest samples of the ring and `own` of the push: the first of them, as far as there is room.
fn run_of(f: &Feeder, w: usize, own: usize) -> Run
    requires { Within f.now × (w ≤ f.now.pre) }
    ensures { RunIs (room_of f.now) f.now.pre f.now.place w own result }
{
    let room = room_of(f);
    let newest = w.min(f.place);
    let oldest = w - newest;
    let older = oldest.min(room);
    let newer = newest.min(room - older);
    let own = own.min(room - older - newer);
    Run {
        end: f.pre - oldest,
        older,
        start: f.place - newest,
        newer,
        own,
        count: older + newer + own,
    }
}

// k samples of the bytes, from place `from` on.
fn part<'a>(bytes: &'a [u8], unitsize: usize, from: usize, k: usize) -> &'a [u8]
    requires { UnitSize unitsize × ((from + k) * unitsize ≤ length bytes.now) }
    ensures { result.now ≡ take (k * unitsize) (drop (from * unitsize) bytes.now) }
{
    &bytes[from * unitsize..(from + k) * unitsize]
}

// The run is written behind the stored samples; the push's own start at its sample d.
fn write_run(
    samples: &mut [u8],
    l1: &mut [Mask],
    l2: &mut [Mask],
    l3: &mut [Mask],
    l4: &mut [Mask],
    capture: &Capture,
    ring: &[u8],
    bytes: &[u8],
    run: &Run,
    d: usize,
)
    requires { WriteRoom capture.now.unitsize capture.now.len run.now d (length samples.old) (level_of l1.old l2.old l3.old l4.old) (length ring.now) (length bytes.now) }
    ensures { Stored capture.now.unitsize capture.now.len run.now.count (bytes_of capture.now.unitsize ring.now bytes.now d run.now) samples.old (level_of l1.old l2.old l3.old l4.old) samples.new (level_of l1.new l2.new l3.new l4.new) }
{
    let unitsize = capture.unitsize;
    append_parts(
        samples,
        l1,
        l2,
        l3,
        l4,
        unitsize,
        capture.len,
        run.count,
        part(ring, unitsize, run.end, run.older),
        part(ring, unitsize, run.start, run.newer),
        part(bytes, unitsize, d, run.own),
    );
}
