// An encoder replayed from two lines of a capture: quiet nodes are passed, and the samples of the others are scanned. 02: CR 6.
#![tactic(auto)]

pub mod replay;

ghost use Rattle.std.specs.Prelude.{◌≡◌, Bool, ◌-◌, ◌≤◌, ◌<◌, ℤ};
ghost use Rattle.rules.specs.Refusal.{most_samples, top_line};
ghost use Rattle.rules.specs.Encoder.{pair_wrong};
ghost use Rattle.node.specs.Lent.{levels_of};
ghost use Rattle.capture.specs.Stored.{sample_in};
ghost use Rattle.encoder_scan.specs.Scan.{widest};
ghost use Rattle.encoder.specs.Hops.{width, Ends, quiet_behind, Resumed, Scanned, counted};
ghost use Rattle.encoder.specs.Replayed.{onward_from, hops_in, Checks};
ghost use Rattle.encoder.specs.Answer.{as_turns, encoded_of, encoder_of};

use answer::Refusal;
use capture::Capture;
use capture::stored::Stored;
use encoder_scan::{Steps, WIDEST_ONE, WIDEST_TWO, scan};
use find::part::Part;
use level::{CHUNK, FAN};
use lines::TOP_LINE;
use node::Memory;
use number::difference;
use pass::pass;
use replay::Replay;
use search::chunk_end;

// The signed position, and the steps that it comes from.
#[derive(Clone, Copy)]
pub struct Turns {
    pub position: i64,
    pub forward: usize,
    pub backward: usize,
    pub skipped: usize,
}

// Row 14: equal lines, or one above the highest.
fn pair_wrong(a: usize, b: usize) -> bool
    ensures { result ≡ pair_wrong top_line a b }
{
    let top = usize::from(TOP_LINE);
    a == b || top < a || top < b
}

// Rows 1, 2 and 14, and what they let pass.
pub fn check(c: Capture, memory: Memory<'_>, a: usize, b: usize) -> Result<Replay<'_>, Refusal>
    ensures { Checks c memory.entry a b result }
{
    let stored = c.open(memory)?;
    if pair_wrong(a, b) {
        return Err(Refusal::Pair);
    }
    Ok(Replay {
        stored,
        a: a as u8,
        b: b as u8,
    })
}

// Where this many places were passed, changes are far apart.
const FAR: usize = 256;

// How many places a stretch has at most that is scanned from place i on, quiet nodes having been passed from p to i: a node's where changes are far apart,
// so that no memory is read for nothing.
fn width(unitsize: usize, p: usize, i: usize) -> usize
    requires { (p ≤ i) × (i ≤ most_samples) }
    ensures { result ≡ width unitsize p i }
{
    if p + FAR <= i {
        FAN
    } else if unitsize == 1 {
        WIDEST_ONE
    } else {
        WIDEST_TWO
    }
}

// Where that stretch ends. None lies across a border of chunks.
#[tactic(auto, using(crate::proofs::Stretch::ends))]
fn stretch_end(stored: &Stored<'_>, p: usize, i: usize) -> usize
    requires { (p ≤ i) × (i ≤ stored.now.len) }
    ensures { Ends stored.now.unitsize stored.now.len p i result }
{
    let w = width(stored.unitsize, p, i);
    ((i / w + 1) * w).min(stored.len)
}

// Whether nodes are asked behind a stretch: where changes are far apart, or none of its samples moved.
fn quiet_behind(p: usize, i: usize, moved: usize) -> bool
    requires { (p ≤ i) × (i ≤ most_samples) }
    ensures { result ≡ quiet_behind p i moved }
{
    p + FAR <= i || moved == 0
}

// Where scanning goes on: at p or, where nodes are asked, behind the quiet ones of its chunk.
#[tactic(auto, using(crate::proofs::Stretch::whole_part, crate::proofs::Stretch::chunk_inside))]
fn resume(replay: &Replay<'_>, p: usize, quiet: bool) -> usize
    requires { (1 ≤ p) × (p < replay.now.stored.len) }
    ensures { Resumed (onward_from replay.now) replay.now.stored.len quiet p result }
{
    if !quiet {
        return p;
    }
    let stored = &replay.stored;
    let part = Part {
        unitsize: stored.unitsize,
        base: 0,
        hi: chunk_end(p / CHUNK, stored.len),
        samples: stored.memory.samples,
        levels: stored.memory.levels,
    };
    pass(&part, replay.mask(), p, stored.sample(p - 1))
}

// What the lines do in a stretch from place i up to end, each sample against the one before it.
#[tactic(auto, using(crate::proofs::Stretch::scanned))]
fn scanned(replay: &Replay<'_>, i: usize, end: usize) -> Steps
    requires { (1 ≤ i) × (i ≤ end) × (end ≤ replay.now.stored.len) × (end - i ≤ widest replay.now.stored.unitsize) }
    ensures { Scanned (sample_in replay.now.stored) replay.now.a replay.now.b (i - 1) (end - i) result.forward result.backward result.skipped }
{
    let stored = &replay.stored;
    scan(
        stored.memory.samples,
        stored.unitsize,
        i - 1,
        end - i,
        replay.a,
        replay.b,
    )
}

// What the lines do in the whole capture, stretch by stretch.
#[tactic(auto, using(crate::proofs::Stretch::left_starts), unfolding(crate::specs::Hops::hops_of))]
fn hops(replay: &Replay<'_>) -> Steps
    ensures counts { counted result.forward result.backward result.skipped ≡ hops_in replay.now }
    ensures forward { result.forward ≤ most_samples }
    ensures backward { result.backward ≤ most_samples }
{
    let stored = &replay.stored;
    let mut forward = 0;
    let mut backward = 0;
    let mut skipped = 0;
    let mut quiet = true;
    let mut p = 1;
    while p < stored.len {
        let i = resume(replay, p, quiet);
        let end = stretch_end(stored, p, i);
        let t = scanned(replay, i, end);
        forward += t.forward;
        backward += t.backward;
        skipped += t.skipped;
        quiet = quiet_behind(p, i, t.forward + t.backward + t.skipped);
        p = end;
    }
    Steps {
        forward,
        backward,
        skipped,
    }
}

// What the lines do, and the position that it comes to.
pub fn turns_in(replay: &Replay<'_>) -> Turns
    ensures { as_turns result ≡ hops_in replay.now }
{
    let s = hops(replay);
    Turns {
        position: difference(s.forward, s.backward),
        forward: s.forward,
        backward: s.backward,
        skipped: s.skipped,
    }
}

// 02's encoder: the position, and the steps forward, backward and skipped; or 1, 2 or 14.
// By `Answers.encoder_right` it is the rule's where levels are right.
pub fn encoder(c: Capture, memory: Memory<'_>, a: usize, b: usize) -> Result<Turns, Refusal>
    ensures { encoded_of result ≡ encoder_of c memory.entry.samples.now (levels_of memory.entry.levels) a b }
{
    let replay = check(c, memory, a, b)?;
    Ok(turns_in(&replay))
}
