// The lines that ask what is stored: each calls the library and answers as the lists do.
#![tactic(auto)]

use answer::Counted;
use burst::Burst;
use capture::Capture;
use encoder::Turns;
use feeder::Feeder;
use lines::Mask;
use node::{Memory, Node};
use pixel::View;
use replay_text::answers::{Answer, given, listed, one, refused, told};
use replay_text::digests::{digest_of_bytes, digest_of_samples};
use replay_text::numbers::{bits_of, float_of, mask_of};
use replay_text::operations::Operation;
use whole::NodeAt;

// ---- what a call answered

fn checked(wrong: Option<NodeAt>) -> Answer {
    match wrong {
        None => one(1),
        Some(node) => given(3, [0, node.level, node.number, 0, 0]),
    }
}

fn found(c: Counted<usize>) -> Answer {
    match c.found {
        None => one(0),
        Some(i) => given(2, [1, i, 0, 0, 0]),
    }
}

// Without the count, which the Rust does not have.
fn summed(summary: Option<Node>) -> Answer {
    match summary {
        None => one(0),
        Some(n) => given(
            4,
            [
                1,
                usize::from(n.first),
                usize::from(n.last),
                usize::from(n.mask),
                0,
            ],
        ),
    }
}

fn burst(c: Counted<Burst>) -> Answer {
    match c.found {
        None => one(0),
        Some(b) => given(5, [1, b.first, b.last, b.jumps_end, b.jumps_start]),
    }
}

fn turned(t: Turns) -> Answer {
    given(
        4,
        [bits_of(t.position), t.forward, t.backward, t.skipped, 0],
    )
}

// ---- the record

// Len, mark, whether a recorder is armed, and the digest.
fn run(f: Feeder, digest: usize) -> Answer {
    let c = f.capture;
    let marked = usize::from(c.trigger.is_some());
    let armed = usize::from(f.masks.is_some());
    given(5, [c.len, marked, c.trigger.unwrap_or(0), armed, digest])
}

// What a recorder's record holds besides.
fn state(f: Feeder) -> Answer {
    let known = usize::from(f.prev.is_some());
    let sample = usize::from(f.prev.unwrap_or(0));
    given(4, [f.kept, f.place, known, sample, 0])
}

// The samples before a trigger, for a time at a rate; no list asks for a rate above 01's, or without a unit.
fn pretrigger(time: usize, rate: usize, unit: usize) -> Answer {
    if 1000000000 < rate || unit == 0 {
        return refused(255);
    }
    let kept = float::seconds_samples(float_of(time), rate as u64, unit as u64);
    given(2, [kept.samples as usize, usize::from(kept.cut), 0, 0, 0])
}

// ---- the calls

// The digest of all stored samples.
fn digest_of_store(c: Capture, memory: Memory<'_>, output: &mut [Mask]) -> usize {
    let mut d = 0;
    let mut start = 0;
    while start < c.len {
        let most = output.len();
        let copied = capture::samples(c, memory, start, most, output).unwrap_or(0);
        let n = copied.min(output.len()).min(c.len - start);
        if n == 0 {
            break;
        }
        d = digest_of_samples(d, &output[..n]);
        start += n;
    }
    d
}

fn part(bytes: &[u8]) -> Answer {
    given(2, [bytes.len(), digest_of_bytes(bytes), 0, 0, 0])
}

fn digested(a: Answer, output: &[Mask]) -> Answer {
    if a.refusal != 0 {
        return a;
    }
    one(digest_of_samples(0, &output[..a.listed.min(output.len())]))
}

// The first numbers of an output, as many as there are at most.
fn first(output: &mut [Mask], n: usize) -> &mut [Mask] {
    let end = n.min(output.len());
    &mut output[..end]
}

// The library's answer; numbers that it lists are left in output. To another code it is a refusal that no list has.
pub fn ask(o: Operation, f: Feeder, memory: Memory<'_>, output: &mut [Mask]) -> Answer {
    let c = f.capture;
    let a = o.arguments;
    match o.code {
        14 => run(f, digest_of_store(c, memory, output)),
        15 => told(capture::get(c, memory, a[0]), |v| one(usize::from(v))),
        16 => told(
            capture::samples(c, memory, a[0], a[1], first(output, a[2])),
            |n| listed(n),
        ),
        17 => part(capture::raw(c, memory.samples, memory.levels, a[0])),
        18 => told(whole::whole(c, memory), |w| checked(w)),
        20 => told(
            search::next_change(c, memory, mask_of(a[0]), a[1]),
            |place| found(place),
        ),
        21 => told(
            search::prev_change(c, memory, mask_of(a[0]), a[1]),
            |place| found(place),
        ),
        22 => told(summary::summary(c, memory, a[0], a[1]), |s| summed(s)),
        23 => told(density::density(c, memory, a[0], a[1]), |n| one(n as usize)),
        24 => told(encoder::encoder(c, memory, a[0], a[1]), |t| turned(t)),
        30 => told(
            burst::burst_at(c, memory, mask_of(a[0]), a[1], a[2], a[3], a[4]),
            |b| burst(b),
        ),
        40 | 41 => {
            let view = View {
                start: float_of(a[0]),
                spp: float_of(a[1]),
            };
            let drawn = render::render(c, memory, view, a[2], first(output, a[3]));
            let answer = told(drawn, |_| listed(2 * a[2].min(65536)));
            if o.code == 41 {
                return digested(answer, output);
            }
            answer
        }
        50 => pretrigger(a[0], a[1], a[2]),
        55 => state(f),
        _ => refused(255),
    }
}
