// What a line gives to an append or a push: bytes, runs of equal samples, or noise, handed over in pieces.
#![tactic(auto)]

ghost use Rattle.std.specs.Prelude.{◌≡◌, ◌-◌, ◌≤◌, ◌<◌, length};
ghost use Rattle.std.specs.Bool.{OnTrue};
ghost use Rattle.replay_feed.specs.Rest.{rest, Fills};

use lines::Mask;
use replay_text::numbers::{mask_of, number};
use replay_text::operations::Operation;

// The samples of a run: all the same, or the noise's, each from the number before it and cut to a mask.
#[derive(Clone, Copy)]
pub enum Run {
    Of(Mask),
    Noise(u64, Mask),
}

// What is still to come: the samples left of a run, and the runs after it in the line. A byte is a run of one
// sample of one byte, without its count.
#[derive(Clone, Copy)]
pub struct Feed {
    pub left: usize,
    run: Run,
    runs: usize,
    counted: bool,
    pub next: usize,
    unitsize: usize,
}

// What an operation gives: bytes (11, 52), runs (12, 53) or noise (13, 54).
pub fn feed_of(o: Operation, unitsize: usize) -> Feed {
    let a = o.arguments;
    let code = o.code;
    match code {
        13 | 54 => Feed {
            left: a[0],
            run: Run::Noise(a[1] as u64, mask_of(a[2])),
            runs: 0,
            counted: true,
            next: o.next,
            unitsize,
        },
        12 | 53 => entries(a[0], true, o.next, unitsize),
        _ => entries(a[0], false, o.next, 1),
    }
}

fn entries(runs: usize, counted: bool, next: usize, unitsize: usize) -> Feed {
    Feed {
        left: 0,
        run: Run::Of(0),
        runs,
        counted,
        next,
        unitsize,
    }
}

// The feed at the line's next run.
fn next_run(line: &[u8], f: Feed) -> Feed
    requires { (f.left ≡ 0) × (0 < f.runs) }
    ensures { rest result < rest f }
{
    if f.counted {
        let count = number(line, f.next);
        return run_at(line, count.next, count.value.unwrap_or(0), f);
    }
    run_at(line, f.next, 1, f)
}

// The feed at a run of so many samples, whose value stands at a place of the line.
fn run_at(line: &[u8], at: usize, count: usize, f: Feed) -> Feed
    requires { 0 < f.runs }
    ensures { (result.left ≡ count) × (result.runs ≡ f.runs - 1) }
{
    let value = number(line, at);
    Feed {
        left: count,
        run: Run::Of(mask_of(value.value.unwrap_or(0))),
        runs: f.runs - 1,
        next: value.next,
        ..f
    }
}

// The noise's next number.
fn noise(x: u64) -> u64 {
    ((x % 4294967296) * 1664525 + 1013904223) % 4294967296
}

// The run behind its next sample, which is `sample_of` of it.
fn advanced(r: Run) -> Run {
    match r {
        Run::Of(v) => Run::Of(v),
        Run::Noise(x, mask) => Run::Noise(noise(x), mask),
    }
}

fn sample_of(r: Run) -> Mask {
    match r {
        Run::Of(v) => v,
        Run::Noise(x, mask) => ((x / 65536 % 65536) as u16) & mask,
    }
}

// The feed behind its next sample.
#[tactic(auto, unfolding(crate::specs::Rest::rest))]
fn next_sample(f: Feed) -> Feed
    requires { 0 < f.left }
    ensures { rest result < rest f }
{
    Feed {
        left: f.left - 1,
        run: advanced(f.run),
        ..f
    }
}

// The sample's bytes go into the piece, the second where there is room; the place behind them.
fn put_sample(piece: &mut [u8], at: usize, unitsize: usize, value: Mask) -> usize
    requires { at < length piece.old }
    ensures { (at < result) × (result ≤ length piece.old) }
{
    piece[at] = (value % 256) as u8;
    let next = at + 1;
    if unitsize == 2 && next < piece.len() {
        piece[next] = (value / 256) as u8;
        return next + 1;
    }
    next
}

// 32,768 samples.
fn piece_size(unitsize: usize) -> usize {
    if unitsize == 2 { 65536 } else { 32768 }
}

// A piece was filled with so many bytes, and the feed then stands at a sample or has none left.
#[derive(Clone, Copy)]
pub struct Filled {
    pub feed: Feed,
    pub bytes: usize,
}

impl Filled {
    // There is another piece where the feed has a sample, and this one held something.
    pub fn has_more(&self) -> bool
        ensures { OnTrue result (0 < self.now.bytes) }
    {
        self.bytes != 0 && self.feed.left != 0
    }
}

pub fn fill(line: &[u8], f: Feed, piece: &mut [u8]) -> Filled
    ensures { Fills f piece.old result }
{
    let size = piece_size(f.unitsize).min(piece.len());
    let mut feed = f;
    let mut bytes = 0;
    loop {
        if feed.left == 0 {
            if feed.runs == 0 {
                break;
            }
            feed = next_run(line, feed);
        } else {
            if size <= bytes {
                break;
            }
            feed = next_sample(feed);
            bytes = put_sample(piece, bytes, feed.unitsize, sample_of(feed.run));
        }
    }
    Filled { feed, bytes }
}
