// Document 01's sixteen shelf examples, run: a line for each, its number and 1 where it holds, else 0.
#![tactic(auto)]

use answer::{Counted, Refusal};
use burst::Burst;
use capture::Capture;
use examples_recorder::{Recorder, waiting};
use examples_store::{Stored, holding};
use feeder::Pretrigger;
use node::Node;
use std::io;
use terms::Condition;

// Answers a case.
fn say(rt: &impl Print, number: u64, holds: bool) -> io::Result<()> {
    let answer = u8::from(holds);
    println!(rt; "{number} {answer}")
}

// Whether a search found a place, or nothing.
fn finds(found: Result<Counted<usize>, Refusal>, place: Option<usize>) -> bool {
    match found {
        Ok(c) => c.found == place,
        Err(_) => false,
    }
}

// Whether a burst has these ends and jumps.
fn burst_is(found: Result<Counted<Burst>, Refusal>, ends: [usize; 4]) -> bool {
    match found {
        Ok(Counted { found: Some(b), .. }) => {
            [b.first, b.last, b.jumps_end, b.jumps_start] == ends
        }
        _ => false,
    }
}

// The length and the mark.
fn marked_at(c: Capture, len: usize, place: usize) -> bool {
    c.len == len && c.trigger == Some(place)
}

// 1 to 5: searches of A.
fn searches(rt: &impl Print, a: &Stored) -> io::Result<()> {
    say(rt, 1, finds(a.next(0), Some(2)))?;
    say(rt, 2, finds(a.next(7), None))?;
    say(rt, 3, finds(a.next(usize::MAX), None))?;
    say(rt, 4, finds(a.previous(6), Some(4)))?;
    say(rt, 5, finds(a.previous(100), Some(7)))
}

// 6: summary(0, 8) of A is 0, 3, 3 and the count 4 (02: CR 5), which is its density too.
fn summary_is_right(a: &Stored) -> bool {
    let node = Node {
        first: 0,
        last: 3,
        mask: 3,
        count: 4,
    };
    a.summary(0, 8) == Ok(Some(node)) && a.density(0, 8) == Ok(4)
}

// 6 to 10: summaries of A, bursts of A and B.
fn summaries(rt: &impl Print, a: &Stored, b: &Stored) -> io::Result<()> {
    say(rt, 6, summary_is_right(a))?;
    say(rt, 7, a.summary(4, 4) == Ok(None))?;
    say(rt, 8, burst_is(a.burst(3, 4, 0, 1), [2, 7, 1, 0]))?;
    say(rt, 9, burst_is(a.burst(3, 3, 0, 1), [2, 4, 0, 0]))?;
    say(rt, 10, burst_is(b.burst(5, 4, 3, 9), [1, 2, 0, 0]))
}

// 11, 12: rows of A. The output past what is drawn stays 9.
fn pixels(rt: &impl Print, a: &Stored) -> io::Result<()> {
    say(rt, 11, a.render(0.0, 4.0, 2) == [0, 1, 0, 3])?;
    say(rt, 12, a.render(1.5, 0.5, 1) == [0, 1, 9, 9])
}

// 13: 0 0 and 0 1 1 make the run 0 0 1 1, with mark 2.
fn run_is_right() -> bool {
    let fresh = waiting(Condition::Rising, 4, Pretrigger::Fraction(0.5), 0);
    let first = fresh.pushed(b"\x00\x00");
    let last = first.pushed(b"\x00\x01\x01");
    !first.complete
        && last.complete
        && marked_at(last.feeder.capture, 4, 2)
        && last.run() == [0, 0, 1, 1]
}

// A recorder after a first sample 1.
fn after_one(condition: Condition) -> Recorder {
    waiting(condition, 4, Pretrigger::Fraction(0.5), 0).pushed(b"\x01")
}

// 14: under Rising the sample goes to the ring, and under High it is stored, with mark 0.
fn first_sample_is_right() -> bool {
    let rising = after_one(Condition::Rising).feeder;
    let high = after_one(Condition::High).feeder;
    rising.capture.len == 0 && rising.kept == 1 && marked_at(high.capture, 1, 0)
}

// 15: half a second at three samples a second keeps 2.
fn seconds_are_right() -> bool {
    waiting(Condition::Rising, 0, Pretrigger::Seconds(0.5), 3)
        .feeder
        .pre
        == 2
}

fn main(rt: HostRuntime) -> io::Result<()> {
    let a = holding(b"\x00\x00\x01\x01\x00\x02\x02\x03");
    let b = holding(b"\x00\x01\x00\x00\x00\x00\x00\x00\x01\x00");
    searches(&rt, &a)?;
    summaries(&rt, &a, &b)?;
    pixels(&rt, &a)?;
    say(&rt, 13, run_is_right())?;
    say(&rt, 14, first_sample_is_right())?;
    say(&rt, 15, seconds_are_right())?;
    // 16: get(8) of A is refused with 9, and get(7) is 3.
    say(
        &rt,
        16,
        a.get(8) == Err(Refusal::Place) && a.get(7) == Ok(3),
    )
}
