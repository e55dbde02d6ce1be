// The lines that write samples or levels: a put, and an append or a push, piece by piece.
#![tactic(auto)]

ghost use Rattle.std.specs.Prelude.{◌≡◌};

use answer::Refusal;
use capture::Capture;
use feeder::Feeder;
use feeder_push::Pushed;
use lines::Mask;
use replay_feed::{feed_of, fill};
use replay_start::{Change, leaves};
use replay_text::answers::{one, refused};
use replay_text::numbers::mask_of;
use replay_text::operations::Operation;

// A number goes into a level's memory, where there is room for it.
fn put_in(level: &mut [Mask], i: usize, value: Mask) {
    if let Some(slot) = level.get_mut(i) {
        *slot = value;
    }
}

// 4, put.
fn put(o: Operation, l1: &mut [Mask], l2: &mut [Mask], l3: &mut [Mask], l4: &mut [Mask]) {
    let a = o.arguments;
    let value = mask_of(a[2]);
    match a[0] {
        1 => put_in(l1, a[1], value),
        2 => put_in(l2, a[1], value),
        3 => put_in(l3, a[1], value),
        4 => put_in(l4, a[1], value),
        _ => {}
    }
}

fn after_append(f: Feeder, appended: Result<Capture, Refusal>, next: usize) -> Change
    ensures { result.next ≡ next }
{
    match appended {
        Ok(capture) => leaves(Feeder { capture, ..f }, one(capture.len), next),
        Err(refusal) => leaves(f, refused(refusal.number()), next),
    }
}

fn after_push(f: Feeder, pushed: Result<Pushed, Refusal>, next: usize) -> Change
    ensures { result.next ≡ next }
{
    match pushed {
        Ok(Pushed::GoingOn(new)) => leaves(new, one(0), next),
        Ok(Pushed::Complete(new)) => leaves(new, one(1), next),
        Err(refusal) => leaves(f, refused(refusal.number()), next),
    }
}

// A code whose line may write samples or levels.
pub fn writes(code: usize) -> bool {
    matches!(code, 4 | 11..=13 | 52..=54)
}

// Such a line. An append or a push goes piece by piece, and the answer is the last piece's.
pub fn write(
    o: Operation,
    line: &[u8],
    f: Feeder,
    samples: &mut [u8],
    l1: &mut [Mask],
    l2: &mut [Mask],
    l3: &mut [Mask],
    l4: &mut [Mask],
    ring: &mut [u8],
    piece: &mut [u8],
) -> Change {
    if o.code == 4 {
        put(o, l1, l2, l3, l4);
        return leaves(f, refused(0), o.next);
    }
    let mut feed = feed_of(o, f.capture.unitsize);
    let mut left = leaves(f, refused(0), o.next);
    loop {
        let filled = fill(line, feed, piece);
        feed = filled.feed;
        let bytes = &piece[..filled.bytes];
        let g = left.feeder;
        left = if o.code < 50 {
            let appended = append::append(g.capture, samples, l1, l2, l3, l4, bytes);
            after_append(g, appended, feed.next)
        } else {
            let pushed = feeder_push::push(g, samples, l1, l2, l3, l4, ring, bytes);
            after_push(g, pushed, feed.next)
        };
        if !filled.has_more() {
            return left;
        }
    }
}
