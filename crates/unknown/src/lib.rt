// Searches across unknown stretches, by summaries: the next and the previous change that is certain, there whatever the unknown samples
// were, or possible, there for some. 02: CR 9. Both are 01's searches: a certain change takes one more for each stretch that a find lies at,
// a possible one takes one at most, up to the first stretch on its way.
#![tactic(auto)]

ghost use Rattle.std.specs.Prelude.{◌≡◌, true, false, ◌<◌};
ghost use Rattle.std.specs.Prelude.{Some};
ghost use Rattle.node.specs.Lent.{levels_of};
ghost use Rattle.capture.specs.Stored.{reader_in};
ghost use Rattle.unknown.specs.Crossing.{walked, nth_number, stretch_count, nth_stretch, resume, crossing, certain_in};
ghost use Rattle.unknown.specs.Meeting.{entry, meets, met, earlier, cut_at, from_entry, possible_across};
ghost use Rattle.unknown.specs.Answer.{located_of, certain_of, possible_of};

use answer::Refusal;
use capture::Capture;
use capture::stored::Stored;
use lines::Mask;
use node::Memory;
use search::{next_in, prev_in};
use stretches::Bounds;
use stretches::known::Known;

// 01's search from a place on, or back from there.
fn change(stored: &Stored<'_>, back: bool, mask: Mask, from: usize) -> Option<usize>
    ensures { result ≡ walked back (reader_in stored.now) mask stored.now.len from }
{
    if back {
        prev_in(stored, mask, from).found
    } else {
        next_in(stored, mask, from).found
    }
}

// Of n stretches in rising order, the number of the one after k others on a search's way.
fn nth(back: bool, n: usize, k: usize) -> usize
    requires { k < n }
    ensures { result ≡ nth_number back n k }
{
    if back { n - 1 - k } else { k }
}

// ---- certain changes

// From where a search goes on behind a stretch: backward at the place before it, and at 0, where nothing is found, if there is none.
fn resume(back: bool, stretch: &Bounds) -> usize
    ensures { result ≡ resume back stretch.now.first stretch.now.end }
{
    if back {
        stretch.first.saturating_sub(1)
    } else {
        stretch.end
    }
}

// A find stays where no unknown sample is beside it; else the next one behind the stretch.
fn cross(stored: &Stored<'_>, back: bool, mask: Mask, stretch: &Bounds, i: usize) -> Option<usize>
    ensures { result ≡ crossing (walked back (reader_in stored.now) mask stored.now.len) back stretch.now.first stretch.now.end (Some i) }
{
    if i < stretch.first || stretch.end < i {
        return Some(i);
    }
    change(stored, back, mask, resume(back, stretch))
}

// The next certain change.
#[tactic(auto, using(crate::proofs::Crossing::crossed_start, crate::proofs::Crossing::crossed_next, crate::proofs::Crossing::none_left))]
fn certain_in(known: &Known<'_>, back: bool, mask: Mask, from: usize) -> Option<usize>
    ensures { result ≡ certain_in back (reader_in known.now.stored) known.now.stored.len known.now.list.now mask from }
{
    let n = known.list.len() / 2;
    let mut i = change(&known.stored, back, mask, from)?;
    // A place alone goes from turn to turn: an option would be asked again at each stretch.
    for k in 0..n {
        let stretch = known.stretch_at(nth(back, n, k));
        i = cross(&known.stored, back, mask, &stretch, i)?;
    }
    Some(i)
}

// ---- possible changes

// The first place that a search looks at.
fn entry(back: bool, len: usize, from: usize) -> Option<usize>
    ensures { result ≡ entry back len from }
{
    if back {
        let p = from.min(len.saturating_sub(1));
        (p != 0).then_some(p)
    } else {
        let p = from.saturating_add(1);
        (p < len).then_some(p)
    }
}

// From place p on, the first one that has an unknown sample of a stretch beside it.
fn meets(back: bool, p: usize, stretch: &Bounds) -> Option<usize>
    ensures { result ≡ meets back p stretch.now.first stretch.now.end }
{
    if back {
        let c = stretch.end.min(p);
        (stretch.first <= c).then_some(c)
    } else {
        let c = stretch.first.max(p);
        (c <= stretch.end).then_some(c)
    }
}

// The first one of any stretch.
#[tactic(auto, using(crate::proofs::Meeting::met_start, crate::proofs::Meeting::met_next))]
fn met(known: &Known<'_>, back: bool, p: usize) -> Option<usize>
    ensures { result ≡ met back p (nth_stretch back known.now.list.now) (stretch_count known.now.list.now) }
{
    let n = known.list.len() / 2;
    for k in 0..n {
        if let Some(c) = meets(back, p, &known.stretch_at(nth(back, n, k))) {
            return Some(c);
        }
    }
    None
}

// A find and the place c at which a stretch is met: the one that comes first. Forward the search ended before c.
fn earlier(back: bool, found: Option<usize>, c: usize) -> usize
    ensures { Some result ≡ earlier back found c }
{
    found.map_or(c, |j| if back { j.max(c) } else { j })
}

// How many samples a search is given that meets a stretch at c.
fn cut_at(back: bool, len: usize, c: usize) -> usize
    ensures { result ≡ cut_at back len c }
{
    if back { len } else { c }
}

// The first possible change from place p on, the first that a search from `from` looks at.
#[tactic(auto, using(crate::proofs::Meeting::cut_most))]
fn possible_from(known: &Known<'_>, back: bool, mask: Mask, from: usize, p: usize) -> Option<usize>
    ensures { result ≡ from_entry back (walked back (reader_in known.now.stored) mask) known.now.stored.len known.now.list.now from (Some p) }
{
    let Some(c) = met(known, back, p) else {
        return change(&known.stored, back, mask, from);
    };
    if c == p {
        return Some(c);
    }
    let part = known.stored.cut(cut_at(back, known.stored.len, c));
    Some(earlier(back, change(&part, back, mask, from), c))
}

// The next possible change across stretches.
fn possible_across(known: &Known<'_>, back: bool, mask: Mask, from: usize) -> Option<usize>
    ensures { result ≡ possible_across back known.now.stored.unitsize (reader_in known.now.stored) known.now.stored.len known.now.list.now mask from }
{
    if !lines::has_line(mask, known.stored.unitsize) {
        return None;
    }
    let p = entry(back, known.stored.len, from)?;
    possible_from(known, back, mask, from, p)
}

// ---- the calls. Without stretches each is 01's search, and costs what that costs.

// A certain change, forward or back; or 1, 2 or 18.
fn certain_change(
    c: Capture,
    memory: Memory<'_>,
    list: &[usize],
    back: bool,
    mask: Mask,
    from: usize,
) -> Result<Option<usize>, Refusal>
    ensures { located_of result ≡ certain_of back c memory.entry.samples.now (levels_of memory.entry.levels) list.now mask from }
{
    let known = stretches::check(c, memory, list)?;
    Ok(certain_in(&known, back, mask, from))
}

// A possible one.
fn possible_change(
    c: Capture,
    memory: Memory<'_>,
    list: &[usize],
    back: bool,
    mask: Mask,
    from: usize,
) -> Result<Option<usize>, Refusal>
    ensures { located_of result ≡ possible_of back c memory.entry.samples.now (levels_of memory.entry.levels) list.now mask from }
{
    let known = stretches::check(c, memory, list)?;
    if known.list.is_empty() {
        return Ok(change(&known.stored, back, mask, from));
    }
    Ok(possible_across(&known, back, mask, from))
}

// The next certain change after a place, below len; or 1, 2 or 18. Theorems, in proofs/Right.antt: what each of the four means on right levels.
pub fn next_certain(
    c: Capture,
    memory: Memory<'_>,
    list: &[usize],
    mask: Mask,
    from: usize,
) -> Result<Option<usize>, Refusal>
    ensures { located_of result ≡ certain_of false c memory.entry.samples.now (levels_of memory.entry.levels) list.now mask from }
{
    certain_change(c, memory, list, false, mask, from)
}

// The last certain change up to a place, from 1 on and below len.
pub fn prev_certain(
    c: Capture,
    memory: Memory<'_>,
    list: &[usize],
    mask: Mask,
    from: usize,
) -> Result<Option<usize>, Refusal>
    ensures { located_of result ≡ certain_of true c memory.entry.samples.now (levels_of memory.entry.levels) list.now mask from }
{
    certain_change(c, memory, list, true, mask, from)
}

// The next possible change after a place.
pub fn next_possible(
    c: Capture,
    memory: Memory<'_>,
    list: &[usize],
    mask: Mask,
    from: usize,
) -> Result<Option<usize>, Refusal>
    ensures { located_of result ≡ possible_of false c memory.entry.samples.now (levels_of memory.entry.levels) list.now mask from }
{
    possible_change(c, memory, list, false, mask, from)
}

// The last possible change up to a place.
pub fn prev_possible(
    c: Capture,
    memory: Memory<'_>,
    list: &[usize],
    mask: Mask,
    from: usize,
) -> Result<Option<usize>, Refusal>
    ensures { located_of result ≡ possible_of true c memory.entry.samples.now (levels_of memory.entry.levels) list.now mask from }
{
    possible_change(c, memory, list, true, mask, from)
}
