// The searches that a burst makes: for its pair of changes, and from there for its ends.
ghost use Rattle.std.specs.Prelude.{◌≤◌};

use crate::pair::Pair;
use answer::Counted;
use capture::stored::Stored;
use lines::Mask;
use search::{next_in, prev_in};

// An end of a burst, the jumps that led there, and the nodes read for every try.
#[derive(Clone, Copy)]
pub struct End {
    pub place: usize,
    pub jumps: usize,
    pub read: usize,
}

// The changes that a burst is made of: of masked lines, their gaps below a bound.
#[derive(Clone, Copy)]
pub struct Changes<'a> {
    pub stored: Stored<'a>,
    pub mask: Mask,
    pub gap: usize,
    ghost wide: { 2 ≤ gap },
}

impl<'a> Changes<'a> {
    ghost use Rattle.std.specs.Prelude.{◌≡◌, cond, ◌*◌};
    ghost use Rattle.answer.specs.Answered.{counted_of};
    ghost use Rattle.burst.specs.Answer.{sided_as, back_of, fore_of, most_search, reach_of, further_of, Jumped, sided_by, paired_by};

    // Whether e lies further out than an end.
    fn further(start: bool, place: usize, e: usize) -> bool
        ensures { result ≡ further_of start place e }
    {
        if start { e < place } else { place < e }
    }

    // The next change or the previous one.
    #[tactic(auto, using(crate::proofs::Bounds::next_few, crate::proofs::Bounds::previous_few))]
    fn seek(&self, forward: bool, from: usize) -> Counted<usize>
        ensures sought { counted_of result ≡ cond forward (fore_of self.now) (back_of self.now) from }
        ensures few { result.steps ≤ most_search }
    {
        if forward {
            next_in(&self.stored, self.mask, from)
        } else {
            prev_in(&self.stored, self.mask, from)
        }
    }

    // What a jump leads to: the furthest change within the gap, or at the start the earliest.
    fn reach(&self, start: bool, place: usize) -> Counted<usize>
        ensures reached { counted_of result ≡ reach_of (back_of self.now) (fore_of self.now) self.now.gap start place }
        ensures few { result.steps ≤ most_search }
    {
        let from = if start {
            place.saturating_sub(self.gap)
        } else {
            place.saturating_add(self.gap - 1)
        };
        self.seek(start, from)
    }

    // The last change of a burst, or its first: jumps from a place, at most as many as the budget.
    pub fn end(&self, start: bool, from: usize, budget: usize) -> End
        ensures { Jumped (reach_of (back_of self.now) (fore_of self.now) self.now.gap start) (further_of start) budget from result }
    {
        let mut place = from;
        let mut read = 0;
        for jumps in 0..budget {
            let reach = self.reach(start, place);
            read += reach.steps;
            match reach.found {
                Some(e) if Changes::further(start, place, e) => place = e,
                _ => return End { place, jumps, read },
            }
        }
        End {
            place,
            jumps: budget,
            read,
        }
    }

    // The change before the place asked and the change before that, or the change after it and the next one.
    fn side(
        &self,
        start: bool,
        tolerance: usize,
        sample: usize,
        near: Option<usize>,
    ) -> Counted<Pair>
        ensures sided { sided_as result ≡ sided_by (back_of self.now) (fore_of self.now) start self.now.gap tolerance sample near }
        ensures few { result.steps ≤ most_search }
    {
        let none = Counted {
            found: None,
            steps: 0,
        };
        let Some(p) = near else {
            return none;
        };
        let distance = if start {
            sample.saturating_sub(p)
        } else {
            p.saturating_sub(sample)
        };
        if tolerance < distance {
            return none;
        }
        let beyond = self.seek(!start, if start { p.saturating_sub(1) } else { p });
        Counted {
            found: Pair::at(self.gap, start, distance, p, beyond.found),
            steps: beyond.steps,
        }
    }

    // The pair of neighbouring changes to grow from.
    pub fn pair(&self, tolerance: usize, sample: usize) -> Counted<Pair>
        ensures paired { sided_as result ≡ paired_by (back_of self.now) (fore_of self.now) self.now.gap tolerance sample }
        ensures few { result.steps ≤ 4 * most_search }
    {
        let before = self.seek(false, sample);
        let after = self.seek(true, sample);
        let steps = before.steps + after.steps;
        let around = Pair::between(self.gap, before.found, after.found);
        if around.is_some() {
            return Counted {
                found: around,
                steps,
            };
        }
        let left = self.side(true, tolerance, sample, before.found);
        let right = self.side(false, tolerance, sample, after.found);
        Counted {
            found: Pair::nearer(left.found, right.found),
            steps: steps + left.steps + right.steps,
        }
    }
}
