// A mill's question to a service's search, and what the search found, as the mill counts it.
ghost use Rattle.std.specs.Prelude.{◌≤◌};
ghost use Rattle.rules.specs.Refusal.{most_samples};

use crate::Burst;
use answer::{Counted, Refusal};
use capture::Capture;
use capture::stored::Stored;
use lines::Mask;
use mill::{beyond, counted_from, origin, place_at};
use node::Memory;

// Where no row refuses: what is stored, the place that counts as 0, and the place of the run that is asked.
#[derive(Clone, Copy)]
pub struct Asked<'a> {
    pub stored: Stored<'a>,
    pub origin: usize,
    pub place: usize,
    ghost small: { origin ≤ most_samples },
}

impl<'a> Asked<'a> {
    ghost use Rattle.std.specs.Prelude.{◌≡◌, ◌<◌};
    ghost use Rattle.rules.specs.Walk.{through};
    ghost use Rattle.rules.specs.Mill.{mill_place, shown_place, shown_burst};
    ghost use Rattle.answer.specs.Answered.{counted_of};
    ghost use Rattle.burst.specs.Answer as bursts;
    ghost use Rattle.mill_search.specs.Answer.{bursts_as, Asks, EachPlace, EachBurst};

    // Rows 1, 2, 12 and 13, and then the question.
    pub fn ask(
        c: Capture,
        memory: Memory<'a>,
        grant: Mask,
        mask: Mask,
        place: i64,
    ) -> Result<Asked<'a>, Refusal>
        ensures { Asks c memory.entry grant mask place result }
    {
        let stored = mill::check(c, memory, beyond(grant, mask), place, 0)?;
        let origin = origin(c);
        Ok(Asked {
            stored,
            origin,
            place: place_at(origin, place),
        })
    }

    // A stored place.
    fn shown(&self, i: usize) -> i64
        requires { i < self.now.stored.len }
        ensures { result ≡ mill_place self.now.origin i }
    {
        counted_from(self.origin, i)
    }

    // A place that was found.
    pub fn change(&self, found: Counted<usize>) -> Counted<i64>
        requires { EachPlace self.now.stored.len found }
        ensures { counted_of result ≡ through (shown_place self.now.origin) (counted_of found) }
    {
        Counted {
            // under `map` the closure would say both clauses of `shown` again
            found: match found.found {
                Some(i) => Some(self.shown(i)),
                None => None,
            },
            steps: found.steps,
        }
    }

    // A burst that was found.
    pub fn burst(&self, found: Counted<burst::Burst>) -> Counted<Burst>
        requires { EachBurst self.now.stored.len found }
        ensures { bursts_as result ≡ through (shown_burst self.now.origin) (bursts.bursts_as found) }
    {
        Counted {
            // as in `change`
            found: match found.found {
                Some(b) => Some(Burst {
                    first: self.shown(b.first),
                    last: self.shown(b.last),
                    jumps_end: b.jumps_end,
                    jumps_start: b.jumps_start,
                }),
                None => None,
            },
            steps: found.steps,
        }
    }
}
