// Two neighbouring changes, from which a burst can grow.
ghost use Rattle.std.specs.Prelude.{◌≡◌};
ghost use Rattle.rules.specs.Burst.{nearer};
ghost use Rattle.burst.specs.Answer.{side_as, side_at, between};

// Two neighbouring changes, and how far the nearer one is from the place asked.
#[derive(Clone, Copy)]
pub struct Pair {
    pub distance: usize,
    pub first: usize,
    pub last: usize,
}

impl Pair {
    // A change p and the one beyond it, left of it at the start and else right of it, if their gap is below the bound.
    pub fn at(
        gap: usize,
        start: bool,
        distance: usize,
        p: usize,
        beyond: Option<usize>,
    ) -> Option<Pair>
        ensures { side_as result ≡ side_at start gap distance p beyond }
    {
        let q = beyond?;
        let (first, last) = if start { (q, p) } else { (p, q) };
        (last.saturating_sub(first) < gap).then_some(Pair {
            distance,
            first,
            last,
        })
    }

    // The change before the place asked and the one after it, if their gap is below the bound.
    pub fn between(gap: usize, before: Option<usize>, after: Option<usize>) -> Option<Pair>
        ensures { side_as result ≡ between gap before after }
    {
        Pair::at(gap, false, 0, before?, after)
    }

    // The nearer side, left at equal distance.
    pub fn nearer(left: Option<Pair>, right: Option<Pair>) -> Option<Pair>
        ensures { side_as result ≡ nearer (side_as left) (side_as right) }
    {
        match (left, right) {
            (Some(l), Some(r)) if r.distance < l.distance => right,
            (None, _) => right,
            _ => left,
        }
    }
}
