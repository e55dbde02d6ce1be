// A mill's reader in front of the service's calls: its places, its grant and its two refusals. 02: CR 1.
#![tactic(auto)]

ghost use Rattle.std.specs.Prelude.{◌≡◌, false, ◌≤◌, length};
ghost use Rattle.rules.specs.Refusal.{most_samples};
ghost use Rattle.rules.specs.Mill.{mill_place, place_at, before_first, beyond};
ghost use Rattle.mill.specs.Reader.{origin_in, Passes, cut_first};

use answer::Refusal;
use capture::Capture;
use capture::stored::Stored;
use lines::Mask;
use node::Memory;
use number::{difference, magnitude};

// The place that counts as 0: the mark, or the first sample.
pub fn origin(c: Capture) -> usize
    ensures { result ≡ origin_in c }
{
    c.trigger.unwrap_or(0)
}

// Row 13: p lies before the first sample.
pub fn lies_before(origin: usize, p: i64) -> bool
    ensures { result ≡ before_first origin p }
{
    p < 0 && origin <= magnitude(p)
}

// The place of the run that p is.
pub fn place_at(origin: usize, p: i64) -> usize
    requires { (origin ≤ most_samples) × (before_first origin p ≡ false) }
    ensures { result ≡ place_at origin p }
{
    let n = magnitude(p);
    if p < 0 { origin - (n + 1) } else { origin + n }
}

// The place i of the run, as a mill counts it.
pub fn counted_from(origin: usize, i: usize) -> i64
    requires { (origin ≤ most_samples) × (i ≤ most_samples) }
    ensures { result ≡ mill_place origin i }
{
    difference(i, origin)
}

// Row 12: the mask has a line beyond the grant.
pub fn beyond(grant: Mask, mask: Mask) -> bool
    ensures { result ≡ beyond grant mask }
{
    mask & grant != mask
}

// Rows 1, 2, 12 and 13 of a mill's call: what its capture stores, or the first row that holds. A call without a mask is never outside the grant,
// and one with a single place gives 0 as the second, which is never before the first sample.
pub fn check<'a>(
    c: Capture,
    memory: Memory<'a>,
    outside: bool,
    p: i64,
    q: i64,
) -> Result<Stored<'a>, Refusal>
    ensures { Passes c memory.entry outside p q result }
{
    let stored = c.open(memory)?;
    if outside {
        return Err(Refusal::Grant);
    }
    let from = origin(c);
    if lies_before(from, p) || lies_before(from, q) {
        return Err(Refusal::Before);
    }
    Ok(stored)
}

// The first n numbers of output show granted lines only.
#[tactic(auto, using(crate::proofs::Cut::cut_none, crate::proofs::Cut::cut_turn))]
pub fn cut_down(output: &mut [Mask], n: usize, grant: Mask)
    requires { n ≤ length output.old }
    ensures { output.new ≡ cut_first grant n output.old }
{
    for i in 0..n {
        output[i] &= grant;
    }
}
