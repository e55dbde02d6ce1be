// Samples are appended to a capture's lent memory.
#![tactic(auto)]

ghost use Rattle.std.specs.Prelude.{◌≡◌};
ghost use Rattle.node.specs.Memory.{level_of};
ghost use Rattle.append.specs.Append.{Appends};

use answer::Refusal;
use capture::Capture;
use lines::Mask;
use memory::lent;
use store::append_samples;

// Slices that are written to come one by one, as in `store`.
// 01's append: whole samples of the bytes join the capture, a leftover byte is dropped; refuses with 1, 2 and 8.
// What the contract means is in proofs/Theorems.antt: right_stays (right levels stay right), made_anew (from the level below), old_stay and new_follow (the samples),
// lengths_stay, bytes_stay, nodes_stay and refused_leaves (all else stays), new_alone (what the written nodes depend on), pieces (in pieces as at once).
pub fn append(
    c: Capture,
    samples: &mut [u8],
    l1: &mut [Mask],
    l2: &mut [Mask],
    l3: &mut [Mask],
    l4: &mut [Mask],
    bytes: &[u8],
) -> Result<Capture, Refusal>
    ensures { Appends c bytes.now samples.old (level_of l1.old l2.old l3.old l4.old) result samples.new (level_of l1.new l2.new l3.new l4.new) }
{
    c.check(&lent(&samples[..], &l1[..], &l2[..], &l3[..], &l4[..]))?;
    let n = bytes.len() / c.unitsize;
    if c.capacity - c.len < n {
        return Err(Refusal::Full);
    }
    append_samples(samples, l1, l2, l3, l4, c.unitsize, c.len, n, bytes);
    Ok(Capture {
        len: c.len + n,
        ..c
    })
}
