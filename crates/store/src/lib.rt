// Samples join the stored ones in lent memory, and the nodes above them are made. The calls that store are above.
#![tactic(auto)]

ghost use Rattle.std.specs.Prelude.{◌≡◌, ◌++◌, ◌+◌, ◌/◌, ◌%◌, ◌≤◌, length};
ghost use Rattle.std.proofs.Math.Seq.{paste};
ghost use Rattle.rules.specs.Node.{span};
ghost use Rattle.rules.specs.Sample.{sample_of};
ghost use Rattle.node.specs.Memory.{as_node, level_of};
ghost use Rattle.rebuild.specs.Rebuild.{new_nodes, NodeJoined};
ghost use Rattle.store.specs.Stored.{LevelsAfter, Stored};
ghost use Rattle.store.specs.Room.{ChunksRoom, StoreRoom, AppendRoom, PartsRoom};

use level::{CHUNK, FAN};
use lines::Mask;
use node::Node;
use rebuild::{join_first, put_running, rebuild_above, rebuild_new};

// n samples of the bytes join the len stored ones, and the nodes of every level above them are made.
// Slices that are written to come one by one, here and above: a struct of `&mut` shows its ends in a clause as nested pairs only.
pub fn append_samples(
    samples: &mut [u8],
    l1: &mut [Mask],
    l2: &mut [Mask],
    l3: &mut [Mask],
    l4: &mut [Mask],
    unitsize: usize,
    len: usize,
    n: usize,
    bytes: &[u8],
)
    requires { AppendRoom unitsize len n (length samples.old) (level_of l1.old l2.old l3.old l4.old) (length bytes.now) }
    ensures { Stored unitsize len n bytes.now samples.old (level_of l1.old l2.old l3.old l4.old) samples.new (level_of l1.new l2.new l3.new l4.new) }
{
    copy_at(samples, len * unitsize, &bytes[..n * unitsize]);
    rebuild_levels(&samples[..], l1, l2, l3, l4, unitsize, len, n);
}

// The same with n samples that come in three runs of bytes, one behind the other.
pub fn append_parts(
    samples: &mut [u8],
    l1: &mut [Mask],
    l2: &mut [Mask],
    l3: &mut [Mask],
    l4: &mut [Mask],
    unitsize: usize,
    len: usize,
    n: usize,
    a: &[u8],
    b: &[u8],
    c: &[u8],
)
    requires { PartsRoom unitsize len n (length samples.old) (level_of l1.old l2.old l3.old l4.old) (length a.now) (length b.now) (length c.now) }
    ensures { Stored unitsize len n (a.now ++ b.now ++ c.now) samples.old (level_of l1.old l2.old l3.old l4.old) samples.new (level_of l1.new l2.new l3.new l4.new) }
{
    let first = len * unitsize;
    let second = first + a.len();
    let third = second + b.len();
    copy_at(samples, first, a);
    copy_at(samples, second, b);
    copy_at(samples, third, c);
    rebuild_levels(&samples[..], l1, l2, l3, l4, unitsize, len, n);
}

// The bytes of src go to dst, from at on. Nothing is copied without a call: an unarmed recorder's push brings two runs of none.
pub fn copy_at(dst: &mut [u8], at: usize, src: &[u8])
    requires { at + length src.now ≤ length dst.old }
    ensures { dst.new ≡ paste dst.old at src.now (length src.now) }
{
    if !src.is_empty() {
        dst[at..at + src.len()].copy_from_slice(src);
    }
}

// n samples stand behind the first len: every node that covers one of them is made, level by level. From each level the node of the new samples
// that join its unfinished node is carried to the next. Short pushes mostly lie in one node of level 1: there it is the same at every level.
pub fn rebuild_levels(
    samples: &[u8],
    l1: &mut [Mask],
    l2: &mut [Mask],
    l3: &mut [Mask],
    l4: &mut [Mask],
    unitsize: usize,
    len: usize,
    n: usize,
)
    requires { StoreRoom unitsize len n (length samples.now) (level_of l1.old l2.old l3.old l4.old) }
    ensures { LevelsAfter unitsize len n samples.now (level_of l1.old l2.old l3.old l4.old) (level_of l1.new l2.new l3.new l4.new) }
{
    if n == 0 {
        return;
    }
    let top = len + n - 1;
    let first = join_lowest(samples, l1, unitsize, len, top);
    if len / FAN == top / FAN {
        put_running(l2, 2, len, first);
        put_running(l3, 3, len, first);
        put_running(l4, 4, len, first);
        return;
    }
    rebuild_chunks(samples, l1, unitsize, len / FAN * FAN + FAN, top);
    let second = rebuild_above(&l1[..], l2, 1, len, top, first);
    let third = rebuild_above(&l2[..], l3, 2, len, top, second);
    rebuild_above(&l3[..], l4, 3, len, top, third);
}

// The node of level 1 that place len lies in, from its chunk's part of the samples. The answer is the node of the new ones in its range.
fn join_lowest(samples: &[u8], l1: &mut [Mask], unitsize: usize, len: usize, top: usize) -> Node
    requires { ChunksRoom unitsize len top (length samples.now) (length l1.old) }
    ensures { NodeJoined (sample_of unitsize samples.now) len top 1 l1.old l1.new (as_node result) }
{
    let base = len - len % CHUNK;
    let stop = (base + CHUNK).min(top + 1);
    let part = &samples[base * unitsize..stop * unitsize];
    join_first(part, l1, unitsize, base, len, stop - 1)
}

// The nodes of level 1 from place from on, where one begins, up to place top, each chunk's from its part of the samples.
fn rebuild_chunks(samples: &[u8], l1: &mut [Mask], unitsize: usize, from: usize, top: usize)
    requires { (from % span 1 ≡ 0) × ChunksRoom unitsize from top (length samples.now) (length l1.old) }
    ensures { l1.new ≡ new_nodes (sample_of unitsize samples.now) l1.old (from / span 1) top 1 }
{
    let mut p = from;
    while p <= top {
        let base = p - p % CHUNK;
        let stop = (base + CHUNK).min(top + 1);
        let part = &samples[base * unitsize..stop * unitsize];
        rebuild_new(part, l1, unitsize, base, p / FAN, stop - 1);
        p = stop;
    }
}
