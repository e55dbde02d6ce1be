// Nodes put into a level once samples stand at the places len to top. The node that place len lies in runs on: the new samples in its range join what it was,
// and those before are not read. The node of these samples is carried from level to level. The nodes behind it cover new samples alone: they are made from
// the samples of a chunk's part, and above level 1 from the level below.
#![tactic(auto)]

ghost use Rattle.std.specs.Prelude.{◌≡◌, ◌+◌, ◌-◌, ◌/◌, ◌^◌, ◌≤◌, ◌<◌, min, length};
ghost use Rattle.node.specs.Memory.{as_node, node_in};
ghost use Rattle.range.specs.Join.{made_over};
ghost use Rattle.range.specs.Part.{part_sample};
ghost use Rattle.rebuild.specs.Rebuild.{put_nodes, put_running, new_nodes, NodeJoined, JoinedAbove};
ghost use Rattle.rebuild.specs.Room.{NodeRoom, FirstRoom, JoinRoom, LevelRoom, RaiseRoom};

use level::{FAN, span};
use lines::Mask;
use node::{Node, node_in, put_node};
use range::{HALF_FAN, join_nodes, join_on, raw_node, raw_whole};

// The end of the 32 places from a on, of which top is the last that counts.
fn end_of(a: usize, top: usize) -> usize
    requires { (a ≤ top) × (top + 32 < 2 ^ 64) }
    ensures { result ≡ min (a + 32) (top + 1) }
{
    (a + FAN).min(top + 1)
}

// The node of level l that place len lies in, once n is the node of the samples in its range from place len on: they join what it was, if it was unfinished.
pub fn put_running(level: &mut [Mask], l: usize, len: usize, n: Node)
    requires { NodeRoom l len (length level.old) }
    ensures { level.new ≡ put_running level.old l len (as_node n) }
{
    let w = span(l);
    let j = len / w;
    if j * w < len {
        let kept = node_in(&level[..], j);
        put_node(level, j, kept.join(n));
    } else {
        put_node(level, j, n);
    }
}

// The node of level 1 that place len lies in, from the samples of a part that starts at place base. The answer is the node of the new ones in its range.
pub fn join_first(
    part: &[u8],
    level: &mut [Mask],
    unitsize: usize,
    base: usize,
    len: usize,
    top: usize,
) -> Node
    requires { JoinRoom unitsize base len top (length part.now) (length level.old) }
    ensures { NodeJoined (part_sample unitsize part.now base) len top 1 level.old level.new (as_node result) }
{
    let a = len / FAN * FAN;
    let b = end_of(a, top);
    let n = raw_node(part, unitsize, len - base, b - base, true);
    put_running(level, 1, len, n);
    n
}

// The nodes of level 1 from number first on, up to the one of place top, from the samples of a part that starts at place base.
// Whole nodes are made by a loop of their own, which is what long pushes spend their time on.
pub fn rebuild_new(
    part: &[u8],
    level: &mut [Mask],
    unitsize: usize,
    base: usize,
    first: usize,
    top: usize,
)
    requires { FirstRoom unitsize base first top (length part.now) (length level.old) }
    ensures { level.new ≡ new_nodes (part_sample unitsize part.now base) level.old first top 1 }
{
    let rest = rebuild_whole(part, level, unitsize, base, first, top);
    rebuild_each(part, level, unitsize, base, rest, top);
}

// The whole ones of these nodes. The others are left to make, from the number answered on.
fn rebuild_whole(
    part: &[u8],
    level: &mut [Mask],
    unitsize: usize,
    base: usize,
    first: usize,
    top: usize,
) -> usize
    requires { FirstRoom unitsize base first top (length part.now) (length level.old) }
    ensures { (first ≤ result) × (new_nodes (part_sample unitsize part.now base) level.new result top 1 ≡ new_nodes (part_sample unitsize part.now base) level.old first top 1) }
{
    let end = (top + 1) / FAN;
    // 16 wherever there is a whole node, as raw_whole asks.
    let half = part.len().min(HALF_FAN);
    for j in first..end {
        put_node(level, j, raw_whole(part, unitsize, j * FAN - base, half));
    }
    first.max(end)
}

// All of these nodes one by one, whole or partial.
fn rebuild_each(
    part: &[u8],
    level: &mut [Mask],
    unitsize: usize,
    base: usize,
    first: usize,
    top: usize,
)
    requires { FirstRoom unitsize base first top (length part.now) (length level.old) }
    ensures { level.new ≡ new_nodes (part_sample unitsize part.now base) level.old first top 1 }
{
    for j in first..top / FAN + 1 {
        let a = j * FAN;
        let b = end_of(a, top);
        put_node(level, j, raw_node(part, unitsize, a - base, b - base, true));
    }
}

// The nodes of a level from number first on, from the level below, whose last node is top.
fn rebuild_level(below: &[Mask], level: &mut [Mask], first: usize, top: usize)
    requires { LevelRoom top (length below.now) (length level.old) }
    ensures { level.new ≡ put_nodes (made_over (node_in below.now) top) level.old first (top / 32 + 1 - first) }
{
    for j in first..top / FAN + 1 {
        let a = j * FAN;
        let b = end_of(a, top);
        put_node(level, j, join_nodes(below, a, b));
    }
}

// Level l + 1, from level l, of which n is the node of the new samples in the node of place len. The nodes of level l behind that join n, as far as the node of
// place len of level l + 1 reaches: the answer is the node of the new samples in this one.
pub fn rebuild_above(
    below: &[Mask],
    level: &mut [Mask],
    l: usize,
    len: usize,
    top: usize,
    n: Node,
) -> Node
    requires { RaiseRoom l len top (length below.now) (length level.old) }
    ensures { JoinedAbove len top l below.now (as_node n) level.old level.new (as_node result) }
{
    let w = span(l);
    let first = len / w;
    let last = top / w;
    let j = first / FAN;
    let all = join_on(n, below, first + 1, end_of(j * FAN, last));
    put_running(level, l + 1, len, all);
    rebuild_level(below, level, j + 1, last);
    all
}
