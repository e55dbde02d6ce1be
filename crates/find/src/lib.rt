// A search within one chunk: 01's walk over the nodes that memory holds, in runs of nodes of one level.
// Places are the capture's; the chunk's samples are lent as their part of sample memory, levels are lent whole.
// `back` says which way, as the rules' definitions do: forward and backward are one loop, the source's find_fwd and find_back.
#![tactic(auto)]

pub mod part;

ghost use Rattle.std.specs.Prelude.{◌≡◌, true, false, ◌+◌, ◌-◌, ◌*◌, ◌/◌, ◌≤◌, ◌<◌};
ghost use Rattle.rules.specs.Node.{mirror, top_level, chunk};
ghost use Rattle.rules.specs.Walk.{walk_from};
ghost use Rattle.answer.specs.Answered.{counted_of};
ghost use Rattle.capture.specs.Backed.{Bytes};
ghost use Rattle.node.specs.Memory.{as_node};
ghost use Rattle.find.specs.Run.{nth_node, Run};
ghost use Rattle.find.specs.Row.{row_node, NodeIn, NthIn, RunIn};
ghost use Rattle.find.specs.Way.{moved, left_in, to_border, number_in};
ghost use Rattle.find.specs.Takes.{walk_in, Took};
ghost use Rattle.find.specs.Near.{few, Near};

use answer::Counted;
use level::{FAN, LEVELS};
use lines::Mask;
use node::Node;
use part::Part;

// Nodes passed: how many, and the value that the last of them ends with.
#[derive(Clone, Copy)]
struct Passed {
    count: usize,
    value: Mask,
}

// The nodes of one level; those of level 0 are the samples, of a part or of a whole capture, and then `level` is not read. No enum of the two: a walk
// asks for a level by its number.
#[derive(Clone, Copy)]
pub struct Row<'a> {
    pub unitsize: usize,
    pub samples: &'a [u8],
    pub level: &'a [Mask],
    pub l: usize,
}

// The node read from its other end.
fn mirror(n: Node) -> Node
    ensures { as_node result ≡ mirror (as_node n) }
{
    Node {
        first: n.last,
        last: n.first,
        ..n
    }
}

impl<'a> Row<'a> {
    // Node i.
    #[tactic(auto, unfolding(crate::specs::Run::node_at))]
    fn node(&self, i: usize) -> Node
        requires { NodeIn self.now i }
        ensures { as_node result ≡ row_node self.now i }
    {
        if self.l == 0 {
            return Node::leaf(lines::get(self.samples, self.unitsize, i));
        }
        node::node_in(self.level, i)
    }

    // The node after k others from number `from` on, or before k others from there down; its near end is its first.
    pub fn nth(&self, back: bool, from: usize, k: usize) -> Node
        requires { NthIn self.now back from k }
        ensures { as_node result ≡ nth_node back (row_node self.now) from k }
    {
        if back {
            return mirror(self.node(from - (k + 1)));
        }
        self.node(from + k)
    }

    // How many of n nodes can be passed, up to the first that is not quiet; before is the value before them.
    // One loop for samples and nodes, forward and backward: what does not change in it is asked once, outside. A struct handed over by reference
    // goes through memory, run by run: inlined it stays in registers.
    #[inline(always)]
    fn run(&self, back: bool, from: usize, n: usize, before: Mask, mask: Mask) -> Passed
        requires { RunIn self.now back from n }
        ensures { Run (nth_node back (row_node self.now) from) mask before n result.count result.value }
    {
        let mut value = before;
        for k in 0..n {
            let m = self.nth(back, from, k);
            if !m.quiet(value, mask) {
                return Passed { count: k, value };
            }
            value = m.last;
        }
        Passed { count: n, value }
    }
}

// The place d samples on.
pub fn moved(back: bool, pos: usize, d: usize) -> usize
    requires { (back ≡ true → d ≤ pos) × (back ≡ false → pos + d < 18446744073709551616) }
    ensures { result ≡ moved back pos d }
{
    if back { pos - d } else { pos + d }
}

// How many samples of a part are left to look at.
fn left(back: bool, base: usize, hi: usize, pos: usize) -> usize
    requires { (base ≤ pos) × (pos ≤ hi) }
    ensures { result ≡ left_in back base hi pos }
{
    if back { pos - base } else { hi - pos }
}

// How many nodes there are from number q to the next border of the level above: until there no higher level is taken.
fn to_border(back: bool, q: usize) -> usize
    ensures { result ≡ to_border back q }
{
    if back {
        (q % FAN + (FAN - 1)) % FAN + 1
    } else {
        FAN - q % FAN
    }
}

// The number by which a level, whose nodes have s samples, knows place pos: a sample's in the part, or a node's.
fn number(base: usize, l: usize, s: usize, pos: usize) -> usize
    requires { (base ≤ pos) × (1 ≤ s) }
    ensures { result ≡ number_in base l s pos }
{
    if l == 0 { pos - base } else { pos / s }
}

// A level taken: which, the samples of its nodes, how many nodes were asked, how many passed, and the value after these.
#[derive(Clone, Copy)]
pub struct Taken {
    pub l: usize,
    pub s: usize,
    pub n: usize,
    pub count: usize,
    pub value: Mask,
}

// At pos, takes the highest level up to maxl that fits, and passes what can be passed of a run of its nodes.
pub fn take(part: &Part<'_>, back: bool, mask: Mask, pos: usize, maxl: usize, before: Mask) -> Taken
    requires { (part.now.base ≤ pos) × (pos ≤ part.now.hi) × (1 ≤ left_in back part.now.base part.now.hi pos) × (maxl ≤ top_level) }
    ensures { Took part.now back mask pos maxl before result }
{
    let room = left(back, part.base, part.hi, pos);
    let l = level::best_level(pos, room, maxl);
    let s = level::span(l);
    let n = to_border(back, pos / s).min(room / s);
    let from = number(part.base, l, s, pos);
    let row = Row {
        unitsize: part.unitsize,
        samples: part.samples,
        level: part.levels.level(l),
        l,
    };
    let r = row.run(back, from, n, before, mask);
    Taken {
        l,
        s,
        n,
        count: r.count,
        value: r.value,
    }
}

// The first place of the part from start on at which a masked line changes, before being the value before it;
// backward the last one up to start and above base, before being the value at start. The part is a chunk's, so the count fits.
pub fn find(part: &Part<'_>, back: bool, mask: Mask, start: usize, before: Mask) -> Counted<usize>
    requires { (part.now.base ≤ start) × (start ≤ part.now.hi) × (part.now.hi ≤ part.now.base + chunk) }
    ensures { counted_of result ≡ walk_from (walk_in part.now back) mask start before }
{
    let mut pos = start;
    let mut room = left(back, part.base, part.hi, start);
    let mut maxl = LEVELS;
    let mut value = before;
    let mut count = 0;
    while 0 < room {
        let t = take(part, back, mask, pos, maxl, value);
        let d = t.count * t.s;
        pos = moved(back, pos, d);
        room -= d;
        value = t.value;
        count += t.count;
        if t.count < t.n {
            count += 1; // the node that stopped the run was read too
            if t.l == 0 {
                return Counted {
                    found: Some(pos),
                    steps: count,
                };
            }
            maxl = t.l - 1; // never raised again in this chunk
        }
    }
    Counted {
        found: None,
        steps: count,
    }
}

// How many samples are looked at before anything else.
const FEW: usize = 8;

// How many samples there are from pos to the next border of a level, a few at most.
fn few(back: bool, pos: usize) -> usize
    ensures { result ≡ few back pos }
{
    if pos % FAN == 0 {
        return 0;
    }
    to_border(back, pos).min(FEW)
}

// The find of a capture of len samples, where it is one of the next few: with dense changes nothing more is looked at.
// What it finds is the walk's, and so is the count (proofs/Samples.antt, near_finds); where it finds nothing the walk starts anew, and it
// counts nothing. It asks for the samples' bytes alone.
pub fn near(
    samples: &[u8],
    unitsize: usize,
    len: usize,
    back: bool,
    mask: Mask,
    start: usize,
    before: Mask,
) -> Counted<usize>
    requires { Bytes unitsize len samples.now × (start ≤ len) }
    ensures { Near unitsize len samples.now back mask start before (counted_of result) }
{
    let row = Row {
        unitsize,
        samples,
        level: &[],
        l: 0,
    };
    let n = few(back, start).min(left(back, 0, len, start));
    let r = row.run(back, start, n, before, mask);
    if r.count < n {
        return Counted {
            found: Some(moved(back, start, r.count)),
            steps: r.count + 1, // the sample that is found was read too
        };
    }
    Counted {
        found: None,
        steps: 0,
    }
}
