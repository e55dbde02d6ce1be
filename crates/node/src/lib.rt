// Summary nodes: how two join, and where they stand in lent memory.
#![tactic(auto)]

ghost use Rattle.std.specs.Prelude.{◌≡◌, Bool, false, ◌+◌, ◌*◌, ◌/◌, ◌%◌, ◌≤◌, length};
ghost use Rattle.rules.specs.Node.{half, leaf, join, quiet, differs, cap_count, lines_of};
ghost use Rattle.rules.specs.Refusal.{node_size};
ghost use Rattle.node.specs.Told.{Told};
ghost use Rattle.node.specs.Memory.{as_node, node_in, put_node};
ghost use Rattle.node.specs.Lent.{levels_of};

use lines::Mask;

// 01's node, with the count of 02's CR 5; `mask` is its toggles.
#[derive(Clone, Copy, PartialEq, Eq)]
pub struct Node {
    pub first: Mask,
    pub last: Mask,
    pub mask: Mask,
    pub count: u32,
}

// Numbers a node takes in level memory.
pub const SIZE: usize = 5;

// The most that a count can be.
pub const MOST_COUNT: u32 = 4294967295;

// How many values each of a count's two numbers has.
const HALF: u32 = 65536;

// 1 where two samples differ, else 0.
pub fn border(x: Mask, y: Mask) -> u64
    ensures { (result ≡ differs x y) × (result ≤ 1) }
{
    if x == y { 0 } else { 1 }
}

// A sum as a count.
pub fn capped(sum: u64) -> u32
    ensures { result ≡ cap_count sum }
{
    if sum < MOST_COUNT as u64 {
        sum as u32
    } else {
        MOST_COUNT
    }
}

// Two counts and their border, added in 64 bits and cut once.
fn added(l: u32, r: u32, between: u64) -> u32
    requires { between ≤ 1 }
    ensures { result ≡ cap_count (l + r + between) }
{
    capped(l as u64 + r as u64 + between)
}

// The changes from the sample before a node to its last.
pub fn changes_to(before: Mask, n: Node) -> u64
    ensures { (result ≡ n.count + differs before n.first) × (result ≤ 4294967296) }
{
    n.count as u64 + border(before, n.first)
}

// A count from its two numbers.
fn count_of(low: Mask, high: Mask) -> u32
    ensures { result ≡ low + half * high }
{
    low as u32 + HALF * (high as u32)
}

// The low one, and the high one.
fn low_of(count: u32) -> Mask
    ensures { result ≡ count % half }
{
    (count % HALF) as u16
}

fn high_of(count: u32) -> Mask
    ensures { result ≡ count / half }
{
    (count / HALF) as u16
}

impl Node {
    // The node of one sample.
    pub fn leaf(v: Mask) -> Node
        ensures { as_node result ≡ leaf v }
    {
        Node {
            first: v,
            last: v,
            mask: 0,
            count: 0,
        }
    }

    pub fn join(self, b: Node) -> Node
        ensures { as_node result ≡ join (as_node self) (as_node b) }
    {
        Node {
            first: self.first,
            last: b.last,
            mask: self.mask | b.mask | (self.last ^ b.first),
            count: added(self.count, b.count, border(self.last, b.first)),
        }
    }

    // The same without the count, for who draws.
    pub fn join_lines(self, b: Node) -> Node
        ensures { Told false (as_node result) (join (as_node self) (as_node b)) }
    {
        Node {
            first: self.first,
            last: b.last,
            mask: self.mask | b.mask | (self.last ^ b.first),
            count: 0,
        }
    }

    // Its lines, with another count.
    pub fn with_count(self, count: u32) -> Node
        ensures { (lines_of (as_node result) ≡ lines_of (as_node self)) × (result.count ≡ count) }
    {
        Node {
            first: self.first,
            last: self.last,
            mask: self.mask,
            count,
        }
    }

    // No masked line changes from `before` to the node's first sample, nor inside the node.
    pub fn quiet(self, before: Mask, mask: Mask) -> bool
        ensures { result ≡ quiet (as_node self) before mask }
    {
        ((self.first ^ before) | self.mask) & mask == 0
    }
}

// Node j of a level.
pub fn node_in(level: &[Mask], j: usize) -> Node
    requires { j * node_size + node_size ≤ length level.now }
    ensures { as_node result ≡ node_in level.now j }
{
    let at = j * SIZE;
    Node {
        first: level[at],
        last: level[at + 1],
        mask: level[at + 2],
        count: count_of(level[at + 3], level[at + 4]),
    }
}

// Node j of a level is n.
pub fn put_node(level: &mut [Mask], j: usize, n: Node)
    requires { j * node_size + node_size ≤ length level.old }
    ensures { level.new ≡ put_node level.old j (as_node n) }
{
    let at = j * SIZE;
    level[at] = n.first;
    level[at + 1] = n.last;
    level[at + 2] = n.mask;
    level[at + 3] = low_of(n.count);
    level[at + 4] = high_of(n.count);
}

// The nodes of the levels 1 to 4, lent to be read.
#[derive(Clone, Copy)]
pub struct Levels<'a> {
    pub l1: &'a [Mask],
    pub l2: &'a [Mask],
    pub l3: &'a [Mask],
    pub l4: &'a [Mask],
}

impl<'a> Levels<'a> {
    // The nodes of a level.
    #[tactic(auto, unfolding(crate::specs::Memory::level_of))]
    pub fn level(&self, level: usize) -> &'a [Mask]
        ensures { result.now ≡ levels_of self.now level }
    {
        match level {
            0 | 1 => self.l1,
            2 => self.l2,
            3 => self.l3,
            _ => self.l4,
        }
    }
}

// A capture's memory, lent to be read.
#[derive(Clone, Copy)]
pub struct Memory<'a> {
    pub samples: &'a [u8],
    pub levels: Levels<'a>,
}
