// The node of a range, from samples or from nodes of a level.
#![tactic(auto)]

mod halves;

ghost use Rattle.std.specs.Prelude.{◌≡◌, true, false, ◌+◌, ◌-◌, ◌*◌, ◌≤◌, ◌<◌, length};
ghost use Rattle.rules.specs.Node.{node_of, lines_of};
ghost use Rattle.rules.specs.Refusal.{node_size};
ghost use Rattle.rules.specs.Sample.{sample_of};
ghost use Rattle.node.specs.Memory.{as_node, node_in};
ghost use Rattle.node.specs.Told.{Told};
ghost use Rattle.range.specs.Join.{join_over, join_on};
ghost use Rattle.range.specs.Part.{RangeIn, NodesIn};

use halves::both;
use lines::lane::Lane;
use lines::{Mask, get};
use node::{Node, border, capped, changes_to, node_in};

// The node of the samples a to b, b not among them; its count where that is asked for. Lines and count have a loop each: who draws pays for the lines alone.
pub fn raw_node(part: &[u8], unitsize: usize, a: usize, b: usize, counted: bool) -> Node
    requires { RangeIn unitsize a b (length part.now) }
    ensures { Told counted (as_node result) (node_of (sample_of unitsize part.now) a b) }
{
    let lines = raw_lines(part, unitsize, a, b);
    if counted {
        lines.with_count(raw_count(part, unitsize, a, b))
    } else {
        lines
    }
}

// Its count.
fn raw_count(part: &[u8], unitsize: usize, a: usize, b: usize) -> u32
    requires { RangeIn unitsize a b (length part.now) }
    ensures { result ≡ (node_of (sample_of unitsize part.now) a b).count }
{
    let mut last = get(part, unitsize, a);
    let mut count: u64 = 0;
    for i in a + 1..b {
        let v = get(part, unitsize, i);
        count += border(v, last);
        last = v;
    }
    capped(count)
}

// Its lines: those in which any sample differs from the first are those that change between neighbours.
fn raw_lines(part: &[u8], unitsize: usize, a: usize, b: usize) -> Node
    requires { RangeIn unitsize a b (length part.now) }
    ensures { lines_of (as_node result) ≡ lines_of (node_of (sample_of unitsize part.now) a b) }
{
    if unitsize == 1 {
        raw_in::<u8>(part, a, b)
    } else {
        raw_in::<u16>(part, a, b)
    }
}

// The same, in a unit's own width.
fn raw_in<L: Lane>(part: &[u8], a: usize, b: usize) -> Node
    requires { RangeIn L.size a b (length part.now) }
    ensures { lines_of (as_node result) ≡ lines_of (node_of (sample_of L.size part.now) a b) }
{
    let first = L::at(part, a);
    let mut mask = L::zero();
    for i in a..b {
        mask = mask.or(L::at(part, i).xor(first));
    }
    Node {
        first: first.wide(),
        last: L::at(part, b - 1).wide(),
        mask: mask.wide(),
        count: 0,
    }
}

// The places of a half of a whole node.
pub const HALF_FAN: usize = 16;

// The node of the 32 samples from place a on: the changes at 16 places and at 16 more, of which one is the same.
// half is 16: a number that the compiler does not know, so that it takes the samples by vectors.
pub fn raw_whole(part: &[u8], unitsize: usize, a: usize, half: usize) -> Node
    requires { (half ≡ 16) × RangeIn unitsize a (a + 32) (length part.now) }
    ensures { as_node result ≡ node_of (sample_of unitsize part.now) a (a + 32) }
{
    let halves = both(part, unitsize, a, half);
    let twice = border(get(part, unitsize, a + 16), get(part, unitsize, a + 15));
    Node {
        first: get(part, unitsize, a),
        last: get(part, unitsize, a + 31),
        mask: halves.mask,
        count: capped(halves.count - twice),
    }
}

// The nodes a to b, b not among them, of a level joined.
#[tactic(auto, using(crate::proofs::Joins::over_all))]
pub fn join_nodes(below: &[Mask], a: usize, b: usize) -> Node
    requires { (a < b) × NodesIn a b (length below.now) }
    ensures { as_node result ≡ join_over (node_in below.now) a (b - 1 - a) }
{
    join_on(node_in(below, a), below, a + 1, b)
}

// Their lines.
#[tactic(auto, using(crate::proofs::Joins::over_all))]
pub fn join_lines(below: &[Mask], a: usize, b: usize) -> Node
    requires { (a < b) × NodesIn a b (length below.now) }
    ensures { Told false (as_node result) (join_over (node_in below.now) a (b - 1 - a)) }
{
    lines_on(node_in(below, a), below, a + 1, b)
}

// Their count, where it is asked for.
#[tactic(auto, using(crate::proofs::Joins::over_all))]
pub fn join_count(below: &[Mask], a: usize, b: usize, counted: bool) -> u32
    requires { (a < b) × NodesIn a b (length below.now) }
    ensures { counted ≡ true → result ≡ (join_over (node_in below.now) a (b - 1 - a)).count }
{
    if counted {
        count_on(node_in(below, a), below, a + 1, b)
    } else {
        0
    }
}

// The nodes from number from on, up to b, join n. Lines and count have a loop each: who draws pays for the lines alone.
pub fn join_on(n: Node, below: &[Mask], from: usize, b: usize) -> Node
    requires { (from ≤ b) × NodesIn from b (length below.now) }
    ensures { as_node result ≡ join_on (as_node n) (node_in below.now) from (b - from) }
{
    let lines = lines_on(n, below, from, b);
    lines.with_count(count_on(n, below, from, b))
}

// Their count: added in 64 bits and cut once.
fn count_on(n: Node, below: &[Mask], from: usize, b: usize) -> u32
    requires { (from ≤ b) × NodesIn from b (length below.now) }
    ensures { result ≡ (join_on (as_node n) (node_in below.now) from (b - from)).count }
{
    let mut sum = n.count as u64;
    let mut last = n;
    for i in from..b {
        let m = node_in(below, i);
        sum += changes_to(last.last, m);
        last = m;
    }
    capped(sum)
}

// Their lines: four nodes a turn.
fn lines_on(n: Node, below: &[Mask], from: usize, b: usize) -> Node
    requires { (from ≤ b) × NodesIn from b (length below.now) }
    ensures { Told false (as_node result) (join_on (as_node n) (node_in below.now) from (b - from)) }
{
    let mut acc = n;
    let mut i = from;
    while i + 3 < b {
        acc = lines_four(acc, below, i);
        i += 4;
    }
    lines_rest(acc, below, i, b)
}

// The four nodes from number i on join n.
fn lines_four(n: Node, below: &[Mask], i: usize) -> Node
    requires { (i + 4) * node_size ≤ length below.now }
    ensures { Told false (as_node result) (join_on (as_node n) (node_in below.now) i 4) }
{
    let n1 = n.join_lines(node_in(below, i));
    let n2 = n1.join_lines(node_in(below, i + 1));
    let n3 = n2.join_lines(node_in(below, i + 2));
    n3.join_lines(node_in(below, i + 3))
}

// The same, one a turn.
fn lines_rest(n: Node, below: &[Mask], from: usize, b: usize) -> Node
    requires { (from ≤ b) × (b * node_size ≤ length below.now) }
    ensures { Told false (as_node result) (join_on (as_node n) (node_in below.now) from (b - from)) }
{
    let mut acc = n;
    for i in from..b {
        acc = acc.join_lines(node_in(below, i));
    }
    acc
}
