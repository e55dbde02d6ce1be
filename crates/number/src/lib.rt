// Numbers that crates share.
#![tactic(auto)]

ghost use Rattle.std.specs.Prelude.{◌≡◌, ◌<◌, ◌^◌};
ghost use Rattle.std.proofs.Math.IntN.{sub_ℕ};
ghost use Rattle.std.specs.Int.Signed.{mag};

// 01: the largest capacity of a store, and the most bytes that seconds keep before a trigger.
pub const MOST_SAMPLES: usize = 67108864;

// How far p is from 0 or, where it is negative, from −1: the smallest number has no opposite.
pub fn magnitude(p: i64) -> usize
    ensures { result ≡ mag p }
{
    if p < 0 { (-1 - p) as usize } else { p as usize }
}

// The signed difference of two numbers.
pub fn difference(a: usize, b: usize) -> i64
    requires { (a < 2 ^ 63) × (b < 2 ^ 63) }
    ensures { result ≡ sub_ℕ a b }
{
    a as i64 - b as i64
}
