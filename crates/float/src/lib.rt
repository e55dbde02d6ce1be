// Binary64 numbers: floors, ceilings and roundings to whole numbers, at places and as counts of samples. 01: Burst and render, Selection and recorder.
#![tactic(auto)]

ghost use Rattle.std.specs.Prelude.{◌≡◌, ◌/◌, ◌^◌, ◌≤◌, ◌<◌, T, pos};
ghost use Rattle.std.specs.Float.Ieee.{is_nan};
ghost use Rattle.std.specs.Float.Ieee.Positive.{num, den, positive};
ghost use Rattle.std.specs.Float.Ieee.Scale.{finite};
ghost use Rattle.rules.specs.Floor.{floor_of, nearest_of, natural};
ghost use Rattle.rules.specs.Pixel.{moved};
ghost use Rattle.rules.specs.Refusal.{most_samples};
ghost use Rattle.rules.specs.Pretrigger.{seconds, clamp, fraction_of, pre_for};
ghost use Rattle.float.specs.Places.{place_of};
ghost use Rattle.float.specs.Sizes.{Under, Shiftable, ceil_of};
ghost use Rattle.float.specs.Samples.{kept_as};

use number::MOST_SAMPLES;
use std::num::{saturating_f64_to_u64, truncating_f64_to_u64};

// Where a floor lies among the places 0..hi.
#[derive(Clone, Copy)]
pub enum Place {
    Below,
    At(u64),
    Beyond,
}

// The samples kept before the trigger, and whether the cap cut them.
#[derive(Clone, Copy)]
pub struct Kept {
    pub samples: u64,
    pub cut: bool,
}

pub fn is_nan(x: f64) -> bool
    ensures { result ≡ is_nan x }
{
    x.is_nan()
}

#[tactic(auto, using(crate::proofs::Floors::finite_is))]
pub fn is_finite(x: f64) -> bool
    ensures { result ≡ finite x }
{
    x.is_finite()
}

// The floor of x: its digits, with the leading one put back, shifted down.
// The library's cast asks once more how large x is: with it a pixel's edges took a quarter longer.
fn shifted(x: f64) -> u64
    requires { Shiftable x }
    ensures { result ≡ num x / den x }
{
    let bits = x.to_bits();
    let exponent = bits >> 52;
    let digits = (bits & 0xf_ffff_ffff_ffff) | 0x10_0000_0000_0000;
    digits >> (1075 - exponent)
}

// ceil(y): one more than the floor where anything is left.
// Out of line: few edges lie before the origin, and the others are found a sixth faster.
#[inline(never)]
fn ceiling(y: f64) -> u64
    requires above { T (positive y) }
    requires small { Under (2 ^ 53) y }
    ensures { result ≡ ceil_of y }
{
    let n = truncating_f64_to_u64(y);
    if y <= (n as f64) { n } else { n + 1 }
}

// Where the floor of x, counted from origin, lies among the places 0..hi; a NaN counts as below.
// The floor is taken of x itself: x + origin could round.
pub fn floor_in(x: f64, origin: u64, hi: u64) -> Place
    requires counts { origin ≤ hi }
    requires few { hi ≤ most_samples }
    ensures { result ≡ place_of (moved (pos origin) (floor_of x)) hi }
{
    if x >= 1.0 {
        if x < ((hi - origin) as f64) {
            return Place::At(shifted(x) + origin);
        }
        return Place::Beyond;
    }
    if x >= 0.0 {
        return if origin < hi {
            Place::At(origin)
        } else {
            Place::Beyond
        };
    }
    let y = -x;
    if y <= (origin as f64) {
        return Place::At(origin - ceiling(y));
    }
    Place::Below
}

// The whole number nearest to x, a half up, 0 where that is negative.
#[tactic(auto, using(crate::proofs::Floors::nearest_is))]
fn nearest(x: f64) -> u64
    requires { Under (2 ^ 52) x }
    ensures { result ≡ natural (nearest_of x) }
{
    saturating_f64_to_u64(x.round())
}

// p brought into 0..top; a NaN gives 0. No max and min: of 0 and −0 they may give either.
pub fn clamped(top: f64, p: f64) -> f64
    ensures { result ≡ clamp top p }
{
    if 0.0 < p {
        if p < top { p } else { top }
    } else {
        0.0
    }
}

// floor(limit × p), p clamped to 0..0.99.
pub fn fraction_samples(limit: u64, p: f64) -> u64
    requires { limit ≤ most_samples }
    ensures { result ≡ fraction_of limit p }
{
    saturating_f64_to_u64((limit as f64) * clamped(0.99, p))
}

// t seconds, clamped to 0..1, at a rate: rounded, and at most 67,108,864 / unit.
pub fn seconds_samples(t: f64, rate: u64, unit: u64) -> Kept
    requires slow { rate ≤ 1000000000 }
    requires some { 0 < unit }
    ensures { kept_as result ≡ pre_for (seconds t) 0 rate unit }
{
    let wanted = nearest((rate as f64) * clamped(1.0, t));
    let cap = (MOST_SAMPLES as u64) / unit;
    Kept {
        samples: wanted.min(cap),
        cut: cap < wanted,
    }
}
