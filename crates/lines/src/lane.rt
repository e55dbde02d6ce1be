// A sample in its own width: a unit's bytes, low byte first. A loop that takes many samples at once is written once over it, and counts in that width.
ghost use Rattle.std.specs.Prelude.{◌≡◌, ℕ, ◌+◌, ◌-◌, ◌^◌, ◌≤◌, ◌<◌, length};
ghost use Rattle.std.specs.Int.Bits.{bit_and, bit_or, bit_xor};
ghost use Rattle.std.proofs.Common.{rules};
ghost use Rattle.rules.specs.Sample.{UnitSize, sample_of};
ghost use Rattle.rules.specs.Node.{differs};
ghost use Rattle.lines.specs.Held.{Held};

use crate::{Mask, wide};

pub trait Lane: Copy {
    // its bytes
    ghost size: { ℕ };

    // its number
    ghost value: { Self → ℕ };

    // Sample i (01's s[i]).
    fn at(bytes: &[u8], i: usize) -> Self
        requires { Held size i (length bytes.now) }
        ensures { (value result ≡ sample_of size bytes.now i) × (value result < 256 ^ size) };

    // None of its lines.
    fn zero() -> Self
        ensures { value result ≡ 0 };

    fn wide(self) -> Mask
        ensures { result ≡ value self };

    fn or(self, other: Self) -> Self
        ensures { value result ≡ bit_or (value self) (value other) };

    fn and(self, other: Self) -> Self
        ensures { value result ≡ bit_and (value self) (value other) };

    fn xor(self, other: Self) -> Self
        ensures { value result ≡ bit_xor (value self) (value other) };

    // 1 where two samples differ, else 0.
    fn differs(self, other: Self) -> Self
        ensures { (value result ≡ differs (value self) (value other)) × (value result ≤ 1) };

    fn plus(self, other: Self) -> Self
        requires { value self + value other < 256 ^ size }
        ensures { value result ≡ value self + value other };

    fn minus(self, other: Self) -> Self
        requires { value other ≤ value self }
        ensures { value result ≡ value self - value other };

    // its bytes are a unit
    ghost unit: { UnitSize size };
}

impl Lane for u8 {
    ghost size = { 1 };

    ghost value = { λ x. x };

    ghost unit = { Prim.search rules };

    #[tactic(auto, using(rules::proofs::Sample::byte_sample))]
    fn at(bytes: &[u8], i: usize) -> u8 {
        bytes[i]
    }

    fn zero() -> u8 {
        0
    }

    fn wide(self) -> Mask {
        wide(self)
    }

    fn or(self, other: u8) -> u8 {
        self | other
    }

    fn and(self, other: u8) -> u8 {
        self & other
    }

    fn xor(self, other: u8) -> u8 {
        self ^ other
    }

    fn differs(self, other: u8) -> u8 {
        if self == other { 0 } else { 1 }
    }

    fn plus(self, other: u8) -> u8 {
        self + other
    }

    fn minus(self, other: u8) -> u8 {
        self - other
    }
}

impl Lane for u16 {
    ghost size = { 2 };

    ghost value = { λ x. x };

    ghost unit = { Prim.search rules };

    #[tactic(auto, unfolding(rules::specs::Sample::sample_of))]
    fn at(bytes: &[u8], i: usize) -> u16 {
        wide(bytes[i * 2]) + 256 * wide(bytes[i * 2 + 1])
    }

    fn zero() -> u16 {
        0
    }

    fn wide(self) -> Mask {
        self
    }

    fn or(self, other: u16) -> u16 {
        self | other
    }

    fn and(self, other: u16) -> u16 {
        self & other
    }

    fn xor(self, other: u16) -> u16 {
        self ^ other
    }

    fn differs(self, other: u16) -> u16 {
        if self == other { 0 } else { 1 }
    }

    fn plus(self, other: u16) -> u16 {
        self + other
    }

    fn minus(self, other: u16) -> u16 {
        self - other
    }
}
