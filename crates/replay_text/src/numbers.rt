// The numbers of a line: in decimal, with a space between two of them. Any bytes may be read.
ghost use Rattle.std.specs.Prelude.{◌≡◌, cond, min, ◌+◌, ◌%◌, ◌≤◌, ltb, drop};
ghost use Rattle.std.specs.Float.{binary64};
ghost use Rattle.std.specs.Float.Ieee.{of_bits};
ghost use Rattle.replay_text.specs.Numbers.{is_digit, with_digit, past_space, NumberAt, bits_of};

use lines::Mask;
use number::magnitude;

// A number, if there is one, and where the bytes after it start.
#[derive(Clone, Copy)]
pub struct Parsed {
    pub value: Option<usize>,
    pub next: usize,
}

#[tactic(auto, unfolding(crate::specs::Numbers::is_digit))]
fn is_digit(b: u8) -> bool
    ensures { result ≡ is_digit b }
{
    matches!(b, b'0'..=b'9')
}

// The value with one more digit, at most 2^64 − 1.
#[tactic(auto, unfolding(crate::specs::Numbers::with_digit))]
fn with_digit(value: usize, b: u8) -> usize
    requires { (48 ≤ b) × (b ≤ 57) }
    ensures { result ≡ with_digit value b }
{
    value.saturating_mul(10).saturating_add(usize::from(b - 48))
}

#[tactic(auto, unfolding(crate::specs::Numbers::past_space))]
fn past_space(line: &[u8], at: usize) -> usize
    ensures { result ≡ past_space line.now at }
{
    if at < line.len() && line[at] == b' ' {
        return at + 1;
    }
    at
}

// The number at a place of the line, or behind a space there.
pub fn number(line: &[u8], at: usize) -> Parsed
    ensures { NumberAt line.now at result }
{
    let start = past_space(line, at);
    let mut next = start;
    let mut value = 0;
    for i in start..line.len() {
        if !is_digit(line[i]) {
            break;
        }
        value = with_digit(value, line[i]);
        next = i + 1;
    }
    Parsed {
        value: (start < next).then_some(value),
        next,
    }
}

// A number as a mask or a sample.
pub fn mask_of(value: usize) -> Mask
    ensures { result ≡ value % 65536 }
{
    (value % 65536) as u16
}

// A number as a byte, at most 255.
pub fn byte_of(value: usize) -> u8
    ensures { result ≡ min value 255 }
{
    value.min(255) as u8
}

// The number that a position's bits make.
#[tactic(auto, unfolding(crate::specs::Numbers::bits_of))]
pub fn bits_of(p: i64) -> usize
    ensures { result ≡ bits_of p }
{
    if p < 0 {
        return usize::MAX - magnitude(p);
    }
    magnitude(p)
}

// The float that a number's bits make.
pub fn float_of(value: usize) -> f64
    ensures { result ≡ of_bits binary64 value }
{
    let bits = value as u64;
    if 0x7ff0_0000_0000_0000 < bits % 0x8000_0000_0000_0000 {
        return 0.0 / 0.0;
    }
    f64::from_bits(bits)
}
