// Signed numbers: each function has a contract over the whole numbers for every input.
ghost use Rattle.std.specs.Prelude.{◌≡◌, ◌&&◌, ◌≤◌, ◌^◌, pos, ◌+ℤ◌, ◌*ℤ◌, [], ◌∷◌};
ghost use Rattle.std.specs.Int.Signed.{le_z};
ghost use Rattle.value.specs.Integer.{narrow32, narrow16 as narrow16_z, nearest, round_z, bytes_z, high_byte, low_byte};
ghost use Rattle.value.specs.Value.{apply_z, compare_z, combine};
ghost use Rattle.value.specs.Machine.{operation_of, comparison_of, aggregate_of};

use super::operator::{Aggregate, Comparison, Operation};

// n times x.
// Refused: x × x; n × n.
pub fn times(n: u32, x: i32) -> i64
    ensures { result ≡ pos n *ℤ x }
{
    i64::from(n) * i64::from(x)
}

// Whether x lies from lo to hi.
// Refused: hi for lo; lo for hi.
pub fn between(x: i64, lo: i32, hi: i32) -> bool
    ensures { result ≡ le_z lo x && le_z x hi }
{
    i64::from(lo) <= x && x <= i64::from(hi)
}

// x itself if 32 bits hold it, else 0.
// Refused: 2^31 kept; -2^31 lost.
pub fn narrow(x: i64) -> i32
    ensures { result ≡ narrow32 x }
{
    i32::try_from(x).unwrap_or(0)
}

// x itself if 16 bits hold it, else 0.
// Refused: 2^15 kept; -2^15 lost.
pub fn narrow16(x: i32) -> i16
    ensures { result ≡ narrow16_z x }
{
    i16::try_from(x).unwrap_or(0)
}

// Refused: b - a; a + a.
pub fn operate(operation: Operation, a: i32, b: i32) -> i64
    ensures { result ≡ apply_z (operation_of operation) a b }
{
    let x = i64::from(a);
    let y = i64::from(b);
    match operation {
        Operation::Sum => x + y,
        Operation::Difference => x - y,
        Operation::Product => x * y,
    }
}

// Refused: b < a; b <= a.
pub fn compare(comparison: Comparison, a: i32, b: i32) -> bool
    ensures { result ≡ compare_z (comparison_of comparison) a b }
{
    match comparison {
        Comparison::Equal => a == b,
        Comparison::Less => a < b,
        Comparison::LessOrEqual => a <= b,
    }
}

// What two numbers come to in an aggregate.
// Refused: the lesser of a and a; a + a.
pub(crate) fn combined(kind: Aggregate, a: i32, b: i32) -> i32
    ensures { result ≡ narrow32 (combine (aggregate_of kind) a b) }
{
    match kind {
        Aggregate::Count | Aggregate::Sum => narrow(operate(Operation::Sum, a, b)),
        Aggregate::Minimum => a.min(b),
        Aggregate::Maximum => a.max(b),
    }
}

// The number n above x.
// Refused: x + x; n + n.
pub fn offset(x: i16, n: u32) -> i64
    ensures { result ≡ x +ℤ pos n }
{
    i64::from(x) + i64::from(n)
}

// The multiple of m nearest to n, the upper one at a half; 0 where m is 0.
fn near(n: u64, m: u16) -> u64
    requires { n ≤ 2 ^ 31 }
    ensures { result ≡ nearest m n }
{
    if m == 0 {
        return 0;
    }
    let k = u64::from(m);
    let q = n / k;
    if 2 * (n % k) < k { q * k } else { (q + 1) * k }
}

// The multiple of m nearest to x, the one away from 0 at a half; 0 where m is 0.
// Refused: the sign turned round; nothing rounded.
pub fn round(x: i32, m: u16) -> i64
    ensures { result ≡ round_z m x }
{
    // at most 33 bits; no From leads from 64 bits without a sign to 64 with one
    let n = near(u64::from(x.unsigned_abs()), m) as i64;
    if x < 0 { -n } else { n }
}

// Two's complement, high byte first.
// Refused: low byte first; 255 for 256.
pub fn from_bytes(high: u8, low: u8) -> i16
    ensures { result ≡ bytes_z high low }
{
    i16::from_be_bytes([high, low])
}

// Refused: the low byte as high; the high byte as low.
pub fn to_bytes(x: i16) -> [u8; 2]
    ensures { result ≡ high_byte x ∷ low_byte x ∷ [] }
{
    x.to_be_bytes()
}
