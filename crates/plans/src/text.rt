// Text put together from its last part to its first: the digits of a number come from the last to the first, and so are written
// where they belong.
ghost use Rattle.std.specs.Prelude.{◌≡◌, ◌+◌, ◌≤◌, ◌++◌, drop, length, IsAscii};
ghost use Rattle.std.specs.Fmt.{decimal, signed_decimal};

// The bytes, in front of what stands from `at` on, and where they start.
#[inline]
pub fn bytes_before(text: &mut [u8], at: usize, bytes: &[u8]) -> usize
    requires room { length bytes.now ≤ at }
    requires inside { at ≤ length text.old }
    ensures start { result + length bytes.now ≡ at }
    ensures written { drop result text.new ≡ bytes.now ++ drop at text.old }
    ensures ascii { IsAscii bytes.now → IsAscii (drop at text.old) → IsAscii (drop result text.new) }
{
    let start = at - bytes.len();
    text[start..at].copy_from_slice(bytes);
    start
}

// The number in decimal digits.
#[inline]
pub fn number_before(text: &mut [u8], at: usize, n: u64) -> usize
    requires room { 20 ≤ at }
    requires inside { at ≤ length text.old }
    ensures start { result + length (decimal n) ≡ at }
    ensures short { at ≤ result + 20 }
    ensures written { drop result text.new ≡ decimal n ++ drop at text.old }
    ensures ascii { IsAscii (drop at text.old) → IsAscii (drop result text.new) }
{
    itoa::write_digits(n, text, at)
}

// The same with a minus in front where there is one.
#[inline]
pub fn literal_before(text: &mut [u8], at: usize, x: i32) -> usize
    requires room { 21 ≤ at }
    requires inside { at ≤ length text.old }
    ensures start { result + length (signed_decimal x) ≡ at }
    ensures short { at ≤ result + 11 }
    ensures written { drop result text.new ≡ signed_decimal x ++ drop at text.old }
    ensures ascii { IsAscii (drop at text.old) → IsAscii (drop result text.new) }
{
    let start = number_before(text, at, x.unsigned_abs() as u64);
    if x >= 0 {
        return start;
    }
    bytes_before(text, start, b"-")
}
