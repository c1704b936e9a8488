//! Numbers and words, by the bytes that write them.
ghost use Rattle.std.specs.Prelude.{◌≡◌, ◌+◌, ◌*◌, ◌^◌, ◌<◌, ◌≤◌, length, IfSome};
ghost use Rattle.file_fields.specs.Numbers.{digits_after, natural, negative, integer};

/// The number that digits write after `n`, or None at another byte.
/// A recursion over slice patterns: the product reads digits in this form.
fn digits_after(n: u64, s: &[u8]) -> Option<u64>
    requires { (n + 1) * 10 ^ length s.now ≤ 1000000000000000 }
    ensures value { result ≡ digits_after n s.now }
    ensures bound { IfSome result (λ v. v < 1000000000000000) }
{
    match s {
        [] => Some(n),
        [first, rest @ ..] => match *first {
            b'0'..=b'9' => digits_after(n * 10 + u64::from(*first - b'0'), rest),
            _ => None,
        },
    }
}

/// A number of 1 to 15 digits with no leading zero.
pub fn natural_of(s: &[u8]) -> Option<u64>
    ensures value { result ≡ natural s.now }
    ensures bound { IfSome result (λ v. v < 1000000000000000) }
{
    match s {
        [b'0'] => Some(0),
        [b'1'..=b'9', ..] if s.len() <= 15 => digits_after(0, s),
        _ => None,
    }
}

/// What stands after a minus sign: a number, but not 0.
/// Casts: natural_of bounds the number, and an i64 is not made from a u64 by From.
fn negative_of(s: &[u8]) -> Option<i64>
    ensures { result ≡ negative s.now }
{
    match s {
        [b'0', ..] => None,
        _ => natural_of(s).map(|n| -(n as i64)),
    }
}

/// A number that may have a minus sign, never before 0.
pub fn integer_of(s: &[u8]) -> Option<i64>
    ensures { result ≡ integer s.now }
{
    match s {
        [b'-', rest @ ..] => negative_of(rest),
        // At most 15 digits, so the cast loses nothing.
        _ => natural_of(s).map(|n| n as i64),
    }
}
