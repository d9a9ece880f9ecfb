//! Numbers that are written out.
ghost use Rattle.std.specs.Prelude.{◌≡◌, ◌^◌, pos, neg_ℤ, nat_le, if◌then◌else◌};
ghost use Rattle.std.specs.List.{list_all};
ghost use Rattle.mon_text.specs.Characters.{is_digit};
ghost use Rattle.mon_text.specs.Counts.{value_of};
ghost use Rattle.sno_value.specs.Values.{is_unsigned, number_of_text, signed_number};

fn are_digits(text: &[u8]) -> bool
    ensures { result ≡ list_all is_digit text.now }
{
    text.iter().all(|byte| byte.is_ascii_digit())
}

fn is_unsigned(text: &[u8]) -> bool
    ensures { result ≡ is_unsigned text.now }
{
    !text.is_empty() && are_digits(text)
}

// What digits stand for, if it is no more than the least integer without its sign.
fn magnitude(digits: &[u8]) -> Option<u64>
    ensures { result ≡ (if nat_le (value_of digits.now) (2 ^ 63) then Some (value_of digits.now) else None) }
{
    let mut value: u128 = 0;
    for digit in digits {
        value = 10 * value + u128::from(digit.saturating_sub(b'0'));
        if value > 0x8000_0000_0000_0000 {
            return None;
        }
    }
    Some(value as u64)
}

fn positive(digits: &[u8]) -> Option<i64>
    ensures { result ≡ signed_number pos digits.now }
{
    if !is_unsigned(digits) {
        return None;
    }
    match magnitude(digits) {
        Some(size) => 0i64.checked_add_unsigned(size),
        None => None,
    }
}

fn negative(digits: &[u8]) -> Option<i64>
    ensures { result ≡ signed_number (λ n. neg_ℤ (pos n)) digits.now }
{
    if !is_unsigned(digits) {
        return None;
    }
    match magnitude(digits) {
        Some(size) => 0i64.checked_sub_unsigned(size),
        None => None,
    }
}

/// The number that a text is: 0 for the null string, and otherwise one sign or none, and digits.
pub(crate) fn number_of_text(text: &[u8]) -> Option<i64>
    ensures { result ≡ number_of_text text.now }
{
    match text {
        [] => Some(0),
        [b'+', digits @ ..] => positive(digits),
        [b'-', digits @ ..] => negative(digits),
        _ => positive(text),
    }
}
