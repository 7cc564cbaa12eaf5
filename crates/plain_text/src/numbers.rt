//! Numbers as decimal text, without leading zeros.

ghost use Rattle.std.specs.Prelude.{◌≡◌, ◌≢◌, ◌^◌, ◌<◌, ℕ, ℤ, List, Some, None, true, nat_lt, if◌then◌else◌, IfNone, IfSome};
ghost use Rattle.std.specs.List.{list_all};
ghost use Rattle.std.specs.Char.{is_ascii_digit as is_digit};
ghost use Rattle.std.specs.Fmt.{decimal, signed_decimal};
ghost use Rattle.std.specs.Str.Parse.{digits_value};
ghost use Rattle.plain_text.specs.Number as numbers;

/// Whether each byte is a decimal digit.
fn are_digits(text: &[u8]) -> bool
    ensures { result ≡ list_all is_digit text.now }
{
    text.iter().all(|byte| byte.is_ascii_digit())
}

/// Whether the bytes are one digit or more, the first of several not 0.
fn is_numeral(text: &[u8]) -> bool
    ensures { result ≡ numbers.is_numeral text.now }
{
    match text {
        [] | [b'0', _, ..] => false,
        _ => are_digits(text),
    }
}

/// The value of a numeral, where it is below 2^64.
fn value_of(text: &[u8]) -> Option<u64>
    requires { numbers.is_numeral text.now ≡ true }
    ensures { result ≡ (if nat_lt (digits_value 10 text.now) (2 ^ 64) then Some (digits_value 10 text.now) else None) }
{
    match std::str::from_utf8(text) {
        Ok(digits) => digits.parse::<u64>().ok(),
        Err(_) => None,
    }
}

/// The number that the bytes write in decimal, without sign and without leading zeros. None exactly where they
/// write no number below 2^64 in this form.
pub fn number_of(text: &[u8]) -> Option<u64>
    ensures value { result ≡ numbers.number_of text.now }
    ensures some { IfSome result (λ n. text.now ≡ decimal n) }
    ensures none { IfNone result ((n : ℕ) → n < 2 ^ 64 → text.now ≢ decimal n) }
{
    if is_numeral(text) {
        value_of(text)
    } else {
        None
    }
}

/// The signed number of a number, where it is within 64 bits.
fn positive_of(number: Option<u64>) -> Option<i64>
    ensures { result ≡ numbers.positive_of number }
{
    match number {
        Some(n) => i64::try_from(n).ok(),
        None => None,
    }
}

/// The number below 0 of a number, where it is within 64 bits. There is no -0.
fn negative_of(number: Option<u64>) -> Option<i64>
    ensures { result ≡ numbers.negative_of number }
{
    match number {
        None | Some(0) => None,
        Some(n) => 0i64.checked_sub_unsigned(n),
    }
}

/// The integer that the bytes write in decimal: an optional `-`, no leading zeros and no `-0`. None exactly where
/// they write no 64-bit integer in this form.
pub fn integer_of(doc: &[u8]) -> Option<i64>
    ensures value { result ≡ numbers.integer_of doc.now }
    ensures some { IfSome result (λ z. doc.now ≡ signed_decimal z) }
    ensures none { IfNone result ((z : ℤ) → numbers.is_i64 z ≡ true → doc.now ≢ signed_decimal z) }
{
    match doc {
        [b'-', digits @ ..] => negative_of(number_of(digits)),
        _ => positive_of(number_of(doc)),
    }
}

/// Numbers below 2^64 and their decimal text are one to one: the text of a number is read as that number, and what
/// is read as a number is its text.
pub fn number_text_is_one_to_one()
    ensures text_read { (n : ℕ) → n < 2 ^ 64 → numbers.number_of (decimal n) ≡ Some n }
    ensures read_text { (text : List ℕ) (n : ℕ) → numbers.number_of text ≡ Some n → (text ≡ decimal n) × (n < 2 ^ 64) }
{}

/// 64-bit integers and their decimal text are one to one, too.
pub fn integer_text_is_one_to_one()
    ensures text_read { (z : ℤ) → numbers.is_i64 z ≡ true → numbers.integer_of (signed_decimal z) ≡ Some z }
    ensures read_text { (text : List ℕ) (z : ℤ) → numbers.integer_of text ≡ Some z → (text ≡ signed_decimal z) × (numbers.is_i64 z ≡ true) }
{}
