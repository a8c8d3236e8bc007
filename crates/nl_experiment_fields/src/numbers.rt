//! The form of a number, which no name has.
ghost use Rattle.std.specs.Prelude.{◌≡◌, ◌==◌, ◌||◌};
ghost use Rattle.std.specs.Char.{is_ascii_digit};
ghost use Rattle.nl_words.specs.Table as spec;

fn begins_with_digit(text: &[u8]) -> bool
    ensures { result ≡ spec.begins_with is_ascii_digit text.now }
{
    match text {
        [first, ..] => first.is_ascii_digit(),
        [] => false,
    }
}

fn begins_with_point(text: &[u8]) -> bool
    ensures { result ≡ spec.begins_with (λ b. b == 46) text.now }
{
    matches!(text, [b'.', ..])
}

fn behind_minus(text: &[u8]) -> &[u8]
    ensures { result.now ≡ spec.without_one (λ b. b == 45) text.now }
{
    match text {
        [b'-', behind @ ..] => behind,
        _ => text,
    }
}

fn behind_point(text: &[u8]) -> &[u8]
    ensures { result.now ≡ spec.without_one (λ b. b == 46) text.now }
{
    match text {
        [b'.', behind @ ..] => behind,
        _ => text,
    }
}

fn behind_sign(text: &[u8]) -> &[u8]
    ensures { result.now ≡ spec.without_one (λ sign. (sign == 43) || (sign == 45)) text.now }
{
    match text {
        [b'+' | b'-', behind @ ..] => behind,
        _ => text,
    }
}

// Without the digits in front.
fn after_digits(text: &[u8]) -> &[u8]
    ensures { result.now ≡ spec.after_digits text.now }
{
    let mut left = text;
    'digits: while let Some((digit, behind)) = left.split_first() {
        if !digit.is_ascii_digit() {
            return left;
        }
        left = behind;
    }
    left
}

// Whether a text is one or two digits.
fn is_short(text: &[u8]) -> bool
    ensures { result ≡ spec.is_short text.now }
{
    match text {
        [one] => one.is_ascii_digit(),
        [one, two] => one.is_ascii_digit() && two.is_ascii_digit(),
        _ => false,
    }
}

// Whether a text is an exponent or nothing.
fn is_exponent(text: &[u8]) -> bool
    ensures { result ≡ spec.is_exponent text.now }
{
    match text {
        [] => true,
        [b'e' | b'E', behind @ ..] => is_short(behind_sign(behind)),
        _ => false,
    }
}

// The form of a number without a minus sign.
fn is_unsigned_number(text: &[u8]) -> bool
    ensures { result ≡ spec.is_unsigned_number text.now }
{
    if begins_with_digit(text) {
        return is_exponent(after_digits(behind_point(after_digits(text))));
    }
    let fraction = behind_point(text);
    begins_with_point(text) && begins_with_digit(fraction) && is_exponent(after_digits(fraction))
}

/// Whether a text has a number's form.
pub fn is_number(text: &[u8]) -> bool
    ensures { result ≡ spec.is_number text.now }
{
    is_unsigned_number(behind_minus(text))
}
