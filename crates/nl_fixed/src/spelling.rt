//! How numbers are written: the number that a word writes, and the text of a number.
ghost use Rattle.std.specs.Prelude.{◌++◌, ◌≡◌, ℕ, ◌+◌, ◌+ℤ◌, ◌-ℤ◌, ◌*◌, ◌*ℤ◌, ◌^◌, ◌<◌, ◌≤◌, pos, ◌≤ℤ◌, neg_ℤ, ◌&&◌, true, Bool, unsigned_abs, Some, None, if◌then◌else◌, length, is_some, IfSome, IfOk, OnOk};
ghost use Rattle.std.specs.Option.{option_map};
ghost use Rattle.std.specs.Str.Parse.{digits_value_after, digits_value};
ghost use Rattle.nl_fixed.specs.Numbers.{as_number, rounded_quotient};
ghost use Rattle.nl_fixed.specs.Spelling.{most_digits, leading_digits, behind_digits, all_digits, is_one_or_two, signed_exponent, exponent_of, exponent_value, signed, times_power_of_ten, decimal_value, value_of, ended, pointed, unsigned_parts, is_number_form, read_of, fraction_text, number_text};

use crate::arithmetic::number_of;
use crate::memory::NoMemory;
use crate::number::{LIMIT, Num, NumFault, ONE};
use crate::text::Str;
use std::alloc::Global;

/// How many digits may stand before the exponent.
const MOST_DIGITS: usize = 30;

/// The most zeros of a power of ten that is itself a count in range.
const MOST_ZEROS: u32 = 18;

impl Num {
    /// The number that a word writes, rounded to the nearest millionth, a half upwards; None where the word hasn't
    /// the form of a number. That is an optional `-`; then digits, with a point before, among or behind them or
    /// without one; then optionally `e` or `E`, an optional sign, and one or two digits. More than thirty digits
    /// before the exponent are Overflow, whatever they are, and so is a value out of range.
    ///
    /// A long word costs one look at each byte: nothing is computed from more than thirty digits.
    #[tactic(auto, unfolding(crate::specs::Spelling::parts_of, crate::specs::Spelling::read_of, crate::specs::Spelling::is_number_form))]
    pub fn read(word: &[u8]) -> Option<Result<Num, NumFault>>
        ensures value { result ≡ read_of word.now }
        ensures form { is_some result ≡ is_number_form word.now }
    {
        match word {
            [b'-', magnitude @ ..] => read_unsigned(true, magnitude),
            _ => read_unsigned(false, word),
        }
    }

    /// The number's text: a minus sign where it is negative, the whole part, and where there is a fraction a point
    /// and its digits, with no zeros at their end.
    pub fn text(self, alloc: Global) -> Result<Str, NoMemory>
        ensures { IfOk result (λ text. text ≡ number_text self) }
    {
        let magnitude = self.count.unsigned_abs();
        let sign = if self.count < 0 { "-" } else { "" };
        let whole = magnitude / ONE as u64;
        let mut text = format!(in alloc; "{sign}{whole}")?.into_bytes();
        push_fraction(&mut text, magnitude % ONE as u64)?;
        Ok(Str::of_vec(text))
    }
}

/// What a word writes behind its minus sign, if it has one.
fn read_unsigned(negative: bool, word: &[u8]) -> Option<Result<Num, NumFault>>
    ensures { result ≡ option_map value_of (unsigned_parts negative word.now) }
{
    let (whole, behind) = split_digits(word);
    read_pointed(negative, whole, behind)
}

/// What a word writes whose digits before the point are split off.
fn read_pointed(negative: bool, whole: &[u8], behind: &[u8]) -> Option<Result<Num, NumFault>>
    requires { all_digits whole.now ≡ true }
    ensures { result ≡ option_map value_of (pointed negative whole.now behind.now) }
{
    match behind {
        [b'.', behind_point @ ..] => {
            let (fraction, rest) = split_digits(behind_point);
            read_ended(negative, whole, fraction, rest)
        }
        _ => read_ended(negative, whole, &[], behind),
    }
}

/// What a word writes whose digits are split off, where the rest must be an exponent or nothing.
fn read_ended(
    negative: bool,
    whole: &[u8],
    fraction: &[u8],
    rest: &[u8],
) -> Option<Result<Num, NumFault>>
    requires whole_digits { all_digits whole.now ≡ true }
    requires fraction_digits { all_digits fraction.now ≡ true }
    ensures { (point : Bool) →
        result ≡ option_map value_of (ended negative whole.now point fraction.now rest.now) }
{
    if whole.is_empty() && fraction.is_empty() {
        return None;
    }
    let exponent = read_exponent(rest)?;
    Some(decimal_value(negative, whole, fraction, exponent))
}

/// Splits a word behind the digits that it begins with.
fn split_digits(word: &[u8]) -> (&[u8], &[u8])
    ensures digits { result.0.now ≡ leading_digits word.now }
    ensures rest { result.1.now ≡ behind_digits word.now }
    ensures all_are { all_digits result.0.now ≡ true }
{
    word.split_at(leading_digit_count(word))
}

/// How many digits a word begins with.
fn leading_digit_count(word: &[u8]) -> usize
    ensures { result ≡ length (leading_digits word.now) }
{
    word.iter().take_while(|byte| byte.is_ascii_digit()).count()
}

/// The exponent that the whole of these bytes is; it is 0 where there are none.
fn read_exponent(bytes: &[u8]) -> Option<i32>
    ensures small { IfSome result (λ n. (neg_ℤ (pos 99) ≤ℤ n) × (n ≤ℤ pos 99)) }
    ensures value { result ≡ option_map exponent_value (exponent_of bytes.now) }
{
    match bytes {
        [] => Some(0),
        [b'e' | b'E', written @ ..] => read_signed(written),
        _ => None,
    }
}

/// The exponent that stands behind its letter.
fn read_signed(written: &[u8]) -> Option<i32>
    ensures small { IfSome result (λ n. (neg_ℤ (pos 99) ≤ℤ n) × (n ≤ℤ pos 99)) }
    ensures value { (letter : ℕ) →
        result ≡ option_map exponent_value (signed_exponent letter written.now) }
{
    match written {
        [b'-', digits @ ..] => one_or_two_digits(digits).map(|exponent| -exponent),
        [b'+', digits @ ..] => one_or_two_digits(digits),
        digits => one_or_two_digits(digits),
    }
}

/// The number that one or two digits write.
fn one_or_two_digits(digits: &[u8]) -> Option<i32>
    ensures small { IfSome result (λ n. (pos 0 ≤ℤ n) × (n ≤ℤ pos 99)) }
    ensures value { result
        ≡ (if all_digits digits.now && is_one_or_two (length digits.now)
        then Some (pos (digits_value 10 digits.now)) else None) }
{
    match digits {
        [ones] if ones.is_ascii_digit() => Some(i32::from(*ones - b'0')),
        [tens, ones] if tens.is_ascii_digit() && ones.is_ascii_digit() => {
            Some(i32::from(*tens - b'0') * 10 + i32::from(*ones - b'0'))
        }
        _ => None,
    }
}

/// The number that a word's digits write, those before its point and those behind it, with its exponent.
fn decimal_value(
    negative: bool,
    whole: &[u8],
    fraction: &[u8],
    exponent: i32,
) -> Result<Num, NumFault>
    requires whole_digits { all_digits whole.now ≡ true }
    requires fraction_digits { all_digits fraction.now ≡ true }
    requires exponent { (neg_ℤ (pos 99) ≤ℤ exponent) × (exponent ≤ℤ pos 99) }
    ensures { result ≡ decimal_value negative whole.now fraction.now exponent }
{
    if whole.len() > MOST_DIGITS || fraction.len() > MOST_DIGITS - whole.len() {
        return Err(NumFault::Overflow);
    }
    let digits = with_sign(negative, joined_digits(whole, fraction));
    scaled(digits, power_to_millionths(exponent, fraction.len()))
}

/// The whole number that the digits before the point and those behind it write together.
fn joined_digits(whole: &[u8], fraction: &[u8]) -> u128
    requires whole_digits { all_digits whole.now ≡ true }
    requires fraction_digits { all_digits fraction.now ≡ true }
    requires few { length whole.now + length fraction.now ≤ most_digits }
    ensures value { result ≡ digits_value 10 (whole.now ++ fraction.now) }
    ensures small { result < 10 ^ 30 }
{
    append_digits(append_digits(0, whole), fraction)
}

/// The number that is written by the digits of a number and further digits behind them.
fn append_digits(number: u128, digits: &[u8]) -> u128
    requires are_digits { all_digits digits.now ≡ true }
    requires fits { (number + 1) * 10 ^ length digits.now ≤ 10 ^ 30 }
    ensures value { result ≡ digits_value_after 10 number digits.now }
    ensures below { result + 1 ≤ (number + 1) * 10 ^ length digits.now }
{
    let mut appended = number;
    for byte in digits {
        appended = appended * 10 + u128::from(*byte - b'0');
    }
    appended
}

/// A number of at most thirty digits, with its sign.
fn with_sign(negative: bool, digits: u128) -> i128
    requires { digits < 10 ^ 30 }
    ensures value { result ≡ signed negative digits }
    ensures small { unsigned_abs result < 10 ^ 30 }
{
    let digits = digits as i128;
    if negative { -digits } else { digits }
}

/// The power of ten that makes millionths of a whole number whose last digits stand behind the point.
fn power_to_millionths(exponent: i32, places: usize) -> i32
    requires exponent { (neg_ℤ (pos 99) ≤ℤ exponent) × (exponent ≤ℤ pos 99) }
    requires few { places ≤ most_digits }
    ensures { result ≡ (pos 6 +ℤ exponent) -ℤ pos places }
{
    6 + exponent - places as i32
}

/// The number of n * 10^power millionths, rounded to the nearest one, a half upwards.
#[tactic(auto, unfolding(crate::specs::Spelling::times_power_of_ten))]
fn scaled(n: i128, power: i32) -> Result<Num, NumFault>
    requires { unsigned_abs n < 10 ^ 30 }
    ensures { result ≡ as_number (times_power_of_ten n power) }
{
    if power < 0 {
        number_of(divided(n, power.unsigned_abs()))
    } else {
        multiplied(n, power.unsigned_abs())
    }
}

/// The whole number nearest to n / 10^places, a half upwards.
fn divided(n: i128, places: u32) -> i128
    requires { unsigned_abs n < 10 ^ 30 }
    ensures { result ≡ rounded_quotient n (10 ^ places) }
{
    // Thirty digits are less than a half behind a point and a zero.
    if places > 31 {
        return 0;
    }
    let unit = power_of_ten(places);
    (2 * n + unit).div_euclid(2 * unit)
}

/// The number of n * 10^places millionths.
fn multiplied(n: i128, places: u32) -> Result<Num, NumFault>
    ensures { result ≡ as_number (n *ℤ pos (10 ^ places)) }
{
    if n == 0 {
        return number_of(0);
    }
    // Beyond these bounds the product is out of range, and within them it fits.
    if places > MOST_ZEROS || n.unsigned_abs() > LIMIT as u128 {
        return Err(NumFault::Overflow);
    }
    number_of(n * power_of_ten(places))
}

/// A power of ten with at most 31 zeros.
fn power_of_ten(zeros: u32) -> i128
    requires { zeros ≤ 31 }
    ensures value { result ≡ pos (10 ^ zeros) }
    ensures above { pos 1 ≤ℤ result }
    ensures below { result ≤ℤ pos (10 ^ 31) }
{
    10u128.pow(zeros) as i128
}

/// Appends a point and the digits of so many millionths, if there are any.
fn push_fraction(text: &mut Vec<u8>, millionths: u64) -> Result<(), NoMemory>
    requires { millionths < 1000000 }
    ensures { OnOk result (text.new.items ≡ text.old.items ++ fraction_text millionths) }
{
    if millionths == 0 {
        return Ok(());
    }
    text.push(b'.')?;
    let mut rest = millionths;
    let mut places = 6;
    while rest > 0 {
        places -= 1;
        let unit = 10u64.pow(places);
        text.push(b'0' + (rest / unit) as u8)?;
        rest %= unit;
    }
    Ok(())
}
