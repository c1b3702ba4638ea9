ghost use Rattle.std.specs.Prelude.{◌≡◌, ◌⊎◌, ⊤, refl, ℕ, ◌+◌, ◌*◌, ◌^◌, ◌<◌, ◌≤◌, ◌==◌, ℤ, pos};
ghost use Rattle.std.specs.Prelude.{neg_ℤ, ◌+ℤ◌, ◌≤ℤ◌, true, false, length, MatchOption};
ghost use Rattle.std.specs.Cmp.{partial_equiv_from_equiv, int_eq_equiv, int_cmp_total, po};
ghost use Rattle.std.specs.Ordering.{int_cmp, int_eq, as_partial_cmp};
ghost use Rattle.std.specs.List.{before_first, after_first};
ghost use Rattle.std.specs.Str.Parse.{AllDigits, digits_value_after, starts_with_minus};
ghost use Rattle.std.specs.Str.Parse.{without_leading_sign};
ghost use Rattle.table_keys.specs.Numbers.{IsNumber, IsDecimal, IsExponent, IsKept, mantissa, mark};
ghost use Rattle.table_keys.specs.Numbers.{has, signed};
ghost use Rattle.table_keys.specs.Digits.{IsLong, IsScaled};
ghost use Rattle.table_keys.specs.Neighbours.{IsFull, IsGreatest, IsGreatestSize, IsKeptNumber};
ghost use Rattle.table_keys.specs.Neighbours.{IsLeast, IsNext, IsNextSize};
ghost use Rattle.table_keys.specs.NumberBytes.{IsBytesOf, size_bytes};

use std::alloc::AllocError;
use std::cmp::Ordering;
use std::marker::Model;

/// A number that DynamoDB keeps.
///
/// It is zero, or has at most 38 digits and is, without its sign, from 1E-130 to 9.99..E+125
/// (DynamoDB's developer guide, "Supported data types and naming rules"). Numbers compare by value:
/// `1`, `1.0` and `1e0` are one number, and `-0` is `0`. A contract sees a number as the integer
/// that is 10^167 times the number.
///
/// # Examples
///
/// ```rust
/// use table_keys::Number;
///
/// assert!(rt; Number::parse("1e0") == Number::parse("1.0"));
/// assert!(rt; Number::parse("-2") < Number::parse("0.5"));
/// ```
#[derive(Debug, Drop)]
pub struct Number {
    negative: bool,
    coefficient: u128,
    power: u8,
}

impl Model for Number {
    ghost use Rattle.std.specs.Prelude.{ℤ};
    ghost use Rattle.std.specs.Coded.{coded_ℤ};

    ghost Value = { ℤ };

    ghost coded = { coded_ℤ };

    ghost use Rattle.table_keys.specs.Normal.{value_of, IsNormal};

    ghost view = { value_of };

    ghost invariant = { IsNormal };
}

// The coefficients of numbers other than zero lie from here up to ten times this.
const LEAST: u128 = 10_000_000_000_000_000_000_000_000_000_000_000_000;

impl Number {
    /// Returns the number that a string says, or `None` if it says none, or one that DynamoDB
    /// doesn't keep.
    ///
    /// The string has digits, and may have a sign before them, a point among them and an exponent
    /// of 32 bits after them.
    ///
    /// # Examples
    ///
    /// ```rust
    /// use table_keys::Number;
    ///
    /// assert!(rt; Number::parse("-1.5e3") == Number::parse("-1500"));
    /// assert!(rt; Number::parse("1e126").is_none());
    /// assert!(rt; Number::parse("one").is_none());
    /// ```
    pub fn parse(text: &str) -> Option<Number>
        ensures { MatchOption result ((z : ℤ) → ¬ (IsNumber text.now z)) (IsNumber text.now) }
    {
        let (mantissa, exponent) = split_exponent(text)?;
        let (whole, fraction) = split_point(mantissa);
        let (negative, whole) = split_sign(whole.as_bytes());
        Number::decimal(negative, whole, fraction.as_bytes(), exponent)
    }

    /// Returns the least number that DynamoDB keeps: `-9.99..E+125`, with 38 nines.
    pub fn least() -> Number
        ensures { IsLeast result }
    {
        Number {
            negative: true,
            coefficient: LEAST * 10 - 1,
            power: u8::MAX,
        }
    }

    /// Returns the least number above this one that DynamoDB keeps, or `None` above the greatest.
    ///
    /// Numbers have 38 digits, so the next after `1` is `1` and 10^-37.
    ///
    /// # Examples
    ///
    /// ```rust
    /// use table_keys::Number;
    ///
    /// let zero = Number::parse("0");
    /// let next = zero.and_then(|number| number.next());
    /// assert!(rt; next == Number::parse("1E-130"));
    /// ```
    pub fn next(&self) -> Option<Number>
        ensures kept { IsKeptNumber self.now }
        ensures next { MatchOption result (IsGreatest self.now) (IsNext self.now) }
    {
        if self.negative {
            let (coefficient, power) = size_below(self.coefficient, self.power);
            return Some(Number {
                negative: coefficient != 0,
                coefficient,
                power,
            });
        }
        match size_above(self.coefficient, self.power) {
            Some((coefficient, power)) => Some(Number {
                negative: false,
                coefficient,
                power,
            }),
            None => None,
        }
    }

    /// Returns the number as eighteen bytes, which are in the order of the numbers
    /// ([`laws::number_bytes_in_order`](crate::laws::number_bytes_in_order)).
    pub fn to_bytes(&self) -> [u8; 18]
        ensures { IsBytesOf self.now result }
    {
        let bytes = size_bytes(self.power, self.coefficient);
        if self.negative {
            bytes.map(|byte| !byte)
        } else {
            bytes
        }
    }

    // The number of a sign, the digits before and after a point, and an exponent.
    fn decimal(negative: bool, whole: &[u8], fraction: &[u8], exponent: i32) -> Option<Number>
        ensures { MatchOption result
            ((z : ℤ) → ¬ (IsDecimal negative whole.now fraction.now exponent z))
            (IsDecimal negative whole.now fraction.now exponent) }
    {
        if whole.len() + fraction.len() == 0 {
            return None;
        }
        let (digits, zeros) = read_digits(0, 0, whole)?;
        let (digits, zeros) = read_digits(digits, zeros, fraction)?;
        let power = 167 + i128::from(exponent) + zeros as i128 - fraction.len() as i128;
        Number::scaled(negative, digits, power)
    }

    // The number that is 10^-167 times these digits times ten to the power.
    fn scaled(negative: bool, digits: u128, power: i128) -> Option<Number>
        requires bound { digits < 10 ^ 38 }
        requires room { neg_ℤ (pos (2 ^ 100)) ≤ℤ power }
        ensures { MatchOption result ((n : ℕ) → IsScaled digits power n → ¬ (IsKept n)) (λ z.
            (n : ℕ) × IsScaled digits power n × IsKept n × (z ≡ signed negative n)) }
    {
        if digits == 0 {
            return Some(Number {
                negative: false,
                coefficient: 0,
                power: 0,
            });
        }
        let (coefficient, power) = pad(digits, power);
        match u8::try_from(power) {
            Ok(power) => Some(Number {
                negative,
                coefficient,
                power,
            }),
            Err(_) => None,
        }
    }
}

// The next size above the one of these parts, or `None` above the greatest.
fn size_above(coefficient: u128, power: u8) -> Option<(u128, u8)>
    requires { IsFull coefficient power }
    ensures { MatchOption result (IsGreatestSize (coefficient * 10 ^ power)) (λ above.
        IsFull above.0 above.1 × (above.1 < 256)
        × IsNextSize (coefficient * 10 ^ power) (above.0 * 10 ^ above.1)) }
{
    if coefficient == 0 {
        Some((LEAST, 0))
    } else if coefficient < LEAST * 10 - 1 {
        Some((coefficient + 1, power))
    } else if power < u8::MAX {
        Some((LEAST, power + 1))
    } else {
        None
    }
}

// The next size below the one of these parts, which isn't zero.
fn size_below(coefficient: u128, power: u8) -> (u128, u8)
    requires full { IsFull coefficient power }
    requires some { 0 < coefficient }
    ensures full { IsFull result.0 result.1 }
    ensures byte { result.1 < 256 }
    ensures next { IsNextSize (result.0 * 10 ^ result.1) (coefficient * 10 ^ power) }
{
    if coefficient > LEAST {
        (coefficient - 1, power)
    } else if power > 0 {
        (LEAST * 10 - 1, power - 1)
    } else {
        (0, 0)
    }
}

// The bytes of a number that is not negative.
fn size_bytes(power: u8, coefficient: u128) -> [u8; 18]
    ensures bytes { result ≡ size_bytes power coefficient }
    ensures is_byte { power < 256 }
{
    let mut bytes = [0; 18];
    bytes[0] = 128;
    bytes[1] = power;
    bytes[2..].copy_from_slice(&coefficient.to_be_bytes());
    bytes
}

// The text before the exponent of a number's text, and the exponent, 0 where none is written.
fn split_exponent(text: &str) -> Option<(&str, i32)>
    ensures { MatchOption result ((z : ℤ) → ¬ (IsExponent text.now z))
        (λ r. (r.0.now ≡ mantissa text.now) × IsExponent text.now r.1) }
{
    match split_mark(text) {
        Some((mantissa, exponent)) => match exponent.parse::<i32>() {
            Ok(exponent) => Some((mantissa, exponent)),
            Err(_) => None,
        },
        None => Some((text, 0)),
    }
}

// The text before the first `e`, or `E` where there is no `e`, and the text after it.
fn split_mark(text: &str) -> Option<(&str, &str)>
    ensures { MatchOption result (has (mark text.now) text.now ≡ false)
        (λ r. (has (mark text.now) text.now ≡ true) × (r.0.now ≡ mantissa text.now)
        × (r.1.now ≡ after_first (λ b. b == mark text.now) text.now)) }
{
    text.split_once('e').or(text.split_once('E'))
}

// The text before the first point, and the text after it.
fn split_point(mantissa: &str) -> (&str, &str)
    ensures whole { result.0.now ≡ before_first (λ b. b == 46) mantissa.now }
    ensures fraction { result.1.now ≡ after_first (λ b. b == 46) mantissa.now }
{
    match mantissa.split_once('.') {
        Some(parts) => parts,
        None => (mantissa, ""),
    }
}

// Whether the text begins with a minus, and the text after a sign.
fn split_sign(text: &[u8]) -> (bool, &[u8])
    ensures sign { result.0 ≡ starts_with_minus text.now }
    ensures rest { result.1.now ≡ without_leading_sign text.now }
{
    match text.split_first() {
        Some((b'-', rest)) => (true, rest),
        Some((b'+', rest)) => (false, rest),
        _ => (false, text),
    }
}

// Reads digits after those read so far, which are `digits` and then `zeros` zeros. `None` where
// there is another character, or a 39th digit that counts.
fn read_digits(mut digits: u128, mut zeros: usize, text: &[u8]) -> Option<(u128, usize)>
    requires bound { digits < 10 ^ 38 }
    requires full { (zeros ≡ 0) ⊎ (10 ^ 37 ≤ digits) }
    requires room { zeros + length text.now < 2 ^ 64 }
    ensures { MatchOption result
        (AllDigits 10 text.now → IsLong (digits_value_after 10 (digits * 10 ^ zeros) text.now))
        (λ r. AllDigits 10 text.now
        × (r.0 * 10 ^ r.1 ≡ digits_value_after 10 (digits * 10 ^ zeros) text.now)
        × (r.0 < 10 ^ 38)
        × ((r.1 ≡ 0) ⊎ (10 ^ 37 ≤ r.0))
        × (r.1 ≤ zeros + length text.now)) }
{
    let mut rest = text;
    while let Some((byte, tail)) = rest.split_first() {
        let digit = char::from(*byte).to_digit(10)?;
        if digits < LEAST {
            digits = digits * 10 + u128::from(digit);
        } else if digit == 0 {
            zeros += 1;
        } else {
            return None;
        }
        rest = tail;
    }
    Some((digits, zeros))
}

// The same number with 38 digits.
fn pad(mut digits: u128, mut power: i128) -> (u128, i128)
    requires positive { 0 < digits }
    requires bound { digits < 10 ^ 38 }
    requires room { neg_ℤ (pos (2 ^ 100)) ≤ℤ power }
    ensures full { (10 ^ 37 ≤ result.0) × (result.0 < 10 ^ 38) }
    ensures same { (n : ℕ) × (result.0 ≡ digits * 10 ^ n) × (power ≡ result.1 +ℤ pos n) }
{
    while digits < LEAST {
        digits *= 10;
        power -= 1;
    }
    (digits, power)
}

/// The clone is the same number, and takes no memory.
impl Clone for Number {
    ghost is_clone = { λ number copy. copy ≡ number };

    ghost is_infallible = { λ _. ⊤ };

    fn clone(&self) -> Result<Number, AllocError> {
        Ok(Number {
            negative: self.negative,
            coefficient: self.coefficient,
            power: self.power,
        })
    }
}

impl PartialEq for Number {
    ghost eq = { int_eq };

    ghost laws = { partial_equiv_from_equiv int_eq_equiv };

    fn eq(&self, other: &Number) -> bool {
        self.cmp(other) == Ordering::Equal
    }
}

impl Eq for Number {
    ghost laws = { int_eq_equiv };
}

impl PartialOrd for Number {
    ghost partial_cmp = { as_partial_cmp int_cmp };

    ghost laws = { po int_cmp_total (λ _ _. refl) };

    fn partial_cmp(&self, other: &Number) -> Option<Ordering> {
        Some(self.cmp(other))
    }
}

/// Numbers compare by value.
impl Ord for Number {
    ghost cmp = { int_cmp };

    ghost total = { int_cmp_total };

    ghost matches_partial_cmp = { λ _ _. refl };

    ghost matches_eq = { λ _ _. refl };

    fn cmp(&self, other: &Number) -> Ordering {
        let size = (self.power.cmp(&other.power)).then(self.coefficient.cmp(&other.coefficient));
        match (self.negative, other.negative) {
            (false, false) => size,
            (true, true) => size.reverse(),
            (true, false) => Ordering::Less,
            (false, true) => Ordering::Greater,
        }
    }
}
