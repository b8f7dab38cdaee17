//! Numbers in decimal.

ghost use Rattle.std.specs.Prelude.{◌≡◌, ◌≤◌, ◌<◌, ◌^◌, IsTrue, IfOk, unsigned_abs};
ghost use Rattle.std.specs.Option.{SomeIff};
ghost use Rattle.std.specs.List.{list_all};
ghost use Rattle.std.specs.Char.{is_ascii_digit};
ghost use Rattle.ct_text.specs.Numbers.{is_natural, value_of, natural_of, signed_of};

/// Why a text is no number within a limit.
#[derive(Clone, Copy, Debug, PartialEq, Eq)]
pub enum NumberFault {
    /// The text isn't spelled as a number.
    Spelling,
    /// The text is spelled as a number that is above the limit.
    Over,
}

/// The number that the text spells: `0`, or a digit from 1 to 9 followed by digits. There may be any
/// number of digits; time is linear in them.
pub fn natural(text: &[u8], limit: u64) -> Result<u64, NumberFault>
    ensures exact { result ≡ natural_of text.now limit }
    ensures within { IfOk result (λ number. number ≤ limit) }
{
    let value = natural_wide(text, u128::from(limit))?;
    Ok(value as u64)
}

/// As [`natural`], for a number that may be wider than 64 bits.
#[tactic(auto, unfolding(crate::specs::Numbers::natural_of))]
pub fn natural_wide(text: &[u8], limit: u128) -> Result<u128, NumberFault>
    requires { limit < 2 ^ 124 }
    ensures exact { result ≡ natural_of text.now limit }
    ensures within { IfOk result (λ number. number ≤ limit) }
{
    if !is_spelled(text) {
        return Err(NumberFault::Spelling);
    }
    match value_within(text, limit) {
        Some(value) => Ok(value),
        None => Err(NumberFault::Over),
    }
}

/// The number that the text spells: as in [`natural`], or that after `-` where it isn't 0. The limit
/// is on its size.
pub fn signed(text: &[u8], limit: u64) -> Result<i64, NumberFault>
    requires { limit < 2 ^ 63 }
    ensures exact { result ≡ signed_of text.now limit }
    ensures within { IfOk result (λ number. unsigned_abs number ≤ limit) }
{
    let number = signed_wide(text, u128::from(limit))?;
    Ok(number as i64)
}

/// As [`signed`], for a number that may be wider than 64 bits.
#[tactic(auto, unfolding(crate::specs::Numbers::signed_of))]
pub fn signed_wide(text: &[u8], limit: u128) -> Result<i128, NumberFault>
    requires { limit < 2 ^ 124 }
    ensures exact { result ≡ signed_of text.now limit }
    ensures within { IfOk result (λ number. unsigned_abs number ≤ limit) }
{
    match text {
        [b'-', digits @ ..] => {
            let size = natural_wide(digits, limit)?;
            if size == 0 {
                return Err(NumberFault::Spelling);
            }
            Ok(-(size as i128))
        }
        _ => Ok(natural_wide(text, limit)? as i128),
    }
}

fn is_spelled(text: &[u8]) -> bool
    ensures { result ≡ is_natural text.now }
{
    match text {
        [] => false,
        [b'0', others @ ..] => others.is_empty(),
        [_, ..] => are_digits(text),
    }
}

fn are_digits(text: &[u8]) -> bool
    ensures { result ≡ list_all is_ascii_digit text.now }
{
    text.iter().all(|byte| byte.is_ascii_digit())
}

// The number that the digits represent, unless it is above the limit.
fn value_within(digits: &[u8], limit: u128) -> Option<u128>
    requires digits { IsTrue (list_all is_ascii_digit digits.now) }
    requires room { limit < 2 ^ 124 }
    ensures { SomeIff result (value_of digits.now ≤ limit) (value_of digits.now) }
{
    let mut value = 0u128;
    for digit in digits {
        value = value * 10 + u128::from(*digit - b'0');
        if value > limit {
            return None;
        }
    }
    Some(value)
}
