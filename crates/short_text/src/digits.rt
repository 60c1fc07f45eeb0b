//! Reads decimal numbers.

ghost use Rattle.std.specs.Prelude.{◌≡◌, ◌<◌, ◌^◌};
ghost use Rattle.short_text.specs.Digits as spec;
ghost use Rattle.short_text.specs.Digits.{LeadsWith};

/// The most digits of a number.
const MAX_DIGITS: usize = 10;

/// The number made of a text's leading digits, at most ten, and how many they are.
pub(crate) fn leading_digits(text: &[u8]) -> (u64, usize)
    ensures leads { LeadsWith text.now result.0 result.1 }
    ensures below { result.0 < 10 ^ result.1 }
{
    let mut number = 0u64;
    let mut count = 0;
    'digits: while count < text.len() && count < MAX_DIGITS {
        let b = text[count];
        if !b.is_ascii_digit() {
            return (number, count);
        }
        number = number * 10 + u64::from(b - b'0');
        count += 1;
    }
    (number, count)
}

/// The number that 1 to 10 decimal digits make.
pub fn digits_number(text: &[u8]) -> Option<u64>
    ensures { result ≡ spec.digits_number text.now }
{
    let (number, count) = leading_digits(text);
    if count == 0 {
        return None;
    }
    if count < text.len() {
        return None;
    }
    Some(number)
}
