// Numbers as they are written in words.
ghost use Rattle.std.specs.Prelude.{◌≡◌, if◌then◌else◌, Some, None, ◌≤◌, IfSome};
ghost use Rattle.command_words.specs.Numbers.{number_of, number_between};

/// The number that one to ten decimal digits write.
pub fn number(text: &[u8]) -> Option<u64>
    ensures { result ≡ number_of text.now }
{
    if text.is_empty() || text.len() > 10 {
        return None;
    }
    let mut number: u64 = 0;
    for digit in text {
        if !digit.is_ascii_digit() {
            return None;
        }
        number = 10 * number + u64::from(*digit - b'0');
    }
    Some(number)
}

/// The same, where the number is within these bounds.
pub fn number_between(text: &[u8], least: u32, most: u32) -> Option<u32>
    ensures { result ≡ number_between least most text.now }
{
    let number = number(text)?;
    if number < u64::from(least) || number > u64::from(most) {
        return None;
    }
    Some(number as u32)
}
