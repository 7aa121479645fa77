// Numbers, digit by digit.
ghost use Rattle.std.specs.Prelude.{◌≡◌};
ghost use Rattle.proof_text.specs.Digit.{digit, more_number, more_integer, first_negative};

/// The value of a decimal digit.
pub fn digit(byte: u8) -> Option<u8>
    ensures { result ≡ digit byte }
{
    if byte < b'0' {
        None
    } else if byte <= b'9' {
        Some(byte - b'0')
    } else {
        None
    }
}

/// The number with one more digit, where it may have one and doesn't leave its type.
pub fn more_number(number: u64, byte: u8) -> Option<u64>
    ensures { result ≡ more_number number byte }
{
    match digit(byte) {
        Some(digit) => {
            if number == 0 {
                return None;
            }
            match number.checked_mul(10) {
                Some(tens) => tens.checked_add(u64::from(digit)),
                None => None,
            }
        }
        None => None,
    }
}

/// The number with one more digit, where it may have one and doesn't leave its type.
pub fn more_integer(number: i128, byte: u8) -> Option<i128>
    ensures { result ≡ more_integer number byte }
{
    match digit(byte) {
        Some(digit) => {
            if number == 0 {
                return None;
            }
            match number.checked_mul(10) {
                Some(tens) => {
                    if number < 0 {
                        tens.checked_sub(i128::from(digit))
                    } else {
                        tens.checked_add(i128::from(digit))
                    }
                }
                None => None,
            }
        }
        None => None,
    }
}

/// The first digit behind a minus, which isn't 0, makes this number.
pub fn first_negative(byte: u8) -> Option<i128>
    ensures { result ≡ first_negative byte }
{
    match digit(byte) {
        Some(digit) => {
            if digit == 0 {
                None
            } else {
                Some(-i128::from(digit))
            }
        }
        None => None,
    }
}
