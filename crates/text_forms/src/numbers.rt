//! Numbers as texts.

ghost use Rattle.std.specs.Prelude.{◌≡◌, ◌-◌, ◌^◌, min, IsTrue};
ghost use Rattle.std.specs.List.{list_all};
ghost use Rattle.std.specs.Option.{option_map};
ghost use Rattle.text_forms.specs.Numbers.{is_digit as digit, number_in, value_of_digits};

/// An ASCII digit.
fn is_digit(byte: u8) -> bool
    ensures { result ≡ digit byte }
{
    matches!(byte, b'0'..=b'9')
}

/// Each byte is a digit.
fn are_digits(bytes: &[u8]) -> bool
    ensures { result ≡ list_all digit bytes.now }
{
    bytes.iter().all(|byte| is_digit(*byte))
}

/// The decimal value of digits; one past the type is given as its largest value.
fn capped_value(digits: &[u8]) -> u64
    requires { IsTrue (list_all digit digits.now) }
    ensures { result ≡ min (2 ^ 64 - 1) (value_of_digits digits.now) }
{
    let mut value: u64 = 0;
    for byte in digits {
        value = value
            .saturating_mul(10)
            .saturating_add(u64::from(*byte - b'0'));
    }
    value
}

/// The decimal value of one digit or more, however many there are and with leading zeros or none;
/// none where the bytes are no number. A value past the type is given as its largest value. `007` is
/// 7, and `+7` is no number.
pub fn parse_number(bytes: &[u8]) -> Option<u64>
    ensures { result ≡ option_map (min (2 ^ 64 - 1)) (number_in bytes.now) }
{
    if !bytes.is_empty() && are_digits(bytes) {
        Some(capped_value(bytes))
    } else {
        None
    }
}
