ghost use Rattle.std.specs.Prelude.{◌≡◌, ◌<◌, ◌≤◌, ◌^◌, MatchOption, IsTrue};
ghost use Rattle.std.specs.Char.{is_ascii_digit};
ghost use Rattle.std.specs.List.{list_all};
ghost use Rattle.std.specs.Str.Parse.{digits_value};
ghost use Rattle.gw_messages.specs.model.Values.{is_number, without_zeros};

/// Whether the text is a number in digits.
pub fn is_number(text: &[u8]) -> bool
    ensures { result ≡ is_number text.now }
{
    !text.is_empty() && are_digits(text)
}

/// Whether each byte is a digit.
pub fn are_digits(text: &[u8]) -> bool
    ensures { result ≡ list_all is_ascii_digit text.now }
{
    text.iter().all(|byte| byte.is_ascii_digit())
}

/// The digits without zeros at the front.
pub fn without_zeros(digits: &[u8]) -> &[u8]
    ensures { result.now ≡ without_zeros digits.now }
{
    let mut left = digits;
    'zeros: while let Some((digit, rest)) = left.split_first() {
        if *digit != b'0' {
            return left;
        }
        left = rest;
    }
    left
}

/// The number that digits give, or none where it is above the most.
pub fn number_up_to(most: usize, digits: &[u8]) -> Option<usize>
    requires few { most < 2 ^ 32 }
    requires digits { IsTrue (list_all is_ascii_digit digits.now) }
    ensures { MatchOption result (most < digits_value 10 digits.now) (λ n. (n ≤ most) × (n ≡ digits_value 10 digits.now)) }
{
    let mut number: usize = 0;
    'digits: for digit in digits {
        number = number * 10 + usize::from(*digit - b'0');
        if number > most {
            return None;
        }
    }
    Some(number)
}
