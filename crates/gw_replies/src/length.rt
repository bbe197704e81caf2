ghost use Rattle.std.specs.Prelude.{◌≡◌, ◌<◌, ◌≤◌, ℕ, List, true, codes, MatchOption, IsTrue};
ghost use Rattle.std.specs.Char.{is_ascii_digit};
ghost use Rattle.std.specs.List.{list_all};
ghost use Rattle.std.specs.Str.Parse.{digits_value};
ghost use Rattle.gw_messages.specs.model.Bodies.{limited_body};
ghost use Rattle.gw_messages.specs.model.Values.{are_one_number, number_of, values_of};
ghost use Rattle.gw_replies.specs.model.Responses.{announced_length};

use gw_messages::field::{Values, are_one_number, values_of};
use gw_messages::number::{is_number, number_up_to};
use gw_text::Field;

/// The most bytes of a body.
pub const MOST_BODY: usize = 8388608;

/// The number that a valid Content-Length gives, where there is one and 64 bits hold it.
pub fn announced_length(fields: &[Field]) -> Option<u64>
    ensures { result ≡ announced_length fields.now }
{
    if !is_one_length(fields) {
        return None;
    }
    match values_of(fields, b"content-length") {
        Values::Absent => None,
        Values::One(text) => wide_number(text),
        Values::Many(text) => wide_number(text),
    }
}

/// Whether the fields of Content-Length are numbers, all of them the same. A single one is looked at once.
pub fn is_one_length(fields: &[Field]) -> bool
    ensures { result ≡ are_one_number (values_of (codes "content-length") fields.now) }
{
    match values_of(fields, b"content-length") {
        Values::Absent => true,
        Values::One(text) => is_number(text),
        Values::Many(_) => are_one_number(fields, b"content-length"),
    }
}

/// The size of a body of the number that Content-Length gives: above the most, one size is as good as another.
pub fn announced_size(fields: &[Field]) -> usize
    requires { are_one_number (values_of (codes "content-length") fields.now) ≡ true }
    ensures { (bytes : List ℕ) → limited_body 8388608 result bytes ≡ limited_body 8388608 (number_of (values_of (codes "content-length") fields.now)) bytes }
{
    match values_of(fields, b"content-length") {
        Values::Absent => 0,
        Values::One(text) | Values::Many(text) => size_up_to_most(text),
    }
}

fn size_up_to_most(digits: &[u8]) -> usize
    requires { IsTrue (list_all is_ascii_digit digits.now) }
    ensures { (bytes : List ℕ) → limited_body 8388608 result bytes ≡ limited_body 8388608 (digits_value 10 digits.now) bytes }
{
    match number_up_to(MOST_BODY, digits) {
        Some(size) => size,
        None => MOST_BODY + 1,
    }
}

// The number that digits give, where 64 bits hold it.
fn wide_number(digits: &[u8]) -> Option<u64>
    requires { IsTrue (list_all is_ascii_digit digits.now) }
    ensures { MatchOption result (18446744073709551615 < digits_value 10 digits.now) (λ n. (n ≤ 18446744073709551615) × (n ≡ digits_value 10 digits.now)) }
{
    let mut number: u64 = 0;
    'digits: for digit in digits {
        number = number
            .checked_mul(10)?
            .checked_add(u64::from(*digit - b'0'))?;
    }
    Some(number)
}
