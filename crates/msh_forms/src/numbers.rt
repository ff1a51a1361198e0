//! Numbers, offsets, and fixed words.

ghost use Rattle.std.specs.Prelude.{◌≡◌, ◌≤◌, true, length, pos, Some, None, if◌then◌else◌};
ghost use Rattle.std.specs.List.{list_all};
ghost use Rattle.std.specs.Str.Parse.{digits_value};
ghost use Rattle.vfs_model.specs.CommandWords.{is_digit, is_number, number_of, offset_of, same_word};

use vfs_base::OFF_MAX;

const MAX_DIGITS: usize = 19;

/// Whether a word is this text.
pub fn is_word(word: &[u8], text: &[u8]) -> bool
    ensures { result ≡ same_word word.now text.now }
{
    word == text
}

fn are_digits(word: &[u8]) -> bool
    ensures { result ≡ list_all is_digit word.now }
{
    word.iter().all(|&byte| 48 <= byte && byte <= 57)
}

// The number that up to 19 digits write.
fn value_of(digits: &[u8]) -> u64
    requires few { length digits.now ≤ 19 }
    requires digits { list_all is_digit digits.now ≡ true }
    ensures { result ≡ digits_value 10 digits.now }
{
    let mut value: u64 = 0;
    for byte in digits {
        value = value * 10 + u64::from(*byte - b'0');
    }
    value
}

/// The number that a word writes in decimal, zeros in front included: 1 to 19 digits, of a value up to
/// the greatest offset. `None` of any other word.
pub fn read_number(word: &[u8]) -> Option<u64>
    ensures { result ≡ number_of word.now }
{
    if word.is_empty() || MAX_DIGITS < word.len() || !are_digits(word) {
        return None;
    }
    let value = value_of(word);
    if OFF_MAX < value {
        return None;
    }
    Some(value)
}

/// The number that a word writes, perhaps with a minus before it. `None` of any other word.
pub fn read_offset(word: &[u8]) -> Option<i64>
    ensures { result ≡ offset_of word.now }
{
    match word {
        [] => None,
        [b'-', digits @ ..] => {
            let number = read_number(digits)?;
            Some(-(number as i64))
        }
        _ => {
            let number = read_number(word)?;
            Some(number as i64)
        }
    }
}
