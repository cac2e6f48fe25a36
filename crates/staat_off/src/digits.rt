// Decimal digits.
ghost use Rattle.std.specs.Prelude.{◌≡◌, ◌<◌, ◌^◌, min, true};
ghost use Rattle.std.specs.Char.{is_ascii_digit};
ghost use Rattle.std.specs.List.{list_all};
ghost use Rattle.std.specs.Str.Parse.{digits_value};
ghost use Rattle.staat_off.specs.Reading.{short_number};

pub(crate) fn all_digits(bytes: &[u8]) -> bool
    ensures { result ≡ list_all is_ascii_digit bytes.now }
{
    bytes.iter().all(|b| b.is_ascii_digit())
}

/// The number that digits write, or `most` where it is greater.
pub(crate) fn number_up_to(most: u32, digits: &[u8]) -> u32
    requires digits { list_all is_ascii_digit digits.now ≡ true }
    requires most { most < 2 ^ 28 }
    ensures { result ≡ min (digits_value 10 digits.now) most }
{
    let mut value = 0;
    for digit in digits {
        value = (value * 10 + u32::from(*digit - b'0')).min(most);
    }
    value
}

// One more than the greatest number of 7 digits.
const TEN_MILLION: u32 = 10_000_000;

/// The number that 1 to 7 digits write.
#[tactic(auto, using(crate::proofs::DigitLemmas::short_value), unfolding(crate::specs::Reading::short_number))]
pub(crate) fn short_number(text: &[u8]) -> Option<u32>
    ensures { result ≡ short_number text.now }
{
    if text.is_empty() || text.len() > 7 || !all_digits(text) {
        return None;
    }
    Some(number_up_to(TEN_MILLION, text))
}
