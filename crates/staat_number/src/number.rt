// Numbers in texts.
ghost use Rattle.std.specs.Prelude.{◌≡◌, ◌^◌, ◌<◌, ℕ, ℤ, IfSome, IfNone};
ghost use Rattle.staat_number.specs.Numbers.{integer_within, natural_within};
ghost use Rattle.staat_number.specs.Spelling.{IsInteger, IsNatural};

use crate::spelling::{natural_in, number_in};

/// The number of 0 or more, and of at most `most`, whose decimal text this is.
pub fn natural_of(digits: &str, most: u128) -> Option<u128>
    ensures exact { result ≡ natural_within most digits.now }
    ensures found { IfSome result (λ n. IsNatural most digits.now n) }
    ensures none { IfNone result ((n : ℕ) → IsNatural most digits.now n → ⊥) }
{
    natural_in(digits.as_bytes(), most)
}

/// The number of at most `most` in absolute value whose decimal text this is.
pub fn integer_of(text: &str, most: u128) -> Option<i128>
    requires { most < 2 ^ 100 }
    ensures exact { result ≡ integer_within most text.now }
    ensures found { IfSome result (λ z. IsInteger most text.now z) }
    ensures none { IfNone result ((z : ℤ) → IsInteger most text.now z → ⊥) }
{
    number_in(text.as_bytes(), most)
}
