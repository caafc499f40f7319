//! The number at the front of a text, read in one pass.

ghost use Rattle.std.specs.Prelude.{◌≡◌, ◌<◌, ◌≤◌, ◌^◌, ℕ, ℤ, List, ◌∷◌, ◌++◌, length, IfSome, IfNone, option_copied};
ghost use Rattle.std.specs.Int.{w32};
ghost use Rattle.std.specs.Int.RustNames.{FitsSigned};
ghost use Rattle.std.specs.Str.Parse.{IsNumeral, digits_value, without_leading_sign, starts_with_minus};
ghost use Rattle.i_shape_tool.specs.Text.{IsDecimal, words_of, words_left};
ghost use Rattle.i_shape_tool.specs.Steps.Numeral.{EndsWord, HasDigits, SaysNumber, with_sign};

/// The absolute value of the least 32-bit number, which is the largest there is.
const LARGEST: u64 = 1 << 31;

/// Returns the number that the first word of a text writes, and the text after the space that ends the word.
pub(crate) fn first_number(text: &[u8]) -> Option<(i32, Option<&[u8]>)>
    ensures says { IfSome result
        (λ r. SaysNumber (words_of text.now) r.0 (words_left (option_copied r.1))) }
    ensures no_decimal { IfNone result ((word : List ℕ) (more : List (List ℕ)) (z : ℤ)
        → words_of text.now ≡ word ∷ more → IsDecimal word z → ⊥) }
    ensures shorter { IfSome result (λ r. IfSome r.1 (λ rest. length rest.now < length text.now)) }
{
    let (negative, digits) = without_sign(text);
    let (size, rest) = first_digits(digits)?;
    let number = signed(negative, size)?;
    let Some((next, rest)) = rest.split_first() else {
        return Some((number, None));
    };
    if *next != b' ' {
        return None;
    }
    Some((number, Some(rest)))
}

/// Returns whether a text begins with a minus, and the text without a leading sign.
fn without_sign(text: &[u8]) -> (bool, &[u8])
    ensures minus { result.0 ≡ starts_with_minus text.now }
    ensures left { result.1.now ≡ without_leading_sign text.now }
{
    let Some((first, _)) = text.split_first() else {
        return (false, text);
    };
    let negative = *first == b'-';
    let signs = usize::from(negative || *first == b'+');
    (negative, &text[signs..])
}

/// Returns the number that the leading digits of a text write, and the text after them, or `None` if there is no digit
/// or the number is too large for 32 bits.
#[tactic(auto, using(crate::proofs::Reading::Numerals::take_digit))]
fn first_digits(text: &[u8]) -> Option<(u64, &[u8])>
    ensures writes { IfSome result (λ r. HasDigits text.now r.0 r.1.now) }
    ensures fits { IfSome result (λ r. r.0 ≤ 2 ^ 31) }
    ensures none { IfNone result ((digits rest : List ℕ)
        → text.now ≡ digits ++ rest → EndsWord rest → IsNumeral 10 digits
        → 2 ^ 31 < digits_value 10 digits) }
{
    let mut size = 0;
    let mut rest = text;
    while let Some((first, after)) = rest.split_first() {
        if !first.is_ascii_digit() {
            break;
        }
        size = size * 10 + u64::from(first - b'0');
        if size > LARGEST {
            return None;
        }
        rest = after;
    }
    if rest.len() == text.len() {
        return None;
    }
    Some((size, rest))
}

/// Returns the number with this absolute value, below zero if `negative` is true, or `None` if it doesn't fit 32 bits.
fn signed(negative: bool, size: u64) -> Option<i32>
    requires { size ≤ 2 ^ 31 }
    ensures number { IfSome result (λ z. (z ≡ with_sign negative size) × FitsSigned w32 z) }
    ensures none { IfNone result (FitsSigned w32 (with_sign negative size) → ⊥) }
{
    let size = size as i64;
    i32::try_from(if negative { -size } else { size }).ok()
}
