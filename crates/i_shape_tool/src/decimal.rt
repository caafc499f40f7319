//! Decimals, written two digits at a time, from the last ones backward.

ghost use Rattle.std.specs.Prelude.{◌≡◌, ◌<◌, ◌≤◌, ◌+◌, ◌/◌, ◌%◌, ◌∷◌, ◌++◌, length, drop, IsAscii};
ghost use Rattle.std.specs.Fmt.{decimal, signed_decimal};
ghost use Rattle.i_shape_tool.specs.Text.{space};

/// The two digits of each number below 100, in turn.
static PAIRS: [u8; 200] = *b"0001020304050607080910111213141516171819\
    2021222324252627282930313233343536373839\
    4041424344454647484950515253545556575859\
    6061626364656667686970717273747576777879\
    8081828384858687888990919293949596979899";

/// The most bytes that two 32-bit numbers take, with a space before each.
pub(crate) const POINT_ROOM: usize = 24;

/// Writes a space and the decimal of a number so that they end at `end`. Returns where they start.
#[tactic(auto, using(crate::proofs::Showing::Decimals::length_number, crate::proofs::Showing::Decimals::signed_ascii, crate::proofs::Showing::Decimals::minus_written, crate::proofs::Showing::Decimals::none_written))]
pub(crate) fn write_number(number: i32, text: &mut [u8], end: usize) -> usize
    requires { (12 ≤ end) × (end ≤ length text.old) }
    ensures room { end ≤ result + 12 }
    ensures ascii { IsAscii (signed_decimal number) }
    ensures written { drop result text.new ≡ space ∷ (signed_decimal number ++ drop end text.old) }
{
    let digits = write_digits(number.unsigned_abs(), text, end);
    // A number without a minus has its space in that place.
    text[digits - 1] = b'-';
    let start = if number < 0 { digits - 2 } else { digits - 1 };
    text[start] = b' ';
    start
}

/// Writes the digits of a number so that they end at `end`. Returns where they start.
#[tactic(auto, using(crate::proofs::Showing::Decimals::length_pair, crate::proofs::Showing::Decimals::length_two, crate::proofs::Showing::Decimals::length_one, std::proofs::lemmas::Fmt::decimal_digit, crate::proofs::Showing::Decimals::decimal_pair, crate::proofs::Showing::Decimals::decimal_two))]
fn write_digits(number: u32, text: &mut [u8], end: usize) -> usize
    requires { (length (decimal number) ≤ end) × (end ≤ length text.old) }
    ensures start { result + length (decimal number) ≡ end }
    ensures written { drop result text.new ≡ decimal number ++ drop end text.old }
{
    let mut left = number;
    let mut start = end;
    while left >= 100 {
        start -= 2;
        write_pair(left % 100, text, start);
        left /= 100;
    }
    if left >= 10 {
        write_pair(left, text, start - 2);
        return start - 2;
    }
    text[start - 1] = b'0' + left as u8;
    start - 1
}

/// Writes the two digits of a number below 100.
#[inline(always)]
fn write_pair(pair: u32, text: &mut [u8], start: usize)
    requires { (pair < 100) × (start + 2 ≤ length text.old) }
    ensures { drop start text.new ≡ (48 + pair / 10) ∷ (48 + pair % 10)
        ∷ drop (start + 2) text.old }
{
    let digits = pair as usize * 2;
    text[start] = PAIRS[digits];
    text[start + 1] = PAIRS[digits + 1];
}
