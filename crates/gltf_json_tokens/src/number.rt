//! Numbers of JSON texts.
ghost use Rattle.std.specs.Prelude.{◌≡◌, true, false, option_map};
ghost use Rattle.serde_json.specs.Read.{number_of, number_from, float_of};
ghost use Rattle.serde_json.specs.View.{number_view};

use fast_float::Numeral;
use serde_json::Number;

/// The number that a number's token stands for, as `serde_json` reads it (RFC 8259, section 6). A
/// whole number that fits 64 bits stays whole, and any other is the nearest double. None where that
/// is infinite.
#[inline(always)]
pub fn number(text: &str) -> Option<Number>
    ensures { option_map number_view result ≡ number_of text.now }
{
    let bytes = text.as_bytes();
    if bytes.first() == Some(&b'-') {
        negative(&Numeral::scan(&bytes[1..]))
    } else {
        unsigned(&Numeral::scan(bytes))
    }
}

#[inline(always)]
fn unsigned(numeral: &Numeral<'_>) -> Option<Number>
    ensures { option_map number_view result ≡ number_from false numeral.now }
{
    match numeral.to_u64() {
        Some(whole) => Some(Number::from(whole)),
        None => nearest(false, numeral),
    }
}

// The number below zero with these digits. `-0` is a double.
#[inline(always)]
fn negative(numeral: &Numeral<'_>) -> Option<Number>
    ensures { option_map number_view result ≡ number_from true numeral.now }
{
    match numeral.to_i64(true) {
        Some(whole) if whole < 0 => Some(Number::from(whole)),
        _ => nearest(true, numeral),
    }
}

#[inline(always)]
fn nearest(is_negative: bool, numeral: &Numeral<'_>) -> Option<Number>
    ensures { option_map number_view result ≡ float_of is_negative numeral.now }
{
    Number::from_f64(numeral.to_float::<f64>(is_negative))
}
