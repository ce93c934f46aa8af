//! The number that a text of JSON writes.

ghost use Rattle.std.specs.Prelude.{◌≡◌, true, false, option_map, slice_index, ◌==◌};
ghost use Rattle.serde_json.specs.Find.{as_integer};
ghost use Rattle.serde_json.specs.Read.{number_of, number_from, float_of};

use fast_float::Numeral;

/// Returns the number in its text, where it is in range: a whole one, or none for a float.
pub fn number(text: &str) -> Option<Option<i128>>
    ensures { result ≡ option_map as_integer (number_of text.now) }
{
    let bytes = text.as_bytes();
    if has_minus(bytes) {
        negative(&Numeral::scan(&bytes[1..]))
    } else {
        unsigned(&Numeral::scan(bytes))
    }
}

fn has_minus(bytes: &[u8]) -> bool
    ensures { result ≡ (slice_index bytes.now 0 == 45) }
{
    !bytes.is_empty() && bytes[0] == b'-'
}

fn unsigned(numeral: &Numeral<'_>) -> Option<Option<i128>>
    ensures { result ≡ option_map as_integer (number_from false numeral.now) }
{
    match numeral.to_u64() {
        Some(n) => Some(Some(i128::from(n))),
        None => float(false, numeral),
    }
}

fn negative(numeral: &Numeral<'_>) -> Option<Option<i128>>
    ensures { result ≡ option_map as_integer (number_from true numeral.now) }
{
    if let Some(n) = numeral.to_i64(true) {
        if n < 0 {
            return Some(Some(i128::from(n)));
        }
    }
    float(true, numeral)
}

fn float(negative: bool, numeral: &Numeral<'_>) -> Option<Option<i128>>
    ensures { result ≡ option_map as_integer (float_of negative numeral.now) }
{
    if numeral.to_float::<f64>(negative).is_finite() {
        Some(None)
    } else {
        None
    }
}
