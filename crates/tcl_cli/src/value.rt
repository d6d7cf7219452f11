// The number of an option.

ghost use Rattle.std.specs.Prelude.{◌≡◌, ◌≤◌, ◌<◌, ◌^◌, length, Option, Some, None, option_map, fold, MatchOption};
ghost use Rattle.std.specs.List.{list_all};
ghost use Rattle.clap.specs.Lexer.{is_digit as is_digit_byte};
ghost use Rattle.tcl_cli.specs.Words.{is_value, number_in};

/// Whether the byte is a decimal digit.
fn is_digit(byte: u8) -> bool
    ensures { result ≡ is_digit_byte byte }
{
    b'0' <= byte && byte <= b'9'
}

/// Whether all bytes are decimal digits.
fn all_digits(text: &[u8]) -> bool
    ensures { result ≡ list_all is_digit_byte text.now }
{
    text.iter().all(|byte| is_digit(*byte))
}

/// Whether the text is 1 to 7 decimal digits.
fn is_in_form(text: &[u8]) -> bool
    ensures { result ≡ is_value text.now }
{
    1 <= text.len() && text.len() <= 7 && all_digits(text)
}

/// The number that 1 to 7 decimal digits give, where it is from `least` to `most`.
pub(crate) fn value_in(text: &str, least: u32, most: u32) -> Option<u32>
    ensures { result ≡ number_in least most text.now }
{
    if !is_in_form(text.as_bytes()) {
        return None;
    }
    match text.parse::<u32>() {
        Ok(value) => if least <= value && value <= most {
            Some(value)
        } else {
            None
        },
        Err(_) => None,
    }
}
