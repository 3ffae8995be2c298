//! Text that stays on its line.
ghost use Rattle.std.specs.Prelude.{◌≡◌, ◌++◌, ℕ, List, OnOk, string_bytes, encode_utf8_all};
ghost use Rattle.gltf_report.specs.Printable.{is_control, hex_digit, escape, shown_char};
ghost use Rattle.gltf_report.specs.Printable.{shown_chars};

use std::alloc::AllocError;

/// Appends a text with each control character, and each separator of lines or paragraphs, as
/// `\uXXXX`, so that it ends no line. Fails where there is no memory.
pub fn push_printable(text: &str, shown: &mut String) -> Result<(), AllocError>
    ensures { OnOk result ((cs : List ℕ) × (encode_utf8_all cs ≡ text.now)
        × (string_bytes shown.new ≡ string_bytes shown.old ++ encode_utf8_all (shown_chars cs))) }
{
    for c in text.chars() {
        push_char(c, shown)?;
    }
    Ok(())
}

fn push_char(c: char, shown: &mut String) -> Result<(), AllocError>
    ensures { OnOk result
        (string_bytes shown.new ≡ string_bytes shown.old ++ encode_utf8_all (shown_char c)) }
{
    if is_control(c as u32) {
        push_escape(c as u32, shown)
    } else {
        shown.push(c)
    }
}

fn is_control(c: u32) -> bool
    ensures { result ≡ is_control c }
{
    c < 32 || c >= 127 && c < 160 || c == 0x2028 || c == 0x2029
}

fn push_escape(c: u32, shown: &mut String) -> Result<(), AllocError>
    ensures { OnOk result
        (string_bytes shown.new ≡ string_bytes shown.old ++ encode_utf8_all (escape c)) }
{
    shown.push('\\')?;
    shown.push('u')?;
    shown.push(hex_digit(c / 4096))?;
    shown.push(hex_digit(c / 256))?;
    shown.push(hex_digit(c / 16))?;
    shown.push(hex_digit(c))
}

/// The last hexadecimal digit of a number.
fn hex_digit(n: u32) -> char
    ensures { result ≡ hex_digit n }
{
    let digit = (n % 16) as u8;
    if digit < 10 {
        (b'0' + digit) as char
    } else {
        (87 + digit) as char
    }
}
