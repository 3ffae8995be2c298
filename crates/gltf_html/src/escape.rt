//! Text as it stands in HTML.
ghost use Rattle.std.specs.Prelude.{◌≡◌, ◌++◌, OnOk};
ghost use Rattle.gltf_html.specs.Html.{html_byte, html_text, data_byte, data_text};

use std::alloc::AllocError;

/// Adds a text as it stands between tags, or within the quotes of an attribute: `&`, `<`, `>`, `"`
/// and `'` are character references (HTML, section 13.3, "Serializing HTML fragments"). Fails where
/// there is no memory.
pub fn add_text(html: &mut Vec<u8>, text: &[u8]) -> Result<(), AllocError>
    ensures { OnOk result (html.new.items ≡ html.old.items ++ html_text text.now) }
{
    for byte in text {
        add_byte(html, *byte)?;
    }
    Ok(())
}

fn add_byte(html: &mut Vec<u8>, byte: u8) -> Result<(), AllocError>
    ensures { OnOk result (html.new.items ≡ html.old.items ++ html_byte byte) }
{
    match byte {
        b'&' => html.extend_from_slice(b"&amp;")?,
        b'<' => html.extend_from_slice(b"&lt;")?,
        b'>' => html.extend_from_slice(b"&gt;")?,
        b'"' => html.extend_from_slice(b"&quot;")?,
        b'\'' => html.extend_from_slice(b"&#39;")?,
        other => html.push(other)?,
    }
    Ok(())
}

/// Adds a JSON text as it stands in a script of type `application/json`: `<`, which JSON has within
/// strings alone, is the escape `\u003c` there, so that the text ends no script and begins no
/// comment (HTML, section 4.12.1.3, "Restrictions for contents of script elements"). Fails where
/// there is no memory.
pub fn add_data(html: &mut Vec<u8>, json: &[u8]) -> Result<(), AllocError>
    ensures { OnOk result (html.new.items ≡ html.old.items ++ data_text json.now) }
{
    for byte in json {
        add_data_byte(html, *byte)?;
    }
    Ok(())
}

fn add_data_byte(html: &mut Vec<u8>, byte: u8) -> Result<(), AllocError>
    ensures { OnOk result (html.new.items ≡ html.old.items ++ data_byte byte) }
{
    match byte {
        b'<' => html.extend_from_slice(b"\\u003c")?,
        other => html.push(other)?,
    }
    Ok(())
}
