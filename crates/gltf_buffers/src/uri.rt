//! Where the URI of a buffer or an image leads (glTF 2.0, section 2.8).
ghost use Rattle.std.specs.Prelude.{◌≡◌, ◌<◌, length, IfOk, IsOk, IsOkAnd, IsTrue, Option, is_some};
ghost use Rattle.std.specs.Prelude.{option_map, option_copied, codes};
ghost use Rattle.gltf_buffers.specs.Uri.{cut_at, before, text_behind, payload_of, absolute};
ghost use Rattle.gltf_buffers.specs.Uri.{relative, uri_of, HasNoPercentSign};
ghost use Rattle.gltf_buffers.specs.Meanings.{meaning, IsLent};
ghost use Rattle.percent_encoding.specs.Percent.{percent_decode};

use percent_encoding::{DecodeError, percent_decode};
use std::alloc::{AllocError, Global};
use std::borrow::CowStr;

pub mod laws;

/// Where a URI leads (glTF 2.0, section 2.8).
#[derive(Debug, PartialEq, Eq, Drop)]
pub enum Uri<'a> {
    /// A `data:` URI, with its payload as it stands, in base64.
    ///
    /// The payload is the text between the first `;base64,` and the next one or the end; without
    /// that mark it is all text after `data:`.
    Data(&'a str),
    /// A `file:` URI, with the path after `file://` or `file:` as it stands.
    File(&'a str),
    /// A relative reference, percent-decoded. It is lent where it has no `%`.
    Relative(CowStr<'a>),
    /// A URI of another scheme, or a relative reference whose percent-decoded bytes are not UTF-8.
    Unsupported,
}

/// What comes before the first mark, and what comes after it.
fn cut_at<'a>(text: &'a str, mark: &str) -> Option<(&'a str, &'a str)>
    requires { 0 < length mark.now }
    ensures { option_map (λ parts. (parts.0.now, parts.1.now)) result ≡ cut_at mark.now text.now }
{
    text.split_once(mark)
}

/// What comes before the first mark, or the text where there is none.
fn before<'a>(text: &'a str, mark: &str) -> &'a str
    requires { 0 < length mark.now }
    ensures { result.now ≡ before mark.now text.now }
{
    match cut_at(text, mark) {
        Some((before, _)) => before,
        None => text,
    }
}

/// What follows the prefix.
#[tactic(auto, using(crate::proofs::Prefixes::strip_text))]
fn text_behind<'a>(text: &'a str, prefix: &str) -> Option<&'a str>
    ensures { option_copied result ≡ text_behind prefix.now text.now }
{
    text.strip_prefix(prefix)
}

/// The payload in the text after `data:`. No byte of it is looked at twice.
#[tactic(auto, unfolding(crate::specs::Uri::payload_of))]
fn payload_of(text: &str) -> &str
    ensures { result.now ≡ payload_of text.now }
{
    let Some((_, payload)) = cut_at(text, ";base64,") else {
        return text;
    };
    before(payload, ";base64,")
}

/// Where a URI with a scheme leads.
fn absolute(text: &str) -> Uri<'_>
    ensures meaning { meaning result ≡ absolute text.now }
    ensures lent { IsLent result }
{
    if let Some(rest) = text_behind(text, "data:") {
        return Uri::Data(payload_of(rest));
    }
    if let Some(path) = text_behind(text, "file://") {
        return Uri::File(path);
    }
    if let Some(path) = text_behind(text, "file:") {
        return Uri::File(path);
    }
    Uri::Unsupported
}

/// Where a URI without a scheme leads.
#[tactic(auto, using(crate::proofs::Texts::relative_text, crate::proofs::Texts::no_text))]
fn relative(alloc: Global, text: &str) -> Result<Uri<'_>, AllocError>
    ensures meaning { IfOk result (λ uri. meaning uri ≡ relative (percent_decode text.now)) }
    ensures lent { HasNoPercentSign text.now → IsOkAnd result IsLent }
{
    match percent_decode(text.as_bytes()).decode_utf8(alloc) {
        Ok(path) => Ok(Uri::Relative(path)),
        Err(DecodeError::Utf8(_)) => Ok(Uri::Unsupported),
        Err(DecodeError::OutOfMemory) => Err(AllocError),
    }
}

impl<'a> Uri<'a> {
    /// Where a URI leads.
    ///
    /// The kind of a text that holds a `:` is that of its prefix, compared byte for byte: `data:`,
    /// `file://` or `file:`. Any other one is unsupported. A text that holds none is a relative
    /// reference. The `:` is looked for before anything is percent-decoded, so that `a%3Ab` is
    /// relative.
    ///
    /// Memory is taken only for a relative reference that holds a `%`; the error says that there
    /// was not enough.
    #[tactic(auto, unfolding(crate::specs::Uri::uri_of), using(crate::proofs::Cuts::contains_mark))]
    pub fn parse(alloc: Global, text: &'a str) -> Result<Uri<'a>, AllocError>
        ensures meaning { IfOk result (λ uri. meaning uri ≡ uri_of text.now) }
        ensures scheme { IsTrue (is_some (cut_at (codes ":") text.now)) → IsOk result }
        ensures lent { HasNoPercentSign text.now → IsOkAnd result IsLent }
    {
        if text.contains(":") {
            Ok(absolute(text))
        } else {
            relative(alloc, text)
        }
    }
}
