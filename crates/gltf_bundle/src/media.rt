//! The media types of images (glTF 2.0, section 3.8.3).
ghost use Rattle.std.specs.Prelude.{◌≡◌, ◌==◌, option_copied};
ghost use Rattle.std.specs.List.{list_all, before_first};
ghost use Rattle.gltf_bundle.specs.Media.{media_of, named_media, begun_media, is_webp, is_avif};
ghost use Rattle.gltf_bundle.specs.Media.{image_type, is_image_type, is_type_byte, data_head};

/// The media type of an image with this URI, this member `mimeType` and these bytes: that which a
/// `data:` URI names, where it is one of images; else the member, where it is; else the one of six
/// whose files begin so.
pub(crate) fn media_of<'a>(uri: &'a str, own: Option<&'a str>, bytes: &[u8]) -> Option<&'a str>
    ensures { option_copied result ≡ media_of uri.now (option_copied own.entry) bytes.now }
{
    if let Some(media) = named_media(uri) {
        return Some(media);
    }
    if let Some(media) = own.and_then(image_type) {
        return Some(media);
    }
    begun_media(bytes)
}

/// The media type that a `data:` URI names, where it is one of images.
pub fn named_media(uri: &str) -> Option<&str>
    ensures { option_copied result ≡ named_media uri.now }
{
    data_head(uri).and_then(image_type)
}

/// What stands between `data:` and the first semicolon, or the end, of a URI that begins so.
fn data_head(uri: &str) -> Option<&str>
    ensures { option_copied result ≡ data_head uri.now }
{
    before_semicolon(uri).strip_prefix("data:")
}

/// What stands before the first semicolon, or all.
fn before_semicolon(text: &str) -> &str
    ensures { result.now ≡ before_first (λ b. b == 59) text.now }
{
    match text.split_once(';') {
        Some((head, _)) => head,
        None => text,
    }
}

/// A text that is a media type of images.
fn image_type(text: &str) -> Option<&str>
    ensures { option_copied result ≡ image_type text.now }
{
    if is_image_type(text.as_bytes()) {
        Some(text)
    } else {
        None
    }
}

/// Whether a text is `image/` with a name behind it (RFC 6838, section 4.2).
fn is_image_type(text: &[u8]) -> bool
    ensures { result ≡ is_image_type text.now }
{
    text.starts_with(b"image/") && text.len() > 6 && is_type_name(&text[6..])
}

/// Whether each byte may stand in the name of a media type.
fn is_type_name(name: &[u8]) -> bool
    ensures { result ≡ list_all is_type_byte name.now }
{
    for b in name {
        if !is_type_byte(*b) {
            return false;
        }
    }
    true
}

/// Whether a byte may stand in the name of a media type (RFC 6838, section 4.2).
fn is_type_byte(b: u8) -> bool
    ensures { result ≡ is_type_byte b }
{
    b.is_ascii_alphanumeric() || b"!#$&-^_.+".contains(&b)
}

/// The media type of a file that begins so, where it is one of six.
pub fn begun_media(bytes: &[u8]) -> Option<&'static str>
    ensures { option_copied result ≡ begun_media bytes.now }
{
    if bytes.starts_with(b"\x89PNG\r\n\x1a\n") {
        Some("image/png")
    } else if bytes.starts_with(b"\xff\xd8\xff") {
        Some("image/jpeg")
    } else if is_webp(bytes) {
        Some("image/webp")
    } else if bytes.starts_with(b"\xabKTX 20\xbb\r\n\x1a\n") {
        Some("image/ktx2")
    } else if is_avif(bytes) {
        Some("image/avif")
    } else if bytes.starts_with(b"DDS ") {
        Some("image/vnd-ms.dds")
    } else {
        None
    }
}

/// Whether a file is a RIFF file of WebP: the four bytes between the two words are its length.
fn is_webp(bytes: &[u8]) -> bool
    ensures { result ≡ is_webp bytes.now }
{
    bytes.starts_with(b"RIFF") && bytes.len() >= 8 && bytes[8..].starts_with(b"WEBP")
}

/// Whether a file begins as one of AVIF: behind the four bytes of a length stand `ftyp` and the
/// brand of still images or of sequences.
fn is_avif(bytes: &[u8]) -> bool
    ensures { result ≡ is_avif bytes.now }
{
    bytes.len() >= 4 && (bytes[4..].starts_with(b"ftypavif") || bytes[4..].starts_with(b"ftypavis"))
}
