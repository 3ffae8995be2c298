//! Texts of records besides their names.
ghost use Rattle.std.specs.Prelude.{◌≡◌};
ghost use Rattle.std.specs.Option.{option_copied};
ghost use Rattle.gltf_c_look.specs.Texts.{text_kind_of, text_of, asset_at};

use gltf_json::Root;
use gltf_json::asset::Asset;

/// A text of a record.
#[derive(Clone, Copy, Debug, PartialEq, Eq)]
pub enum TextMember {
    /// `uri` of a buffer (glTF 2.0, section 5.10.1).
    BufferUri,
    /// `uri` of an image (section 5.18.1).
    ImageUri,
    /// `mimeType` of an image (section 5.18.2).
    ImageMimeType,
    /// `version` of the asset (section 5.9.3).
    Version,
    /// `minVersion` of the asset (section 5.9.4).
    MinVersion,
    /// `generator` of the asset (section 5.9.2).
    Generator,
    /// `copyright` of the asset (section 5.9.1).
    Copyright,
}

impl TextMember {
    /// The text of a number, where there is one.
    pub fn of(number: u32) -> Option<TextMember>
        ensures { result ≡ text_kind_of number }
    {
        match number {
            0 => Some(TextMember::BufferUri),
            1 => Some(TextMember::ImageUri),
            2 => Some(TextMember::ImageMimeType),
            3 => Some(TextMember::Version),
            4 => Some(TextMember::MinVersion),
            5 => Some(TextMember::Generator),
            6 => Some(TextMember::Copyright),
            _ => None,
        }
    }
}

/// The text of a number that the record at an index has. Those of the asset are at index 0.
pub fn text(root: &Root, member: u32, index: usize) -> Option<&str>
    ensures { option_copied result ≡ text_of member index root.now }
{
    match TextMember::of(member)? {
        TextMember::BufferUri => root.buffers.get(index)?.uri.as_deref(),
        TextMember::ImageUri => root.images.get(index)?.uri.as_deref(),
        TextMember::ImageMimeType => root.images.get(index)?.mime_type.as_deref(),
        TextMember::Version => Some(asset(root, index)?.version.as_str()),
        TextMember::MinVersion => asset(root, index)?.min_version.as_deref(),
        TextMember::Generator => asset(root, index)?.generator.as_deref(),
        TextMember::Copyright => asset(root, index)?.copyright.as_deref(),
    }
}

/// The asset, which is at index 0.
fn asset(root: &Root, index: usize) -> Option<&Asset>
    ensures { option_copied result ≡ asset_at index root.now }
{
    if index == 0 { Some(&root.asset) } else { None }
}
