//! Documents and their records, read from a text or from a file without its buffers.
use crate::told::{Told, tell};
use crate::{items, lists};
use gltf::json::{Root, Value, deserialize};
use gltf::{Document, Error, Gltf, RawGltf, Refused, Result, Valid, json};
use gltf_case::asked::Asked;
use gltf_case::bytes::bytes_of;
use gltf_case::members::write_member;
use gltf_case::refused::write_error;
use gltf_case::shown::{Written, prints_alike, tell_copy};
use std::alloc::Global;

/// Writes what a line says of the records of a text.
pub(crate) fn tell_root(
    alloc: Global,
    asked: Asked<'_>,
    bytes: &[u8],
    line: &mut String,
) -> Written {
    tell(alloc, asked, root_of(alloc, bytes), line)
}

/// Writes what a line says of the document of a text.
pub(crate) fn tell_document(
    alloc: Global,
    asked: Asked<'_>,
    bytes: &[u8],
    line: &mut String,
) -> Written {
    tell(alloc, asked, document_of(alloc, bytes), line)
}

/// Writes what a line says of a file without its buffers, whose records may break rules.
pub(crate) fn tell_records(
    alloc: Global,
    asked: Asked<'_>,
    bytes: &[u8],
    line: &mut String,
) -> Written {
    tell(
        alloc,
        asked,
        Gltf::from_slice_without_validation(alloc, bytes),
        line,
    )
}

/// Writes what a line says of a file without its buffers.
pub(crate) fn tell_file(
    alloc: Global,
    asked: Asked<'_>,
    bytes: &[u8],
    line: &mut String,
) -> Written {
    tell(alloc, asked, Gltf::from_slice(alloc, bytes), line)
}

/// The records of a text.
fn root_of(alloc: Global, bytes: &[u8]) -> Result<Root> {
    Ok(deserialize::from_slice(alloc, bytes)?)
}

/// Writes what a line says of the records of a text that come by another way: `by WAY MEMBER`.
///
/// - `value`: read from a JSON value.
/// - `lent`, `valid`: those that a valid document lends, and gives back.
/// - `document`, `raw`: those that a document gives back, and one that nobody has checked.
pub(crate) fn tell_by(alloc: Global, asked: Asked<'_>, bytes: &[u8], line: &mut String) -> Written {
    let member = asked.inner();
    match member.call {
        "value" => tell(alloc, member, root_of_value(alloc, bytes), line),
        "lent" => tell(alloc, member, valid_of(alloc, bytes), line),
        "valid" => tell(alloc, member, root_of_valid(alloc, bytes), line),
        "document" => tell(alloc, member, root_of_document(alloc, bytes), line),
        _ => tell(alloc, member, root_of_raw(alloc, bytes), line),
    }
}

/// The records of a JSON value of a text.
fn root_of_value(alloc: Global, bytes: &[u8]) -> Result<Root> {
    let value = Value::from_slice(alloc, bytes).map_err(json::Error::from)?;
    Ok(deserialize::from_value(alloc, &value)?)
}

/// The valid document of a text.
fn valid_of(alloc: Global, bytes: &[u8]) -> Result<Valid> {
    match Valid::new(alloc, root_of(alloc, bytes)?) {
        Ok(valid) => Ok(valid),
        Err(Refused::Rules(faults)) => Err(Error::Validation(faults)),
        Err(Refused::Memory) => Err(Error::Memory),
    }
}

/// The records that a valid document gives back.
fn root_of_valid(alloc: Global, bytes: &[u8]) -> Result<Root> {
    Ok(valid_of(alloc, bytes)?.into_root())
}

/// The records that a document gives back.
fn root_of_document(alloc: Global, bytes: &[u8]) -> Result<Root> {
    Ok(document_of(alloc, bytes)?.into_json())
}

/// The records that a document gives back which nobody has checked.
fn root_of_raw(alloc: Global, bytes: &[u8]) -> Result<Root> {
    Ok(Document::from_json_without_validation(root_of(alloc, bytes)?).into_json())
}

impl Told for Valid {
    /// A member of the records that it lends.
    fn tell(&self, _alloc: Global, asked: Asked<'_>, line: &mut String) -> Written {
        write_member(self.as_root(), asked.words, line)
    }
}

/// The document of a text.
pub(crate) fn document_of(alloc: Global, bytes: &[u8]) -> Result<Document> {
    Document::from_json(alloc, root_of(alloc, bytes)?)
}

impl Told for Root {
    /// A member, and whether a copy of the records prints otherwise.
    fn tell(&self, alloc: Global, asked: Asked<'_>, line: &mut String) -> Written {
        write_member(self, asked.words, line)?;
        tell_copy(alloc, self.clone(alloc), self, line)
    }
}

impl Told for Document {
    /// That it is accepted, and where it prints otherwise than the text does that is read again.
    fn tell(&self, alloc: Global, asked: Asked<'_>, line: &mut String) -> Written {
        line.push_str("accepted")?;
        tell_again(
            alloc,
            asked,
            &root_of(alloc, asked.given.as_bytes()),
            self.as_json(),
            line,
        )?;
        tell_copy(alloc, self.clone(alloc), self, line)
    }
}

/// Says where records print otherwise than those of a text that is read again.
fn tell_again(
    alloc: Global,
    asked: Asked<'_>,
    again: &Result<Root>,
    root: &Root,
    line: &mut String,
) -> Written {
    match again {
        Ok(again) => {
            if !prints_alike(alloc, again, root)? {
                line.push_str(", and is another")?;
            }
            Ok(())
        }
        Err(error) => write_error(asked, error, line),
    }
}

impl Told for RawGltf {
    /// Whether it is accepted, or every rule that it breaks. Where a member is asked for, it
    /// follows that with the blob.
    fn tell(&self, alloc: Global, asked: Asked<'_>, line: &mut String) -> Written {
        tell(alloc, asked, self.document.validate(alloc), line)?;
        if !asked.words.is_empty() {
            write!(line, " with blob {:?} and ", self.blob)?;
            write_member(self.document.as_json(), asked.words, line)?;
        }
        tell_copy(alloc, self.document.clone(alloc), &self.document, line)?;
        tell_copy(alloc, self.clone(alloc), self, line)
    }
}

impl Told for () {
    /// That the rules are kept.
    fn tell(&self, _alloc: Global, _asked: Asked<'_>, line: &mut String) -> Written {
        line.push_str("accepted")
    }
}

impl Told for Gltf {
    /// The blob, or a member of the records; handles, lists and extensions; or items over the blob.
    fn tell(&self, alloc: Global, asked: Asked<'_>, line: &mut String) -> Written {
        match asked.call {
            "file" => tell_file_of(alloc, asked, self, line),
            "open" => write!(line, "blob {:?}", self.blob),
            "over" => over(alloc, asked, &self.document, line),
            _ => lists::write(&self.document, asked, line),
        }
    }
}

/// The blob of a file, or a member of its records.
fn tell_file_of(alloc: Global, asked: Asked<'_>, file: &Gltf, line: &mut String) -> Written {
    if asked.words.is_empty() {
        write!(line, "blob {:?}", file.blob)?;
    } else {
        write_member(file.as_json(), asked.words, line)?;
    }
    tell_copy(alloc, file.clone(alloc), file, line)
}

/// The items of the first accessor, where each buffer has the bytes of the blob; it has none
/// without a blob.
fn over(alloc: Global, asked: Asked<'_>, document: &Document, line: &mut String) -> Written {
    match asked.blob {
        Some(digits) => {
            let bytes = bytes_of(alloc, digits)?;
            items::over(alloc, asked, document, Some(bytes.as_slice()), line)
        }
        None => items::over(alloc, asked, document, None, line),
    }
}
