//! A file beside the JSON text of a document.

/// A file beside the JSON text of a document.
#[derive(Debug, Drop)]
pub struct Part {
    /// Its name in the folder of the text. The document names it by its URI, in which each byte
    /// that is no ASCII letter or digit and none of `-._~` is escaped.
    pub name: String,
    /// Its bytes.
    pub bytes: Vec<u8>,
}
