//! Files that are refused as they stand, and read as they are mended.
use gltf::{Document, Mesh, Primitive};
use gltf_extensions::supported;
use gltf_lenient::{Mends, Options, from_slice_with};
use std::alloc::{AllocError, Global};

/// Writes the images of the textures of a file, how many channels its animations have, and the
/// attributes of its primitives, with what the word before its text asks for: `channels`,
/// `sources`, `both`, `attributes` or `nothing`.
pub(crate) fn write(alloc: Global, case: &str, line: &mut String) -> Result<(), AllocError> {
    let (word, text) = case.split_once(" ").unwrap_or((case, ""));
    let options = Options {
        also_supported: supported(),
        mends: mends_of(word),
    };
    match from_slice_with(alloc, text.as_bytes(), &options) {
        Ok(opened) => write_document(&opened.gltf.document, line),
        Err(error) => write!(line, "{error}"),
    }
}

/// What is mended, by the word that asks for it.
pub(crate) fn mends_of(word: &str) -> Mends<'static> {
    Mends {
        skip_channels_without_node: matches!(word, "channels" | "both"),
        skip_unknown_attributes: word == "attributes",
        texture_sources: if matches!(word, "sources" | "both") {
            &["KHR_texture_basisu", "EXT_texture_webp"]
        } else {
            &[]
        },
    }
}

/// Writes the images of the textures of a document, how many channels its animations have, and the
/// attributes of its primitives.
pub(crate) fn write_document(document: &Document, line: &mut String) -> Result<(), AllocError> {
    line.push_str("images")?;
    let mut textures = document.textures();
    while let Some(texture) = textures.next() {
        write!(line, " {}", texture.source().index())?;
    }
    line.push_str(", channels")?;
    let mut animations = document.animations();
    while let Some(animation) = animations.next() {
        write!(line, " {}", animation.channels().count())?;
    }
    let mut meshes = document.meshes();
    while let Some(mesh) = meshes.next() {
        write_primitives(&mesh, line)?;
    }
    Ok(())
}

fn write_primitives(mesh: &Mesh<'_>, line: &mut String) -> Result<(), AllocError> {
    let mut primitives = mesh.primitives();
    while let Some(primitive) = primitives.next() {
        write_attributes(&primitive, line)?;
    }
    Ok(())
}

fn write_attributes(primitive: &Primitive<'_>, line: &mut String) -> Result<(), AllocError> {
    line.push_str(", attributes")?;
    for (semantic, _) in primitive.attributes() {
        write!(line, " {semantic}")?;
    }
    Ok(())
}
