//! Files are converted: `gltf_bundle::bundle`, `gltf_split::split` and `gltf_pack::repack`.
use gltf::{Name, Shelf};
use gltf_bench_digest::digest::{Digest, Digested};
use gltf_bench_digest::errors::add_error;
use gltf_bench_files::blob::{Blob, copies, floats};
use gltf_bench_files::random::Random;
use gltf_bench_files::scene::{self, looks};
use gltf_bench_files::text::File;
use gltf_bundle::{BundleOptions, bundle};
use gltf_pack::repack;
use gltf_split::{Pieces, SplitOptions, split};
use std::alloc::{AllocError, Global};

/// How many bytes an image has for each cube.
const IMAGE: u32 = 200;

/// Converts a text with files beside it so many times: to one container, that back to a text with
/// files, and that container anew. The text has ten nodes for each cube, and beside it lie two
/// buffers and 64 images.
pub fn convert(
    alloc: Global,
    rounds: u32,
    cubes: u32,
    seed: u64,
    digest: &mut Digest,
) -> Result<(), AllocError> {
    let mut text = text(alloc, seed, cubes)?;
    let mut cube_bytes = scene::bytes(alloc, cubes)?;
    let mut random = Random::new(seed);
    for _ in 0..rounds {
        text.renew();
        cube_bytes.renew(&mut random);
        let mut shelf = shelf(alloc, &text, &cube_bytes, cubes, &mut random)?;
        let options = BundleOptions {
            keep_images: false,
            keep_missing_images: false,
        };
        match bundle(alloc, &mut shelf, "scene.gltf", &options) {
            Ok(container) => {
                digest.bytes(&container);
                shelf.put(Name::File("scene.glb"), &container)?;
                add_split(alloc, &mut shelf, digest)?;
                add_repacked(alloc, &container, digest);
            }
            Err(error) => add_error(alloc, &error, digest),
        }
    }
    Ok(())
}

/// The text of the scene. Its cubes are in the first buffer, and a larger one, which is one view,
/// lies beside it.
fn text(alloc: Global, seed: u64, cubes: u32) -> Result<File, AllocError> {
    let mut file = scene::text_of_two(alloc, seed, cubes, scene::LAST, more(cubes))?;
    file.text("{\"uri\": \"cubes.bin\", \"byteLength\": ")?;
    file.number(u64::from(scene::length(cubes)))?;
    file.text("}, {\"uri\": \"more.bin\", \"byteLength\": ")?;
    file.number(u64::from(more(cubes)))?;
    file.text("}")?;
    file.text(scene::END)?;
    Ok(file)
}

/// How many bytes the second buffer has.
fn more(cubes: u32) -> u32 {
    cubes.wrapping_mul(8000)
}

/// The text, its buffers and its images. The second buffer and the images have other floats in each
/// round.
fn shelf(
    alloc: Global,
    text: &File,
    cube_bytes: &Blob,
    cubes: u32,
    random: &mut Random,
) -> Result<Shelf, AllocError> {
    let mut shelf = Shelf::new(alloc);
    shelf.put(Name::File("scene.gltf"), &text.bytes)?;
    shelf.put(Name::Relative("cubes.bin"), &cube_bytes.bytes)?;
    let piece = floats(alloc, random)?;
    let mut bytes = Vec::new(alloc);
    copies(&mut bytes, &piece, more(cubes))?;
    shelf.put(Name::Relative("more.bin"), &bytes)?;
    for k in 0..looks(cubes) {
        let name = format!(in alloc; "wood_color_{k}.png")?;
        let mut image = Vec::from_slice(alloc, b"\x89PNG\r\n\x1a\n")?;
        image.extend_from_slice(&k.to_le_bytes())?;
        copies(&mut image, &piece, cubes.wrapping_mul(IMAGE))?;
        shelf.put(Name::Relative(name.as_str()), &image)?;
    }
    Ok(shelf)
}

/// Splits the container, and adds the files.
fn add_split(alloc: Global, shelf: &mut Shelf, digest: &mut Digest) -> Result<(), AllocError> {
    let options = SplitOptions {
        keep_images: false,
        keep_missing_images: false,
        drop_image_views: true,
        pretty: false,
    };
    match split(alloc, shelf, "scene.glb", "scene", &options) {
        Ok(pieces) => add_pieces(&pieces, digest),
        Err(error) => add_error(alloc, &error, digest),
    }
    Ok(())
}

fn add_pieces(pieces: &Pieces, digest: &mut Digest) {
    pieces.json.add_to(digest);
    digest.count(pieces.buffers.len());
    for buffer in &pieces.buffers {
        buffer.name.add_to(digest);
        digest.bytes(&buffer.bytes);
    }
    digest.count(pieces.images.len());
    for image in &pieces.images {
        match image {
            Some(image) => {
                image.name.add_to(digest);
                digest.bytes(&image.bytes);
            }
            None => digest.absent(),
        }
    }
}

/// Writes the container anew, and adds it.
fn add_repacked(alloc: Global, container: &[u8], digest: &mut Digest) {
    match repack(alloc, container) {
        Ok(repacked) => digest.bytes(&repacked),
        Err(error) => add_error(alloc, &error, digest),
    }
}
