//! Files are opened: `gltf::import_slice` and `gltf::Gltf::from_vec`.
use crate::jobs::imported::add_import;
use gltf::Gltf;
use gltf_bench_digest::digest::{Digest, Digested};
use gltf_bench_digest::errors::add_error;
use gltf_bench_files::text::File;
use gltf_bench_files::{awkward, character, scene};
use std::alloc::{AllocError, Global};

/// Opens files so many times: a scene of ten nodes for each cube as a container and as pretty text,
/// a character, a payload, and what is awkward.
pub fn open(
    alloc: Global,
    rounds: u32,
    cubes: u32,
    seed: u64,
    digest: &mut Digest,
) -> Result<(), AllocError> {
    let mut files = files(alloc, cubes, seed)?;
    for round in 0..rounds {
        for (k, file) in files.iter_mut().enumerate() {
            file.renew();
            if k as u64 % 2 == u64::from(round % 2) {
                add_import(alloc, &file.bytes, digest);
            } else {
                open_vec(alloc, file, digest)?;
            }
        }
    }
    Ok(())
}

/// The files, of one to four megabytes each for a thousand cubes.
fn files(alloc: Global, cubes: u32, seed: u64) -> Result<Vec<File>, AllocError> {
    let mut files = Vec::new(alloc);
    files.push(scene::container(alloc, seed, cubes, scene::LAST)?)?;
    files.push(awkward::pretty_scene(alloc, seed ^ 1, cubes / 2)?)?;
    let animations = (cubes / 100).saturating_add(1);
    files.push(character::container(alloc, seed ^ 2, 200, animations)?)?;
    files.push(awkward::payload(alloc, seed ^ 3, cubes)?)?;
    files.push(awkward::short_elements(alloc, seed ^ 4, cubes)?)?;
    files.push(awkward::deep_extras(alloc, seed ^ 5, cubes)?)?;
    Ok(files)
}

/// Reads a file from bytes that are given up.
fn open_vec(alloc: Global, file: &File, digest: &mut Digest) -> Result<(), AllocError> {
    let copy = Vec::from_slice(alloc, &file.bytes)?;
    match Gltf::from_vec(alloc, copy) {
        Ok(read) => {
            read.document.as_json().add_to(digest);
            match &read.blob {
                Some(blob) => digest.bytes(blob),
                None => digest.absent(),
            }
        }
        Err(error) => add_error(alloc, &error, digest),
    }
    Ok(())
}
