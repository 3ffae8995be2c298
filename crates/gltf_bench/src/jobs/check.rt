//! Files are checked: `gltf_inspect_files::inspect_slice`, and the report as JSON.
use crate::jobs::imported::add_imported;
use gltf_bench_digest::digest::{Digest, Digested};
use gltf_bench_digest::errors::add_error;
use gltf_bench_files::text::File;
use gltf_bench_files::{awkward, character, scene};
use gltf_inspect_files::inspect::{Inspected, inspect_slice};
use gltf_report::json::json_text;
use std::alloc::{AllocError, Global};

/// Checks three large files so many times: a scene of ten nodes for each cube, a character, and a
/// chain of thirty nodes for each cube.
pub fn check(
    alloc: Global,
    rounds: u32,
    cubes: u32,
    seed: u64,
    digest: &mut Digest,
) -> Result<(), AllocError> {
    let vertices = cubes.min(3250).saturating_mul(20);
    let mut files = Vec::new(alloc);
    files.push(scene::container(alloc, seed, cubes, scene::LAST)?)?;
    files.push(character::container(alloc, seed ^ 1, vertices, 1)?)?;
    files.push(awkward::chain(alloc, seed ^ 2, cubes.wrapping_mul(30))?)?;
    for _ in 0..rounds {
        for file in files.iter_mut() {
            file.renew();
            check_file(alloc, &file.bytes, digest)?;
        }
    }
    Ok(())
}

/// Checks a folder of so many small files, some of 2 kB and some of 100 kB, so many times. Each
/// eighth one is broken.
pub fn folder(
    alloc: Global,
    rounds: u32,
    count: u32,
    seed: u64,
    digest: &mut Digest,
) -> Result<(), AllocError> {
    let mut files = small_files(alloc, count, seed)?;
    for _ in 0..rounds {
        for (k, file) in files.iter_mut().enumerate() {
            file.renew();
            let end = if k % 8 == 7 { 40 } else { 0 };
            let length = file.bytes.len().saturating_sub(end);
            let (bytes, _rest) = file.bytes.split_at(length.min(file.bytes.len()));
            check_file(alloc, bytes, digest)?;
        }
    }
    Ok(())
}

/// Small files: of four a payload, two scenes and a chain.
fn small_files(alloc: Global, count: u32, seed: u64) -> Result<Vec<File>, AllocError> {
    let mut files = Vec::new(alloc);
    for k in 0..count {
        let seed = seed ^ u64::from(k).rotate_left(32);
        let size = k % 16 + 1;
        let file = match k % 4 {
            0 => awkward::payload(alloc, seed, size)?,
            1 => scene::container(alloc, seed, size, scene::LAST)?,
            2 => awkward::chain(alloc, seed, size * 20)?,
            _ => awkward::pretty_scene(alloc, seed, size)?,
        };
        files.push(file)?;
    }
    Ok(files)
}

/// Checks a file, and adds what is found.
pub fn check_file(alloc: Global, bytes: &[u8], digest: &mut Digest) -> Result<(), AllocError> {
    let file = inspect_slice(alloc, bytes)?;
    add_inspected(alloc, &file, digest)
}

/// Adds the report of a file as JSON, and what is imported or why nothing is.
pub fn add_inspected(
    alloc: Global,
    file: &Inspected,
    digest: &mut Digest,
) -> Result<(), AllocError> {
    let root = match &file.imported {
        Some((document, _buffers)) => Some(document.as_json()),
        None => None,
    };
    let report = json_text(alloc, "file.glb", &file.report, root, None, false)?;
    report.add_to(digest);
    match &file.imported {
        Some((document, buffers)) => add_imported(document, buffers, digest),
        None => digest.absent(),
    }
    match &file.cause {
        Some(error) => add_error(alloc, error, digest),
        None => digest.absent(),
    }
    Ok(())
}
