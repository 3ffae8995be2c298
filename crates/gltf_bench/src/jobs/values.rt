//! Values are checked: `gltf_inspect_files::inspect_slice`, and the report as JSON, as text and as
//! a page.
use crate::jobs::check::add_inspected;
use gltf_bench_digest::digest::Digest;
use gltf_bench_files::rising;
use gltf_inspect_files::inspect::{Inspected, inspect_slice};
use gltf_report::page::page;
use gltf_report::text::write_text;
use std::alloc::{AllocError, Global};

/// Checks a scan so many times, whose accessors have 256 items for each of `size`: times, indices
/// and coordinates that rise, positions within their bounds, sparse ones among them, and floats
/// that are no numbers.
pub fn values(
    alloc: Global,
    rounds: u32,
    size: u32,
    seed: u64,
    digest: &mut Digest,
) -> Result<(), AllocError> {
    let mut scan = rising::container(alloc, seed, size.min(2000).wrapping_mul(256))?;
    for _ in 0..rounds {
        scan.renew();
        let file = inspect_slice(alloc, &scan.bytes)?;
        add_inspected(alloc, &file, digest)?;
        add_text(alloc, &file, digest);
        add_page(alloc, &file, digest)?;
    }
    Ok(())
}

/// Adds the report of a file as text.
fn add_text(alloc: Global, file: &Inspected, digest: &mut Digest) {
    let root = match &file.imported {
        Some((document, _buffers)) => Some(document.as_json()),
        None => None,
    };
    let cause = file.cause.as_ref();
    let mut text = Vec::new(alloc);
    match write_text(
        alloc,
        "file.glb",
        &file.report,
        cause,
        root,
        None,
        &mut text,
    ) {
        Ok(()) => digest.bytes(&text),
        Err(_) => digest.absent(),
    }
}

/// Adds the report of a file as a page.
fn add_page(alloc: Global, file: &Inspected, digest: &mut Digest) -> Result<(), AllocError> {
    let imported = match &file.imported {
        Some((document, buffers)) => Some((document, buffers.as_slice())),
        None => None,
    };
    let html = page(
        alloc,
        "file.glb",
        &file.report,
        file.cause.as_ref(),
        imported,
        None,
    )?;
    digest.bytes(&html);
    Ok(())
}
