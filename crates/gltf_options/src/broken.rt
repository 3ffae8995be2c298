//! Broken rules of a document without names, at the places of the file.
ghost use Rattle.std.specs.Prelude.{◌≡◌, [], IfOk, IfErr, OnOk, map};
ghost use Rattle.gltf_validation.specs.Documents.{Faults};
ghost use Rattle.gltf.specs.Errors.{OutOfMemoryOr};
ghost use Rattle.gltf_options.specs.Broken.{required_index};
ghost use Rattle.gltf_options.specs.Places.{index_in_file, in_file, TellsRulesInFile};
ghost use Rattle.gltf_options.specs.Places.{required_at as place_at};

use gltf::{Document, Error, Result};
use gltf_json::root::Root;
use gltf_json_record::path::{Path, Step};
use gltf_validation::error as validation;
use std::alloc::{AllocError, Global};

/// The document of these records, from which names were left out. The error has all broken rules at
/// the places of the file, in which the names that are left stand at `places`.
pub(crate) fn document_of(alloc: Global, root: Root, places: &[usize]) -> Result<Document>
    ensures same { IfOk result (λ document. document ≡ root) }
    ensures rules { OnOk result (Faults root ≡ []) }
    ensures refused { IfErr result (OutOfMemoryOr (TellsRulesInFile places.now root)) }
{
    match Document::from_json(alloc, root) {
        Err(Error::Validation(faults)) => {
            let faults = in_file(alloc, faults, places)?;
            Err(Error::Validation(faults))
        }
        answer => answer,
    }
}

/// These broken rules at the places of the file.
fn in_file(
    alloc: Global,
    faults: Vec<(Path, validation::Error)>,
    places: &[usize],
) -> Result<Vec<(Path, validation::Error)>, AllocError>
    ensures { IfOk result (λ told. told.items ≡ map (in_file places.now) faults.items) }
{
    let mut faults = faults;
    put_in_file(alloc, faults.as_mut_slice(), places)?;
    Ok(faults)
}

/// Puts each broken rule at its place in the file.
fn put_in_file(
    alloc: Global,
    faults: &mut [(Path, validation::Error)],
    places: &[usize],
) -> Result<(), AllocError>
    ensures { OnOk result (faults.new ≡ map (in_file places.now) faults.old) }
{
    for fault in faults.iter_mut() {
        put_one_in_file(alloc, fault, places)?;
    }
    Ok(())
}

fn put_one_in_file(
    alloc: Global,
    fault: &mut (Path, validation::Error),
    places: &[usize],
) -> Result<(), AllocError>
    ensures { OnOk result (fault.new ≡ in_file places.now fault.old) }
{
    if let Some(index) = index_in_file(&fault.0, places) {
        fault.0 = required_at(alloc, index)?;
    }
    Ok(())
}

/// The index in the file of the name in `extensionsRequired` that a path leads to.
fn index_in_file(path: &Path, places: &[usize]) -> Option<usize>
    ensures { result ≡ index_in_file places.now path.now }
{
    let index = required_index(path)?;
    places.get(index).copied()
}

/// The index of the name in `extensionsRequired` that a path leads to.
fn required_index(path: &Path) -> Option<usize>
    ensures { result ≡ required_index path.now }
{
    let [member, name] = path.steps() else {
        return None;
    };
    match (member, name) {
        (Step::Member(list), Step::Item(index)) if *list == "extensionsRequired" => Some(*index),
        _ => None,
    }
}

/// The path of the name at an index of `extensionsRequired`.
fn required_at(alloc: Global, index: usize) -> Result<Path, AllocError>
    ensures { IfOk result (λ path. path ≡ place_at index) }
{
    let mut path = Path::new(alloc);
    path.push(Step::Member("extensionsRequired"))?;
    path.push(Step::Item(index))?;
    Ok(path)
}
