//! The members that name an element of a list, and the elements that none names.
ghost use Rattle.std.specs.Prelude.{◌≡◌, IfOk};
ghost use Rattle.gltf_uses.specs.References.{references_of, unused_of};

use crate::kind::Kind;
use crate::sink::{Marks, Paths};
use crate::visit::Visit;
use gltf_json::path::Path;
use gltf_json::root::Root;
use gltf_validation::counts::Counts;
use gltf_validation::location::Location;
use std::alloc::{AllocError, Global};

/// The paths of all members of a document that hold this index into the list, in the order of the
/// document's members, which is that of the tables of section 5 of glTF 2.0. The members of the
/// extensions that are read are among them, as `material` of a mapping of `KHR_materials_variants`;
/// what is kept as JSON, in other extensions and in extras, is not looked at. The document may
/// break rules: no index is followed.
///
/// It takes one walk over the document, and memory for the paths alone. Fails where there is no
/// memory.
pub fn references(
    alloc: Global,
    root: &Root,
    kind: Kind,
    index: usize,
) -> Result<Vec<Path>, AllocError>
    ensures { IfOk result (λ paths. paths.items ≡ references_of root.now kind index) }
{
    let mut found = Paths {
        alloc,
        kind,
        index,
        paths: Vec::new(alloc),
    };
    root.visit(&Location::Whole, &mut found)?;
    let Paths { paths, .. } = found;
    Ok(paths)
}

/// The indices of those elements of the list that no member of the document names, in ascending
/// order: those at which `references` gives no path. A scene, or a node that scenes begin with, may
/// be shown though no member names it.
///
/// It takes one walk over the document, and memory in proportion to the length of the list. Fails
/// where there is no memory. `Usage` makes one walk for all lists.
pub fn unused(alloc: Global, root: &Root, kind: Kind) -> Result<Vec<usize>, AllocError>
    ensures { IfOk result (λ unused. unused.items ≡ unused_of root.now kind) }
{
    let marks = vec![in alloc; false; kind.count(&Counts::of(root))]?;
    let mut marked = Marks { kind, marks };
    root.visit(&Location::Whole, &mut marked)?;
    let Marks { marks, .. } = marked;
    let mut unused = Vec::new(alloc);
    for (i, is_used) in marks.iter().enumerate() {
        if !*is_used {
            unused.push(i)?;
        }
    }
    Ok(unused)
}
