//! Records that are lent at their indices and changed in code, and the paths of their members.
use crate::tests::texts::{TWO_NODES, TWO_REPLACED, records};
use gltf::json::accessor::ComponentType;
use gltf::json::boxed::Boxed;
use gltf::json::path::{Path, Step};
use gltf::json::validation::Checked;
use gltf::json::{Root, kinds};
use gltf::{Document, Records, Valid};
use std::alloc::{AllocError, Global};
use std::process::Abort;
use std::test::Fail;

#[test]
fn records_are_lent_at_their_indices(rt: HostRuntime) -> Result<(), Fail> {
    let valid = Valid::new(rt.alloc(), records(rt.alloc(), TWO_NODES)?)?;
    compare_node(&rt, &valid);
    Ok(())
}

/// The second node of a document of two.
fn compare_node(rt: &impl Abort, valid: &Valid) {
    let nodes = &valid.as_root().nodes;
    assert_eq!(rt; nodes.len(), 2);
    let node = valid.get::<kinds::Node>(1);
    assert_eq!(rt; node.name.as_deref(), Some("b"));
}

#[test]
fn stored_indices_of_another_type_break_a_rule(rt: HostRuntime) -> Result<(), Fail> {
    for code in [ComponentType::I8, ComponentType::I16, ComponentType::F32] {
        let mut root = records(rt.alloc(), TWO_REPLACED)?;
        change_indices(rt.alloc(), &mut root, code)?;
        let told = told_of(rt.alloc(), root)?;
        assert_eq!(rt;
            told.as_str(),
            "invalid glTF: accessors[0].sparse.indices.componentType: Invalid value;"
        );
    }
    Ok(())
}

/// Gives the stored indices of each accessor a type.
fn change_indices(alloc: Global, root: &mut Root, code: ComponentType) -> Result<(), AllocError> {
    for accessor in root.accessors.iter_mut() {
        if let Some(boxed) = accessor.sparse.take() {
            let mut sparse = boxed.into_inner();
            sparse.indices.component_type = Checked::Valid(code);
            accessor.sparse = Some(Boxed::new(alloc, sparse)?);
        }
    }
    Ok(())
}

/// What is reported of records that are validated.
fn told_of(alloc: Global, root: Root) -> Result<String, Fail> {
    match &Document::from_json(alloc, root) {
        Ok(_) => Ok(String::from_str(alloc, "accepted")?),
        Err(error) => Ok(error.to_string(alloc)?),
    }
}

#[test]
fn paths_are_made_from_within_and_from_without(rt: HostRuntime) -> Result<(), Fail> {
    let mut path = Path::new(rt.alloc());
    assert_eq!(rt; path.to_string(rt.alloc())?.as_str(), "");
    path.push(Step::Member("primitives"))?;
    path.push(Step::Item(7))?;
    path.push(Step::Member("attributes"))?;
    path.push(Step::Attribute(String::from_str(rt.alloc(), "_\"a.b\"")?))?;
    path.put_in_front(Step::Item(10))?;
    path.put_in_front(Step::Member("meshes"))?;
    let expected = r#"meshes[10].primitives[7].attributes["_"a.b""]"#;
    assert_eq!(rt; path.to_string(rt.alloc())?.as_str(), expected);
    let copy = path.clone(rt.alloc())?;
    assert_eq!(rt; copy.to_string(rt.alloc())?.as_str(), expected);
    Ok(())
}
