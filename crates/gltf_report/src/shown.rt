//! What a picture shows: the nodes of one scene and the meshes that they name.
use gltf_json::root::Root;
use std::alloc::{AllocError, Global};

/// The roots of the scene that is shown first, else of the first one; where there is no scene, the
/// nodes that are no children of others.
pub(crate) fn roots(alloc: Global, root: &Root) -> Result<Vec<usize>, AllocError> {
    let shown = match root.scene {
        Some(index) => index.value(),
        None => 0,
    };
    let mut roots = Vec::new(alloc);
    match root.scenes.get(shown) {
        Some(scene) => {
            for node in &scene.nodes {
                roots.push(node.value())?;
            }
        }
        None => add_parentless(alloc, root, &mut roots)?,
    }
    Ok(roots)
}

fn add_parentless(alloc: Global, root: &Root, roots: &mut Vec<usize>) -> Result<(), AllocError> {
    let mut are_children = vec![in alloc; false; root.nodes.len()]?;
    for node in &root.nodes {
        for child in &node.children {
            if let Some(is_child) = are_children.get_mut(child.value()) {
                *is_child = true;
            }
        }
    }
    for (i, is_child) in are_children.iter().enumerate() {
        if !*is_child {
            roots.push(i)?;
        }
    }
    Ok(())
}

/// The nodes below some roots, with these, and the meshes that they name.
#[derive(Drop)]
pub(crate) struct Shown {
    /// Of each node of the document, whether it is among them.
    nodes: Vec<bool>,
    /// Of each mesh.
    meshes: Vec<bool>,
}

impl Shown {
    /// What is shown below these roots.
    pub(crate) fn below(alloc: Global, root: &Root, roots: &[usize]) -> Result<Shown, AllocError> {
        let mut shown = Shown {
            nodes: vec![in alloc; false; root.nodes.len()]?,
            meshes: vec![in alloc; false; root.meshes.len()]?,
        };
        let mut met = Vec::new(alloc);
        for node in roots {
            shown.meet(*node, &mut met)?;
        }
        for i in 0..root.nodes.len() {
            let Some(node) = met.get(i) else {
                break;
            };
            let Some(node) = root.nodes.get(*node) else {
                break;
            };
            if let Some(mesh) = node.mesh {
                shown.show_mesh(mesh.value());
            }
            for child in &node.children {
                shown.meet(child.value(), &mut met)?;
            }
        }
        Ok(shown)
    }

    /// Adds a node to those that were met, the first time that it is met.
    fn meet(&mut self, node: usize, met: &mut Vec<usize>) -> Result<(), AllocError> {
        if let Some(is_met) = self.nodes.get_mut(node) {
            if !*is_met {
                *is_met = true;
                met.push(node)?;
            }
        }
        Ok(())
    }

    fn show_mesh(&mut self, mesh: usize) {
        if let Some(is_shown) = self.meshes.get_mut(mesh) {
            *is_shown = true;
        }
    }

    /// Whether a node is shown.
    pub(crate) fn has_node(&self, node: usize) -> bool {
        self.nodes.get(node).copied().unwrap_or(false)
    }

    /// Whether a mesh is shown.
    pub(crate) fn has_mesh(&self, mesh: usize) -> bool {
        self.meshes.get(mesh).copied().unwrap_or(false)
    }
}
