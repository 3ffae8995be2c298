//! The members of the records of a document.
use crate::shown::Written;
use gltf::json::Root;

/// Prints a member of the records, by its name in JSON; all of them where it is the name of none.
pub fn write_member(root: &Root, name: &str, line: &mut String) -> Written {
    match name {
        "accessors" => write!(line, "{:?}", root.accessors),
        "animations" => write!(line, "{:?}", root.animations),
        "asset" => write!(line, "{:?}", root.asset),
        "buffers" => write!(line, "{:?}", root.buffers),
        "bufferViews" => write!(line, "{:?}", root.buffer_views),
        "cameras" => write!(line, "{:?}", root.cameras),
        "extensions" => write!(line, "{:?}", root.extensions),
        "extras" => write!(line, "{:?}", root.extras),
        "images" => write!(line, "{:?}", root.images),
        "materials" => write!(line, "{:?}", root.materials),
        "meshes" => write!(line, "{:?}", root.meshes),
        "nodes" => write!(line, "{:?}", root.nodes),
        "samplers" => write!(line, "{:?}", root.samplers),
        "scene" => write!(line, "{:?}", root.scene),
        "scenes" => write!(line, "{:?}", root.scenes),
        "skins" => write!(line, "{:?}", root.skins),
        "textures" => write!(line, "{:?}", root.textures),
        _ => write!(line, "{root:?}"),
    }
}
