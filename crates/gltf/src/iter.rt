//! The lists of a document: each handle of a kind once, in index order.
pub use gltf_anim::iter::{AllAnimations, Animations, animations};
pub use gltf_data::iter::{
    Accessors, AllAccessors, AllBuffers, AllViews, Buffers, ExtensionsRequired, ExtensionsUsed,
    Texts, Views, accessors, buffers, extensions_required, extensions_used, views,
};
pub use gltf_look::iter::{
    AllCameras, AllImages, AllLights, AllSamplers, AllTextures, AllVariants, Cameras, Images,
    Lights, Samplers, Textures, Variants, cameras, images, lights, samplers, textures, variants,
};
pub use gltf_material::iter::{AllMaterials, Materials, materials};
pub use gltf_scene::iter::{
    AllMeshes, AllNodes, AllScenes, AllSkins, Meshes, Nodes, Scenes, Skins, default_scene, meshes,
    nodes, scenes, skins,
};
