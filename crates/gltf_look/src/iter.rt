//! The lists of a document: each handle of a kind once, in index order.

ghost use Rattle.std.specs.Prelude.{length};
ghost use Rattle.gltf_handles.specs.Lists.{position};
ghost use Rattle.gltf_handles.specs.Members.{Follows};
ghost use Rattle.gltf_look.specs.Cameras.{IsCamera};
ghost use Rattle.gltf_look.specs.Documents.{AreCameras, AreImages, AreLights, AreVariants};
ghost use Rattle.gltf_look.specs.Documents.{AreSamplers, AreTextures};
ghost use Rattle.gltf_look.specs.Images.{IsImage};
ghost use Rattle.gltf_look.specs.Lights.{IsLight};
ghost use Rattle.gltf_look.specs.Textures.{IsSampler, IsTexture};
ghost use Rattle.gltf_look.specs.Variants.{IsVariant};
ghost use Rattle.gltf_rules.specs.Extensions.{variants_extension, variants_of};
ghost use Rattle.gltf_validation.specs.Lights.{lights_extension, lights_of};

use crate::camera::Camera;
use crate::image::Image;
use crate::khr_lights_punctual::Light;
use crate::khr_materials_variants::{self, Variant};
use crate::texture::{Sampler, Texture};
use gltf_handles::list::{Indexed, List};
use gltf_json::kinds;
use gltf_rules::Valid;
use gltf_rules::kind::Kind;

/// The cameras of a document (glTF 2.0, section 3.10, "Cameras").
pub type Cameras<'a> = List<AllCameras<'a>>;

/// The images of a document (glTF 2.0, section 3.8.3, "Images").
pub type Images<'a> = List<AllImages<'a>>;

/// The lights of a document (`KHR_lights_punctual`).
pub type Lights<'a> = List<AllLights<'a>>;

/// The variants of a document (`KHR_materials_variants`).
pub type Variants<'a> = List<AllVariants<'a>>;

/// The samplers of a document (glTF 2.0, section 3.8.4, "Samplers").
pub type Samplers<'a> = List<AllSamplers<'a>>;

/// The textures of a document (glTF 2.0, section 3.8.2, "Textures").
pub type Textures<'a> = List<AllTextures<'a>>;

/// All cameras of a document.
pub fn cameras<'a>(document: &'a Valid) -> Cameras<'a>
    ensures { AreCameras document.now (position result) }
{
    List::new(AllCameras { document })
}

/// All images of a document.
pub fn images<'a>(document: &'a Valid) -> Images<'a>
    ensures { AreImages document.now (position result) }
{
    List::new(AllImages { document })
}

/// All lights of a document; None where the document has not the extension.
pub fn lights<'a>(document: &'a Valid) -> Option<Lights<'a>>
    ensures { Follows (λ _ l. AreLights document.now (position l))
        (lights_extension document.now.extensions) result }
{
    let extensions = document.as_root().extensions.as_ref()?;
    let _present = extensions.khr_lights_punctual.as_ref()?;
    Some(List::new(AllLights { document }))
}

/// All variants of a document; None where the document has not the extension.
pub fn variants<'a>(document: &'a Valid) -> Option<Variants<'a>>
    ensures { Follows (λ _ v. AreVariants document.now (position v))
        (variants_extension document.now.extensions) result }
{
    let extensions = document.as_root().extensions.as_ref()?;
    let _present = extensions.khr_materials_variants.as_ref()?;
    Some(List::new(AllVariants { document }))
}

/// All samplers of a document.
pub fn samplers<'a>(document: &'a Valid) -> Samplers<'a>
    ensures { AreSamplers document.now (position result) }
{
    List::new(AllSamplers { document })
}

/// All textures of a document.
pub fn textures<'a>(document: &'a Valid) -> Textures<'a>
    ensures { AreTextures document.now (position result) }
{
    List::new(AllTextures { document })
}

/// The source that `Cameras` walks over.
#[derive(Clone, Copy, Debug)]
pub struct AllCameras<'a> {
    /// The document of the cameras.
    pub document: &'a Valid,
}

impl<'a> Indexed for AllCameras<'a> {
    type Item = Camera<'a>;

    ghost count = { λ s. length s.document.now.cameras.items };

    ghost gives = { λ s i c. IsCamera s.document.now i c };

    fn len(&self) -> usize {
        self.document.as_root().cameras.len()
    }

    fn get(&self, index: usize) -> Camera<'a> {
        Camera::new(self.document, index)
    }
}

/// The source that `Images` walks over.
#[derive(Clone, Copy, Debug)]
pub struct AllImages<'a> {
    /// The document of the images.
    pub document: &'a Valid,
}

impl<'a> Indexed for AllImages<'a> {
    type Item = Image<'a>;

    ghost count = { λ s. length s.document.now.images.items };

    ghost gives = { λ s i m. IsImage s.document.now i m };

    fn len(&self) -> usize {
        self.document.as_root().images.len()
    }

    fn get(&self, index: usize) -> Image<'a> {
        Image::new(self.document, index)
    }
}

/// The source that `Lights` walks over.
#[derive(Clone, Copy, Debug)]
pub struct AllLights<'a> {
    /// The document of the lights.
    pub document: &'a Valid,
}

impl<'a> Indexed for AllLights<'a> {
    type Item = Light<'a>;

    ghost count = { λ s. length (lights_of s.document.now.extensions) };

    ghost gives = { λ s i l. IsLight s.document.now i l };

    fn len(&self) -> usize {
        kinds::Light::list(self.document.as_root()).len()
    }

    fn get(&self, index: usize) -> Light<'a> {
        Light::new(self.document, index)
    }
}

/// The source that `Variants` walks over.
#[derive(Clone, Copy, Debug)]
pub struct AllVariants<'a> {
    /// The document of the variants.
    pub document: &'a Valid,
}

impl<'a> Indexed for AllVariants<'a> {
    type Item = Variant<'a>;

    ghost count = { λ s. length (variants_of s.document.now.extensions) };

    ghost gives = { λ s i v. IsVariant s.document.now i v };

    fn len(&self) -> usize {
        khr_materials_variants::records(self.document.as_root()).len()
    }

    fn get(&self, index: usize) -> Variant<'a> {
        Variant::new(self.document, index)
    }
}

/// The source that `Samplers` walks over.
#[derive(Clone, Copy, Debug)]
pub struct AllSamplers<'a> {
    /// The document of the samplers.
    pub document: &'a Valid,
}

impl<'a> Indexed for AllSamplers<'a> {
    type Item = Sampler<'a>;

    ghost count = { λ s. length s.document.now.samplers.items };

    ghost gives = { λ s i p. IsSampler s.document.now i p };

    fn len(&self) -> usize {
        self.document.as_root().samplers.len()
    }

    fn get(&self, index: usize) -> Sampler<'a> {
        Sampler::new(self.document, index)
    }
}

/// The source that `Textures` walks over.
#[derive(Clone, Copy, Debug)]
pub struct AllTextures<'a> {
    /// The document of the textures.
    pub document: &'a Valid,
}

impl<'a> Indexed for AllTextures<'a> {
    type Item = Texture<'a>;

    ghost count = { λ s. length s.document.now.textures.items };

    ghost gives = { λ s i t. IsTexture s.document.now i t };

    fn len(&self) -> usize {
        self.document.as_root().textures.len()
    }

    fn get(&self, index: usize) -> Texture<'a> {
        Texture::new(self.document, index)
    }
}
