//! The formats of attributes (glTF 2.0, section 3.7.2.1), and where they may lie (section 3.6.2.4).
ghost use Rattle.std.specs.Prelude.{◌≡◌, OnOk};
ghost use Rattle.gltf_validation.specs.Locations.{places_of};
ghost use Rattle.gltf_findings.specs.Checks.{told_after, optional_checks};
ghost use Rattle.gltf_inspect_meshes.specs.Formats.{width, is_float, is_fraction, is_whole};
ghost use Rattle.gltf_inspect_meshes.specs.Formats.{is_allowed, aligned_checks, format_checks};
ghost use Rattle.gltf_inspect_meshes.specs.Formats.{formats_checks, aligned_index_checks};
ghost use Rattle.gltf_inspect_meshes.specs.Formats.{is_small, is_signed_fraction, is_quantized};
ghost use Rattle.gltf_inspect_meshes.specs.Formats.{is_format, declares_quantization};
ghost use Rattle.gltf_inspect_meshes.specs.Formats.{is_wide, fits_application};

use crate::item::{component_size, item_size, or_zero};
use crate::names::is_among;
use gltf_findings::code::Code;
use gltf_findings::findings::Findings;
use gltf_json::root::Root;
use gltf_json_geometry::accessor::{Accessor, ComponentType, Type};
use gltf_json_geometry::buffer::View;
use gltf_json_geometry::semantic::Semantic;
use gltf_json_record::index::Index;
use gltf_json_record::kinds;
use gltf_json_record::validation::Checked;
use gltf_validation::location::Location;
use std::alloc::AllocError;
use std::collections::BTreeMap;

/// Whether a document declares the extension `KHR_mesh_quantization`.
pub(crate) fn declares_quantization(root: &Root) -> bool
    ensures { result ≡ declares_quantization root.now }
{
    is_among("KHR_mesh_quantization", root.extensions_used.as_slice())
}

/// Reports what is found in the format of each attribute, in the order of their meanings.
pub(crate) fn tell_formats(
    root: &Root,
    quantized: bool,
    attributes: &BTreeMap<Semantic, Index<kinds::Accessor>>,
    location: &Location<'_>,
    findings: &mut Findings,
) -> Result<(), AllocError>
    ensures { OnOk result (findings.new ≡ told_after findings.old (places_of location.now)
        (formats_checks root.now quantized attributes.now.entries)) }
{
    for (semantic, index) in attributes {
        let at = Location::Attribute(&*location, semantic);
        if let Some(accessor) = root.accessors.as_slice().get(index.value()) {
            tell_format(root, quantized, semantic, accessor, &at, findings)?;
        }
    }
    Ok(())
}

fn tell_format(
    root: &Root,
    quantized: bool,
    semantic: &Semantic,
    accessor: &Accessor,
    location: &Location<'_>,
    findings: &mut Findings,
) -> Result<(), AllocError>
    ensures { OnOk result (findings.new ≡ told_after findings.old (places_of location.now)
        (format_checks root.now quantized semantic.now accessor.now)) }
{
    let is_format = is_format(
        quantized,
        semantic,
        width(accessor.type_),
        accessor.component_type,
        accessor.normalized,
    );
    findings.tell(is_format, Code::AttributeInvalidFormat, location)?;
    let fits = fits_application(semantic, accessor.component_type);
    findings.tell(fits, Code::AttributeUnsignedInt, location)?;
    let Some(index) = accessor.buffer_view else {
        return Ok(());
    };
    match root.buffer_views.as_slice().get(index.value()) {
        None => Ok(()),
        Some(view) => tell_alignment(accessor, view, location, findings),
    }
}

fn tell_alignment(
    accessor: &Accessor,
    view: &View,
    location: &Location<'_>,
    findings: &mut Findings,
) -> Result<(), AllocError>
    ensures { OnOk result (findings.new ≡ told_after findings.old (places_of location.now)
        (aligned_checks accessor.now view.now)) }
{
    let stride = match view.byte_stride {
        None => item_size(accessor.type_, component_size(accessor.component_type)),
        Some(stride) => stride,
    };
    let is_aligned = or_zero(accessor.byte_offset) % 4 == 0 && stride % 4 == 0;
    findings.tell(is_aligned, Code::AttributeUnaligned, location)
}

fn is_format(
    quantized: bool,
    semantic: &Semantic,
    width: u8,
    component: Checked<ComponentType>,
    normalized: bool,
) -> bool
    ensures { result ≡ is_format quantized semantic.now width component normalized }
{
    is_allowed(semantic, width, component, normalized)
        || quantized && fits_quantized(semantic, width, component, normalized)
}

fn fits_quantized(
    semantic: &Semantic,
    width: u8,
    component: Checked<ComponentType>,
    normalized: bool,
) -> bool
    ensures { result ≡ is_quantized semantic.now width component normalized }
{
    match semantic {
        Semantic::Positions => width == 3 && is_small(component),
        Semantic::Normals => width == 3 && is_signed_fraction(component, normalized),
        Semantic::Tangents => width == 4 && is_signed_fraction(component, normalized),
        Semantic::TexCoords(_) => width == 2 && is_small(component),
        _ => false,
    }
}

/// Whether an attribute is none of an application, or has components of another type than unsigned
/// integers of four bytes.
fn fits_application(semantic: &Semantic, component: Checked<ComponentType>) -> bool
    ensures { result ≡ fits_application semantic.now component }
{
    match semantic {
        Semantic::Extras(_) => !is_wide(component),
        _ => true,
    }
}

fn is_wide(component: Checked<ComponentType>) -> bool
    ensures { result ≡ is_wide component }
{
    matches!(component, Checked::Valid(ComponentType::U32))
}

fn is_allowed(
    semantic: &Semantic,
    width: u8,
    component: Checked<ComponentType>,
    normalized: bool,
) -> bool
    ensures { result ≡ is_allowed semantic.now width component normalized }
{
    match semantic {
        Semantic::Extras(_) => true,
        Semantic::Positions | Semantic::Normals => width == 3 && is_float(component, normalized),
        Semantic::Tangents => width == 4 && is_float(component, normalized),
        Semantic::Colors(_) => { (width == 3 || width == 4) && is_fraction(component, normalized) }
        Semantic::TexCoords(_) => width == 2 && is_fraction(component, normalized),
        Semantic::Joints(_) => width == 4 && is_whole(component, normalized),
        Semantic::Weights(_) => width == 4 && is_fraction(component, normalized),
    }
}

/// The number of components of a scalar or vector; 0 of a matrix, or where the code is in no table.
pub fn width(shape: Checked<Type>) -> u8
    ensures { result ≡ width shape }
{
    match shape {
        Checked::Valid(Type::Scalar) => 1,
        Checked::Valid(Type::Vec2) => 2,
        Checked::Valid(Type::Vec3) => 3,
        Checked::Valid(Type::Vec4) => 4,
        _ => 0,
    }
}

/// Whether components are floats as they stand.
pub fn is_float(component: Checked<ComponentType>, normalized: bool) -> bool
    ensures { result ≡ is_float component normalized }
{
    matches!(component, Checked::Valid(ComponentType::F32)) && !normalized
}

fn is_fraction(component: Checked<ComponentType>, normalized: bool) -> bool
    ensures { result ≡ is_fraction component normalized }
{
    match component {
        Checked::Valid(ComponentType::F32) => !normalized,
        Checked::Valid(ComponentType::U8 | ComponentType::U16) => normalized,
        _ => false,
    }
}

fn is_whole(component: Checked<ComponentType>, normalized: bool) -> bool
    ensures { result ≡ is_whole component normalized }
{
    matches!(
        component,
        Checked::Valid(ComponentType::U8 | ComponentType::U16)
    ) && !normalized
}

fn is_small(component: Checked<ComponentType>) -> bool
    ensures { result ≡ is_small component }
{
    matches!(
        component,
        Checked::Valid(
            ComponentType::I8 | ComponentType::U8 | ComponentType::I16 | ComponentType::U16
        )
    )
}

fn is_signed_fraction(component: Checked<ComponentType>, normalized: bool) -> bool
    ensures { result ≡ is_signed_fraction component normalized }
{
    matches!(
        component,
        Checked::Valid(ComponentType::I8 | ComponentType::I16)
    ) && normalized
}
