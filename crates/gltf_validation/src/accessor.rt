//! The rules of accessors and their sparse parts (glTF 2.0, section 3.6.2).
ghost use Rattle.std.specs.Prelude.{◌≡◌};
ghost use Rattle.gltf_validation.specs.Accessors.{is_index_type, indices_rules, values_rules};
ghost use Rattle.gltf_validation.specs.Accessors.{sparse_rules, accessor_rules};

use crate::counts::Counts;
use crate::error::Error;
use crate::location::Location;
use crate::members::members;
use crate::report::Report;
use crate::validate::Validate;
use gltf_json_geometry::accessor::sparse::{Indices, Sparse, Values};
use gltf_json_geometry::accessor::{Accessor, ComponentType};
use gltf_json_record::validation::Checked;
use std::alloc::AllocError;

impl Validate for Indices {
    ghost rules = { λ c r. indices_rules c r };

    fn validate(
        &self,
        counts: &Counts,
        location: &Location<'_>,
        report: &mut Report,
    ) -> Result<(), AllocError> {
        members!(self, counts, location, report; {
            buffer_view: "bufferView",
            byte_offset: "byteOffset",
        })?;
        if is_index_type(self.component_type) {
            Ok(())
        } else {
            report.add(&Location::Member(location, "componentType"), Error::Invalid)
        }
    }
}

/// Whether a code is one that stored indices may have: that of unsigned numbers. A record that is
/// read from a text has no other; one that is made in code may.
fn is_index_type(code: Checked<ComponentType>) -> bool
    ensures { result ≡ is_index_type code }
{
    matches!(
        code,
        Checked::Valid(ComponentType::U8 | ComponentType::U16 | ComponentType::U32)
    )
}

impl Validate for Values {
    ghost rules = { λ c r. values_rules c r };

    fn validate(
        &self,
        counts: &Counts,
        location: &Location<'_>,
        report: &mut Report,
    ) -> Result<(), AllocError> {
        members!(self, counts, location, report; {
            buffer_view: "bufferView",
            byte_offset: "byteOffset",
        })
    }
}

impl Validate for Sparse {
    ghost rules = { λ c r. sparse_rules c r };

    fn validate(
        &self,
        counts: &Counts,
        location: &Location<'_>,
        report: &mut Report,
    ) -> Result<(), AllocError> {
        members!(self, counts, location, report; {
            count: "count",
            indices: "indices",
            values: "values",
        })
    }
}

impl Validate for Accessor {
    ghost rules = { λ c r. accessor_rules c r };

    fn validate(
        &self,
        counts: &Counts,
        location: &Location<'_>,
        report: &mut Report,
    ) -> Result<(), AllocError> {
        members!(self, counts, location, report; {
            buffer_view: "bufferView",
            byte_offset: "byteOffset",
            component_type: "componentType",
            count: "count",
            type_: "type",
            sparse: "sparse",
        })
    }
}
