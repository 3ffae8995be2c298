//! What a finding says.
ghost use Rattle.std.specs.Prelude.{◌≡◌, ◌==◌};
ghost use Rattle.gltf_findings.specs.Codes.{code_text, sentence, severity, severity_number};
ghost use Rattle.gltf_findings.specs.Codes.{severity_text, may_refuse};

/// How grave a finding is.
#[derive(Clone, Copy, Debug, PartialEq, Eq)]
pub enum Severity {
    /// The standard forbids it.
    Error,
    /// It is allowed, and probably not meant.
    Warning,
    /// It may be of interest.
    Information,
    /// It could be better.
    Hint,
}

impl Severity {
    /// Its number in a report: 0 for an error, 1 for a warning, 2 for an information, 3 for a hint.
    pub fn number(self) -> u64
        ensures { result ≡ severity_number self }
    {
        match self {
            Severity::Error => 0,
            Severity::Warning => 1,
            Severity::Information => 2,
            Severity::Hint => 3,
        }
    }

    /// Its name: `error`, `warning`, `info` or `hint`.
    pub fn name(self) -> &'static str
        ensures { result.now ≡ severity_text self }
    {
        match self {
            Severity::Error => "error",
            Severity::Warning => "warning",
            Severity::Information => "info",
            Severity::Hint => "hint",
        }
    }

    /// Whether both are the same.
    pub fn is(self, other: Severity) -> bool
        ensures { result ≡ (severity_number self == severity_number other) }
    {
        self.number() == other.number()
    }
}

/// What is found, under the name that the Khronos validator has for it. What the standard says is
/// at the sections that stand with each (glTF 2.0).
#[derive(Clone, Copy, Debug, PartialEq, Eq)]
pub enum Code {
    /// `UNRESOLVED_REFERENCE`: The index leads to no element of its list (sections 5.1 to 5.31).
    UnresolvedReference,
    /// `VALUE_NOT_IN_LIST`: The value is none of those that the standard lists (sections 5.1 to
    /// 5.31).
    ValueNotInList,
    /// `MESH_PRIMITIVE_INVALID_ATTRIBUTE`: The name of the attribute is none of the standard's,
    /// and does not begin with an underscore (section 3.7.2.1).
    InvalidAttribute,
    /// `UNDEFINED_PROPERTY`: A member is absent that has to be there (section 5.12).
    UndefinedProperty,
    /// `ONE_OF_MISMATCH`: Of two members not exactly one is there: uri and bufferView of an image
    /// (section 5.18), perspective and orthographic of a camera (section 5.12).
    OneOfMismatch,
    /// `UNSATISFIED_DEPENDENCY`: A member is there without another one that it needs (sections 5.1,
    /// 5.18 and 5.25).
    UnsatisfiedDependency,
    /// `UNSUPPORTED_EXTENSION`: The extension is required, and this reader does not know it
    /// (section 3.12).
    RequiredExtension,
    /// `UNUSED_EXTENSION_REQUIRED`: The extension is required, and is not in extensionsUsed
    /// (section 3.12).
    UnusedExtensionRequired,
    /// `UNSUPPORTED_EXTENSION`: This reader does not know the extension, and leaves its data as
    /// they stand (section 3.12).
    UnsupportedExtension,
    /// `EMPTY_ENTITY`: The list or object is empty, and has to hold something (sections 5.2 to
    /// 5.28).
    EmptyEntity,
    /// `VALUE_NOT_IN_RANGE`: The number is out of its range (sections 5.1, 5.2, 5.10, 5.11, 5.13,
    /// 5.14, 5.19, 5.21 and 5.22).
    ValueNotInRange,
    /// `VALUE_MULTIPLE_OF`: The stride is not a multiple of 4 (section 5.11.4).
    ValueMultipleOf,
    /// `BUFFER_VIEW_TOO_BIG_BYTE_STRIDE`: The stride is greater than the length of the view
    /// (section 3.6.1).
    ViewTooBigByteStride,
    /// `BUFFER_VIEW_TOO_LONG`: The view does not fit into its buffer (section 3.6.1).
    ViewTooLong,
    /// `ACCESSOR_OFFSET_ALIGNMENT`: The offset is not a multiple of the size of a component
    /// (section 3.6.2.4).
    OffsetAlignment,
    /// `ACCESSOR_TOTAL_OFFSET_ALIGNMENT`: The offset and that of the view together are not a
    /// multiple of the size of a component (section 3.6.2.4).
    TotalOffsetAlignment,
    /// `ACCESSOR_TOO_LONG`: The items do not fit into the view (section 3.6.2.4).
    AccessorTooLong,
    /// `ACCESSOR_SMALL_BYTESTRIDE`: The stride of the view is less than the size of an item
    /// (section 3.6.2.4).
    SmallByteStride,
    /// `ACCESSOR_NORMALIZED_INVALID`: Only numbers of one or two bytes may be normalized (section
    /// 5.1.4).
    NormalizedInvalid,
    /// `ACCESSOR_SPARSE_COUNT_OUT_OF_RANGE`: More items are replaced than there are (section
    /// 5.2.1).
    SparseCountOutOfRange,
    /// `IMAGE_BUFFER_VIEW_WITH_BYTESTRIDE`: The view of an image has a stride (section 5.11.4).
    ImageViewWithByteStride,
    /// `MATERIAL_ALPHA_CUTOFF_INVALID_MODE`: The cutoff has a meaning in the mode MASK alone
    /// (section 3.9.4).
    AlphaCutoffInvalidMode,
    /// `MESH_PRIMITIVE_NO_POSITION`: The primitive has no positions (section 3.7.2.1).
    NoPosition,
    /// `MESH_PRIMITIVE_TANGENT_WITHOUT_NORMAL`: The primitive has tangents and no normals
    /// (section 3.7.2.1).
    TangentWithoutNormal,
    /// `MESH_PRIMITIVE_UNEQUAL_ACCESSOR_COUNT`: The attributes of the primitive have unequal
    /// numbers of items (section 3.7.2.1).
    UnequalAccessorCount,
    /// `MESH_PRIMITIVE_POSITION_ACCESSOR_WITHOUT_BOUNDS`: The accessor of the positions has no
    /// min or no max (section 3.7.2.1).
    PositionWithoutBounds,
    /// `MESH_PRIMITIVE_INDICES_ACCESSOR_INVALID_FORMAT`: The accessor of the indices is not one
    /// of unsigned whole numbers as they stand (section 3.7.2.1).
    IndicesInvalidFormat,
    /// `MESH_PRIMITIVE_INDICES_ACCESSOR_WITH_BYTESTRIDE`: The view of the indices has a stride
    /// (section 3.6.2.4).
    IndicesWithByteStride,
    /// `NODE_PARENT_OVERRIDE`: The node is a child already (section 3.5.2).
    NodeParentOverride,
    /// `NODE_MATRIX_TRS`: The node has a matrix, and a translation, rotation or scale as well
    /// (section 3.5.3).
    NodeMatrixTrs,
    /// `SKIN_IBM_INVALID_FORMAT`: The inverse bind matrices are not matrices of four by four
    /// floats (section 3.7.3.1).
    IbmInvalidFormat,
    /// `INVALID_IBM_ACCESSOR_COUNT`: There are fewer inverse bind matrices than joints (section
    /// 3.7.3.1).
    IbmCount,
    /// `ANIMATION_CHANNEL_TARGET_NODE_MATRIX`: The animated node has a matrix (section 3.11).
    ChannelTargetMatrix,
    /// `ANIMATION_SAMPLER_INPUT_ACCESSOR_INVALID_FORMAT`: The accessor of the times is not one of
    /// single floats (section 3.11).
    InputInvalidFormat,
    /// `ANIMATION_SAMPLER_INPUT_ACCESSOR_WITHOUT_BOUNDS`: The accessor of the times has no min or
    /// no max (section 3.11).
    InputWithoutBounds,
    /// `ANIMATION_SAMPLER_INPUT_ACCESSOR_TOO_FEW_ELEMENTS`: A cubic spline needs two times at
    /// least (section 3.11).
    InputTooFewElements,
    /// `UNUSED_OBJECT`: No member of the document names this object (section 5.17).
    UnusedObject,
    /// `IO_ERROR`: A file cannot be read (section 2.8).
    IoError,
    /// `GLB_INVALID_VERSION`: The version of the container is not 2 (section 4.4.2).
    GlbInvalidVersion,
    /// `GLB_LENGTH_TOO_SMALL`: The length in the header is less than that of the header (section
    /// 4.4.2).
    GlbLengthTooSmall,
    /// `GLB_LENGTH_MISMATCH`: The length in the header is not that of the file (section 4.4.2).
    GlbLengthMismatch,
    /// `GLB_UNEXPECTED_END_OF_HEADER`: The file ends within the header (section 4.4.2).
    GlbUnexpectedEndOfHeader,
    /// `GLB_UNEXPECTED_END_OF_CHUNK_HEADER`: The file ends within the header of a chunk (section
    /// 4.4.3).
    GlbUnexpectedEndOfChunkHeader,
    /// `GLB_CHUNK_TOO_BIG`: The chunk is longer than what is left of the file (section 4.4.3).
    GlbChunkTooBig,
    /// `GLB_UNEXPECTED_FIRST_CHUNK`: The first chunk is not the JSON chunk (section 4.4.3).
    GlbUnexpectedFirstChunk,
    /// `GLB_DUPLICATE_CHUNK`: There is a chunk of this type already (section 4.4.3).
    GlbDuplicateChunk,
    /// `INVALID_JSON`: The text is not JSON (section 2.7).
    InvalidJson,
    /// `TYPE_MISMATCH`: The value is not of the type that the standard gives this member (sections
    /// 5.1 to 5.31).
    TypeMismatch,
    /// `ARRAY_TYPE_MISMATCH`: The element is not of the type that the standard gives those of this
    /// list (sections 5.1 to 5.31).
    ArrayTypeMismatch,
    /// `INVALID_URI`: The URI cannot be decoded (section 2.8).
    InvalidUri,
    /// `BUFFER_MISSING_GLB_DATA`: The buffer has no uri, and the file has no binary chunk for it
    /// (section 3.6.1.2).
    BufferMissingGlbData,
    /// `BUFFER_BYTE_LENGTH_MISMATCH`: The buffer has fewer bytes than its byteLength (section
    /// 5.10.2).
    BufferByteLengthMismatch,
    /// `PATTERN_MISMATCH`: The version is not two numbers with a point between them (section 5.9).
    PatternMismatch,
    /// `UNKNOWN_ASSET_MAJOR_VERSION`: The major version is not 2 (section 3.2).
    UnknownMajorVersion,
    /// `ASSET_MIN_VERSION_GREATER_THAN_VERSION`: The least version is greater than the version
    /// (section 3.2).
    MinVersionGreaterThanVersion,
    /// `UNDECLARED_EXTENSION`: The extension is used, and is not in extensionsUsed (section 3.12).
    UndeclaredExtension,
    /// `DUPLICATE_ELEMENTS`: An earlier element of the list is the same (sections 5.17, 5.25, 5.27
    /// and 5.28).
    DuplicateElements,
    /// `BUFFER_VIEW_TARGET_MISSING`: The view holds attributes or indices, and has no target
    /// (section 3.6.1).
    ViewTargetMissing,
    /// `MESH_PRIMITIVE_INDEXED_SEMANTIC_CONTINUITY`: The sets of colors, texture coordinates,
    /// joints or weights are not numbered from 0 without a gap (section 3.7.2.1).
    IndexedSemanticContinuity,
    /// `MESH_PRIMITIVE_JOINTS_WEIGHTS_MISMATCH`: There are not as many sets of joints as of
    /// weights (section 3.7.3.3).
    JointsWeightsMismatch,
    /// `MESH_PRIMITIVE_ATTRIBUTES_ACCESSOR_INVALID_FORMAT`: The accessor's types are not among
    /// those that the standard lists for this attribute (section 3.7.2.1).
    AttributeInvalidFormat,
    /// `MESH_PRIMITIVE_ACCESSOR_UNALIGNED`: The offset or the stride of the attribute is not a
    /// multiple of 4 (section 3.6.2.4).
    AttributeUnaligned,
    /// `MESH_PRIMITIVE_INCOMPATIBLE_MODE`: The number of vertices or indices does not fit the mode
    /// (section 3.7.2.1).
    IncompatibleMode,
    /// `MESH_PRIMITIVE_TOO_FEW_TEXCOORDS`: The material uses a set of texture coordinates that the
    /// primitive does not have (section 3.9.2).
    TooFewTexcoords,
    /// `MESH_PRIMITIVE_MORPH_TARGET_NO_BASE_ACCESSOR`: The primitive does not have the attribute
    /// that the morph target displaces (section 3.7.2.2).
    MorphTargetNoBaseAccessor,
    /// `MESH_PRIMITIVE_MORPH_TARGET_INVALID_ATTRIBUTE_COUNT`: The morph target has not as many
    /// items as the attribute that it displaces (section 3.7.2.2).
    MorphTargetInvalidCount,
    /// `MESH_PRIMITIVES_UNEQUAL_TARGETS_COUNT`: The primitives of the mesh have unequal numbers of
    /// morph targets (section 3.7.2.2).
    UnequalTargetsCount,
    /// `MESH_INVALID_WEIGHTS_COUNT`: There are not as many weights as morph targets (section
    /// 3.7.2.2).
    MeshInvalidWeightsCount,
    /// `NODE_LOOP`: The node is among its own ancestors (section 3.5.2).
    NodeLoop,
    /// `NODE_EMPTY`: The node is empty, and no skin has it as a joint (section 5.25).
    NodeEmpty,
    /// `NODE_WEIGHTS_INVALID`: There are not as many weights as morph targets in the mesh of the
    /// node (section 3.7.2.2).
    NodeWeightsInvalid,
    /// `NODE_SKIN_WITH_NON_SKINNED_MESH`: The node has a skin, and no primitive of its mesh has
    /// joints (section 3.7.3.3).
    SkinWithNonSkinnedMesh,
    /// `NODE_SKINNED_MESH_WITHOUT_SKIN`: A primitive of the node's mesh has joints, and the node
    /// has no skin (section 3.7.3.3).
    SkinnedMeshWithoutSkin,
    /// `SCENE_NON_ROOT_NODE`: The node is a child, and a scene may name roots alone (section
    /// 3.5.1).
    SceneNonRootNode,
    /// `SKIN_NO_COMMON_ROOT`: The joints do not have a common root (section 3.7.3.2).
    SkinNoCommonRoot,
    /// `SKIN_SKELETON_INVALID`: The skeleton is not a common root of the joints (section 3.7.3.2).
    SkinSkeletonInvalid,
    /// `CAMERA_ZFAR_LEQUAL_ZNEAR`: The far plane is not farther than the near plane (sections 5.13
    /// and 5.14).
    CameraZfarLequalZnear,
    /// `ANIMATION_DUPLICATE_TARGETS`: An earlier channel of the animation has the same target
    /// (section 3.11).
    DuplicateTargets,
    /// `ANIMATION_CHANNEL_TARGET_NODE_WEIGHTS_NO_MORPHS`: Weights are animated, and the node has
    /// no mesh with morph targets (section 3.11).
    ChannelTargetNoMorphs,
    /// `ANIMATION_SAMPLER_OUTPUT_ACCESSOR_INVALID_FORMAT`: The accessor's types are not among
    /// those that the standard lists for what is animated (section 3.11).
    OutputInvalidFormat,
    /// `ANIMATION_SAMPLER_OUTPUT_ACCESSOR_INVALID_COUNT`: The number of values does not fit the
    /// number of times (section 3.11).
    OutputInvalidCount,
    /// `ACCESSOR_INDEX_OOB`: An index is at or above the number of vertices (section 3.7.2.1).
    IndexOob,
    /// `ACCESSOR_INDEX_PRIMITIVE_RESTART`: An index is the greatest of its type, which would
    /// restart the primitive (section 3.7.2.1).
    IndexPrimitiveRestart,
    /// `ACCESSOR_INDEX_TRIANGLE_DEGENERATE`: A triangle names a vertex twice (section 3.7.2.1).
    IndexTriangleDegenerate,
    /// `ACCESSOR_SPARSE_INDICES_NON_INCREASING`: A sparse index is not greater than the one before
    /// (section 5.2).
    SparseIndicesNonIncreasing,
    /// `ACCESSOR_SPARSE_INDEX_OOB`: A sparse index is at or above the number of items (section
    /// 5.2).
    SparseIndexOob,
    /// `ACCESSOR_INVALID_FLOAT`: A component is infinite or not a number (section 3.6.2.2).
    InvalidFloat,
    /// `ACCESSOR_MIN_MISMATCH`: The stated minimum is not the least value (section 3.6.2.5).
    MinMismatch,
    /// `ACCESSOR_MAX_MISMATCH`: The stated maximum is not the greatest value (section 3.6.2.5).
    MaxMismatch,
    /// `ACCESSOR_ELEMENT_OUT_OF_MIN_BOUND`: An item is below the stated minimum (section 3.6.2.5).
    ElementOutOfMinBound,
    /// `ACCESSOR_ELEMENT_OUT_OF_MAX_BOUND`: An item is above the stated maximum (section 3.6.2.5).
    ElementOutOfMaxBound,
    /// `ACCESSOR_ANIMATION_INPUT_NEGATIVE`: A time is negative (section 3.11).
    AnimationInputNegative,
    /// `ACCESSOR_ANIMATION_INPUT_NON_INCREASING`: A time is not greater than the one before
    /// (section 3.11).
    AnimationInputNonIncreasing,
    /// `ACCESSOR_ITEMS_NOT_LOOKED_AT`: The items of the accessor were not looked at, since those of
    /// all accessors are too many for a file of this size.
    ItemsNotLookedAt,
    /// `MEMBER_NEEDED_BY_READER`: The standard lets this member be absent (the source of a texture,
    /// section 5.29.2; the node of a channel's target, section 5.7.1), and this reader does not load
    /// a file without it. It is no rule of the standard.
    NeededByReader,
    /// `MESH_PRIMITIVE_ATTRIBUTES_ACCESSOR_UNSIGNED_INT`: The attribute is one of an application,
    /// and its components are unsigned integers of four bytes (section 3.7.2.1).
    AttributeUnsignedInt,
}

impl Code {
    /// Whether a file with such a finding may be one that is not loaded: an error, or a member that
    /// this reader alone needs. Files that are not loaded have one (`gltf_inspect_files::laws`).
    pub fn may_refuse(self) -> bool
        ensures { result ≡ may_refuse self }
    {
        match self {
            Code::NeededByReader => true,
            _ => self.severity().is(Severity::Error),
        }
    }

    /// How grave it is.
    pub fn severity(self) -> Severity
        ensures { result ≡ severity self }
    {
        match self {
            Code::AlphaCutoffInvalidMode
            | Code::NoPosition
            | Code::TangentWithoutNormal
            | Code::IncompatibleMode
            | Code::SkinnedMeshWithoutSkin
            | Code::ItemsNotLookedAt
            | Code::NeededByReader => Severity::Warning,
            Code::UnsupportedExtension
            | Code::UnusedObject
            | Code::NodeEmpty
            | Code::IndexTriangleDegenerate => Severity::Information,
            Code::ViewTargetMissing => Severity::Hint,
            Code::UnresolvedReference
            | Code::ValueNotInList
            | Code::InvalidAttribute
            | Code::UndefinedProperty
            | Code::OneOfMismatch
            | Code::UnsatisfiedDependency
            | Code::RequiredExtension
            | Code::UnusedExtensionRequired
            | Code::EmptyEntity
            | Code::ValueNotInRange
            | Code::ValueMultipleOf
            | Code::ViewTooBigByteStride
            | Code::ViewTooLong
            | Code::OffsetAlignment
            | Code::TotalOffsetAlignment
            | Code::AccessorTooLong
            | Code::SmallByteStride
            | Code::NormalizedInvalid
            | Code::SparseCountOutOfRange
            | Code::ImageViewWithByteStride
            | Code::UnequalAccessorCount
            | Code::PositionWithoutBounds
            | Code::IndicesInvalidFormat
            | Code::IndicesWithByteStride
            | Code::NodeParentOverride
            | Code::NodeMatrixTrs
            | Code::IbmInvalidFormat
            | Code::IbmCount
            | Code::ChannelTargetMatrix
            | Code::InputInvalidFormat
            | Code::InputWithoutBounds
            | Code::InputTooFewElements
            | Code::IoError
            | Code::GlbInvalidVersion
            | Code::GlbLengthTooSmall
            | Code::GlbLengthMismatch
            | Code::GlbUnexpectedEndOfHeader
            | Code::GlbUnexpectedEndOfChunkHeader
            | Code::GlbChunkTooBig
            | Code::GlbUnexpectedFirstChunk
            | Code::GlbDuplicateChunk
            | Code::InvalidJson
            | Code::TypeMismatch
            | Code::ArrayTypeMismatch
            | Code::InvalidUri
            | Code::BufferMissingGlbData
            | Code::BufferByteLengthMismatch
            | Code::PatternMismatch
            | Code::UnknownMajorVersion
            | Code::MinVersionGreaterThanVersion
            | Code::UndeclaredExtension
            | Code::DuplicateElements
            | Code::IndexedSemanticContinuity
            | Code::JointsWeightsMismatch
            | Code::AttributeInvalidFormat
            | Code::AttributeUnaligned
            | Code::TooFewTexcoords
            | Code::MorphTargetNoBaseAccessor
            | Code::MorphTargetInvalidCount
            | Code::UnequalTargetsCount
            | Code::MeshInvalidWeightsCount
            | Code::NodeLoop
            | Code::NodeWeightsInvalid
            | Code::SkinWithNonSkinnedMesh
            | Code::SceneNonRootNode
            | Code::SkinNoCommonRoot
            | Code::SkinSkeletonInvalid
            | Code::CameraZfarLequalZnear
            | Code::DuplicateTargets
            | Code::ChannelTargetNoMorphs
            | Code::OutputInvalidFormat
            | Code::OutputInvalidCount
            | Code::IndexOob
            | Code::IndexPrimitiveRestart
            | Code::SparseIndicesNonIncreasing
            | Code::SparseIndexOob
            | Code::InvalidFloat
            | Code::MinMismatch
            | Code::MaxMismatch
            | Code::ElementOutOfMinBound
            | Code::ElementOutOfMaxBound
            | Code::AnimationInputNegative
            | Code::AnimationInputNonIncreasing
            | Code::AttributeUnsignedInt => Severity::Error,
        }
    }

    /// Its name.
    pub fn name(self) -> &'static str
        ensures { result.now ≡ code_text self }
    {
        match self {
            Code::UnresolvedReference => "UNRESOLVED_REFERENCE",
            Code::ValueNotInList => "VALUE_NOT_IN_LIST",
            Code::InvalidAttribute => "MESH_PRIMITIVE_INVALID_ATTRIBUTE",
            Code::UndefinedProperty => "UNDEFINED_PROPERTY",
            Code::OneOfMismatch => "ONE_OF_MISMATCH",
            Code::UnsatisfiedDependency => "UNSATISFIED_DEPENDENCY",
            Code::RequiredExtension => "UNSUPPORTED_EXTENSION",
            Code::UnusedExtensionRequired => "UNUSED_EXTENSION_REQUIRED",
            Code::UnsupportedExtension => "UNSUPPORTED_EXTENSION",
            Code::EmptyEntity => "EMPTY_ENTITY",
            Code::ValueNotInRange => "VALUE_NOT_IN_RANGE",
            Code::ValueMultipleOf => "VALUE_MULTIPLE_OF",
            Code::ViewTooBigByteStride => "BUFFER_VIEW_TOO_BIG_BYTE_STRIDE",
            Code::ViewTooLong => "BUFFER_VIEW_TOO_LONG",
            Code::OffsetAlignment => "ACCESSOR_OFFSET_ALIGNMENT",
            Code::TotalOffsetAlignment => "ACCESSOR_TOTAL_OFFSET_ALIGNMENT",
            Code::AccessorTooLong => "ACCESSOR_TOO_LONG",
            Code::SmallByteStride => "ACCESSOR_SMALL_BYTESTRIDE",
            Code::NormalizedInvalid => "ACCESSOR_NORMALIZED_INVALID",
            Code::SparseCountOutOfRange => "ACCESSOR_SPARSE_COUNT_OUT_OF_RANGE",
            Code::ImageViewWithByteStride => "IMAGE_BUFFER_VIEW_WITH_BYTESTRIDE",
            Code::AlphaCutoffInvalidMode => "MATERIAL_ALPHA_CUTOFF_INVALID_MODE",
            Code::NoPosition => "MESH_PRIMITIVE_NO_POSITION",
            Code::TangentWithoutNormal => "MESH_PRIMITIVE_TANGENT_WITHOUT_NORMAL",
            Code::UnequalAccessorCount => "MESH_PRIMITIVE_UNEQUAL_ACCESSOR_COUNT",
            Code::PositionWithoutBounds => "MESH_PRIMITIVE_POSITION_ACCESSOR_WITHOUT_BOUNDS",
            Code::IndicesInvalidFormat => "MESH_PRIMITIVE_INDICES_ACCESSOR_INVALID_FORMAT",
            Code::IndicesWithByteStride => "MESH_PRIMITIVE_INDICES_ACCESSOR_WITH_BYTESTRIDE",
            Code::NodeParentOverride => "NODE_PARENT_OVERRIDE",
            Code::NodeMatrixTrs => "NODE_MATRIX_TRS",
            Code::IbmInvalidFormat => "SKIN_IBM_INVALID_FORMAT",
            Code::IbmCount => "INVALID_IBM_ACCESSOR_COUNT",
            Code::ChannelTargetMatrix => "ANIMATION_CHANNEL_TARGET_NODE_MATRIX",
            Code::InputInvalidFormat => "ANIMATION_SAMPLER_INPUT_ACCESSOR_INVALID_FORMAT",
            Code::InputWithoutBounds => "ANIMATION_SAMPLER_INPUT_ACCESSOR_WITHOUT_BOUNDS",
            Code::InputTooFewElements => "ANIMATION_SAMPLER_INPUT_ACCESSOR_TOO_FEW_ELEMENTS",
            Code::UnusedObject => "UNUSED_OBJECT",
            Code::IoError => "IO_ERROR",
            Code::GlbInvalidVersion => "GLB_INVALID_VERSION",
            Code::GlbLengthTooSmall => "GLB_LENGTH_TOO_SMALL",
            Code::GlbLengthMismatch => "GLB_LENGTH_MISMATCH",
            Code::GlbUnexpectedEndOfHeader => "GLB_UNEXPECTED_END_OF_HEADER",
            Code::GlbUnexpectedEndOfChunkHeader => "GLB_UNEXPECTED_END_OF_CHUNK_HEADER",
            Code::GlbChunkTooBig => "GLB_CHUNK_TOO_BIG",
            Code::GlbUnexpectedFirstChunk => "GLB_UNEXPECTED_FIRST_CHUNK",
            Code::GlbDuplicateChunk => "GLB_DUPLICATE_CHUNK",
            Code::InvalidJson => "INVALID_JSON",
            Code::TypeMismatch => "TYPE_MISMATCH",
            Code::ArrayTypeMismatch => "ARRAY_TYPE_MISMATCH",
            Code::InvalidUri => "INVALID_URI",
            Code::BufferMissingGlbData => "BUFFER_MISSING_GLB_DATA",
            Code::BufferByteLengthMismatch => "BUFFER_BYTE_LENGTH_MISMATCH",
            Code::PatternMismatch => "PATTERN_MISMATCH",
            Code::UnknownMajorVersion => "UNKNOWN_ASSET_MAJOR_VERSION",
            Code::MinVersionGreaterThanVersion => "ASSET_MIN_VERSION_GREATER_THAN_VERSION",
            Code::UndeclaredExtension => "UNDECLARED_EXTENSION",
            Code::DuplicateElements => "DUPLICATE_ELEMENTS",
            Code::ViewTargetMissing => "BUFFER_VIEW_TARGET_MISSING",
            Code::IndexedSemanticContinuity => "MESH_PRIMITIVE_INDEXED_SEMANTIC_CONTINUITY",
            Code::JointsWeightsMismatch => "MESH_PRIMITIVE_JOINTS_WEIGHTS_MISMATCH",
            Code::AttributeInvalidFormat => "MESH_PRIMITIVE_ATTRIBUTES_ACCESSOR_INVALID_FORMAT",
            Code::AttributeUnaligned => "MESH_PRIMITIVE_ACCESSOR_UNALIGNED",
            Code::IncompatibleMode => "MESH_PRIMITIVE_INCOMPATIBLE_MODE",
            Code::TooFewTexcoords => "MESH_PRIMITIVE_TOO_FEW_TEXCOORDS",
            Code::MorphTargetNoBaseAccessor => "MESH_PRIMITIVE_MORPH_TARGET_NO_BASE_ACCESSOR",
            Code::MorphTargetInvalidCount => "MESH_PRIMITIVE_MORPH_TARGET_INVALID_ATTRIBUTE_COUNT",
            Code::UnequalTargetsCount => "MESH_PRIMITIVES_UNEQUAL_TARGETS_COUNT",
            Code::MeshInvalidWeightsCount => "MESH_INVALID_WEIGHTS_COUNT",
            Code::NodeLoop => "NODE_LOOP",
            Code::NodeEmpty => "NODE_EMPTY",
            Code::NodeWeightsInvalid => "NODE_WEIGHTS_INVALID",
            Code::SkinWithNonSkinnedMesh => "NODE_SKIN_WITH_NON_SKINNED_MESH",
            Code::SkinnedMeshWithoutSkin => "NODE_SKINNED_MESH_WITHOUT_SKIN",
            Code::SceneNonRootNode => "SCENE_NON_ROOT_NODE",
            Code::SkinNoCommonRoot => "SKIN_NO_COMMON_ROOT",
            Code::SkinSkeletonInvalid => "SKIN_SKELETON_INVALID",
            Code::CameraZfarLequalZnear => "CAMERA_ZFAR_LEQUAL_ZNEAR",
            Code::DuplicateTargets => "ANIMATION_DUPLICATE_TARGETS",
            Code::ChannelTargetNoMorphs => "ANIMATION_CHANNEL_TARGET_NODE_WEIGHTS_NO_MORPHS",
            Code::OutputInvalidFormat => "ANIMATION_SAMPLER_OUTPUT_ACCESSOR_INVALID_FORMAT",
            Code::OutputInvalidCount => "ANIMATION_SAMPLER_OUTPUT_ACCESSOR_INVALID_COUNT",
            Code::IndexOob => "ACCESSOR_INDEX_OOB",
            Code::IndexPrimitiveRestart => "ACCESSOR_INDEX_PRIMITIVE_RESTART",
            Code::IndexTriangleDegenerate => "ACCESSOR_INDEX_TRIANGLE_DEGENERATE",
            Code::SparseIndicesNonIncreasing => "ACCESSOR_SPARSE_INDICES_NON_INCREASING",
            Code::SparseIndexOob => "ACCESSOR_SPARSE_INDEX_OOB",
            Code::InvalidFloat => "ACCESSOR_INVALID_FLOAT",
            Code::MinMismatch => "ACCESSOR_MIN_MISMATCH",
            Code::MaxMismatch => "ACCESSOR_MAX_MISMATCH",
            Code::ElementOutOfMinBound => "ACCESSOR_ELEMENT_OUT_OF_MIN_BOUND",
            Code::ElementOutOfMaxBound => "ACCESSOR_ELEMENT_OUT_OF_MAX_BOUND",
            Code::AnimationInputNegative => "ACCESSOR_ANIMATION_INPUT_NEGATIVE",
            Code::AnimationInputNonIncreasing => "ACCESSOR_ANIMATION_INPUT_NON_INCREASING",
            Code::ItemsNotLookedAt => "ACCESSOR_ITEMS_NOT_LOOKED_AT",
            Code::NeededByReader => "MEMBER_NEEDED_BY_READER",
            Code::AttributeUnsignedInt => "MESH_PRIMITIVE_ATTRIBUTES_ACCESSOR_UNSIGNED_INT",
        }
    }

    /// What it says, in a sentence.
    pub fn sentence(self) -> &'static str
        ensures { result.now ≡ sentence self }
    {
        match self {
            Code::UnresolvedReference => "The index leads to no element of its list.",
            Code::ValueNotInList => "The value is none of those that the standard lists.",
            Code::InvalidAttribute =>
                "The name of the attribute is none of the standard's, and does not begin with an underscore.",
            Code::UndefinedProperty => "A member is absent that has to be there.",
            Code::OneOfMismatch => "Of two members exactly one has to be there.",
            Code::UnsatisfiedDependency => "A member is there without another one that it needs.",
            Code::RequiredExtension =>
                "The extension is required, and this reader does not know it.",
            Code::UnusedExtensionRequired =>
                "The extension is required, and is not in extensionsUsed.",
            Code::UnsupportedExtension =>
                "This reader does not know the extension, and leaves its data as they stand.",
            Code::EmptyEntity => "The list or object is empty, and has to hold something.",
            Code::ValueNotInRange => "The number is out of its range.",
            Code::ValueMultipleOf => "The stride is not a multiple of 4.",
            Code::ViewTooBigByteStride => "The stride is greater than the length of the view.",
            Code::ViewTooLong => "The view does not fit into its buffer.",
            Code::OffsetAlignment => "The offset is not a multiple of the size of a component.",
            Code::TotalOffsetAlignment =>
                "The offset and that of the view together are not a multiple of the size of a component.",
            Code::AccessorTooLong => "The items do not fit into the view.",
            Code::SmallByteStride => "The stride of the view is less than the size of an item.",
            Code::NormalizedInvalid => "Only numbers of one or two bytes may be normalized.",
            Code::SparseCountOutOfRange => "More items are replaced than there are.",
            Code::ImageViewWithByteStride => "The view of an image has a stride.",
            Code::AlphaCutoffInvalidMode => "The cutoff has a meaning in the mode MASK alone.",
            Code::NoPosition => "The primitive has no positions.",
            Code::TangentWithoutNormal => "The primitive has tangents and no normals.",
            Code::UnequalAccessorCount =>
                "The attributes of the primitive have unequal numbers of items.",
            Code::PositionWithoutBounds => "The accessor of the positions has no min or no max.",
            Code::IndicesInvalidFormat =>
                "The accessor of the indices is not one of unsigned whole numbers as they stand.",
            Code::IndicesWithByteStride => "The view of the indices has a stride.",
            Code::NodeParentOverride => "The node is a child already.",
            Code::NodeMatrixTrs =>
                "The node has a matrix, and a translation, rotation or scale as well.",
            Code::IbmInvalidFormat =>
                "The inverse bind matrices are not matrices of four by four floats.",
            Code::IbmCount => "There are fewer inverse bind matrices than joints.",
            Code::ChannelTargetMatrix => "The animated node has a matrix.",
            Code::InputInvalidFormat => "The accessor of the times is not one of single floats.",
            Code::InputWithoutBounds => "The accessor of the times has no min or no max.",
            Code::InputTooFewElements => "A cubic spline needs two times at least.",
            Code::UnusedObject => "No member of the document names this object.",
            Code::IoError => "A file cannot be read.",
            Code::GlbInvalidVersion => "The version of the container is not 2.",
            Code::GlbLengthTooSmall => "The length in the header is less than that of the header.",
            Code::GlbLengthMismatch => "The length in the header is not that of the file.",
            Code::GlbUnexpectedEndOfHeader => "The file ends within the header.",
            Code::GlbUnexpectedEndOfChunkHeader => "The file ends within the header of a chunk.",
            Code::GlbChunkTooBig => "The chunk is longer than what is left of the file.",
            Code::GlbUnexpectedFirstChunk => "The first chunk is not the JSON chunk.",
            Code::GlbDuplicateChunk => "There is a chunk of this type already.",
            Code::InvalidJson => "The text is not JSON.",
            Code::TypeMismatch =>
                "The value is not of the type that the standard gives this member.",
            Code::ArrayTypeMismatch =>
                "The element is not of the type that the standard gives those of this list.",
            Code::InvalidUri => "The URI cannot be decoded.",
            Code::BufferMissingGlbData =>
                "The buffer has no uri, and the file has no binary chunk for it.",
            Code::BufferByteLengthMismatch => "The buffer has fewer bytes than its byteLength.",
            Code::PatternMismatch => "The version is not two numbers with a point between them.",
            Code::UnknownMajorVersion => "The major version is not 2.",
            Code::MinVersionGreaterThanVersion => "The least version is greater than the version.",
            Code::UndeclaredExtension => "The extension is used, and is not in extensionsUsed.",
            Code::DuplicateElements => "An earlier element of the list is the same.",
            Code::ViewTargetMissing => "The view holds attributes or indices, and has no target.",
            Code::IndexedSemanticContinuity =>
                "The sets of colors, texture coordinates, joints or weights are not numbered from 0 without a gap.",
            Code::JointsWeightsMismatch => "There are not as many sets of joints as of weights.",
            Code::AttributeInvalidFormat =>
                "The accessor's types are not among those that the standard lists for this attribute.",
            Code::AttributeUnaligned =>
                "The offset or the stride of the attribute is not a multiple of 4.",
            Code::IncompatibleMode => "The number of vertices or indices does not fit the mode.",
            Code::TooFewTexcoords =>
                "The material uses a set of texture coordinates that the primitive does not have.",
            Code::MorphTargetNoBaseAccessor =>
                "The primitive does not have the attribute that the morph target displaces.",
            Code::MorphTargetInvalidCount =>
                "The morph target has not as many items as the attribute that it displaces.",
            Code::UnequalTargetsCount =>
                "The primitives of the mesh have unequal numbers of morph targets.",
            Code::MeshInvalidWeightsCount => "There are not as many weights as morph targets.",
            Code::NodeLoop => "The node is among its own ancestors.",
            Code::NodeEmpty => "The node is empty, and no skin has it as a joint.",
            Code::NodeWeightsInvalid =>
                "There are not as many weights as morph targets in the mesh of the node.",
            Code::SkinWithNonSkinnedMesh =>
                "The node has a skin, and no primitive of its mesh has joints.",
            Code::SkinnedMeshWithoutSkin =>
                "A primitive of the node's mesh has joints, and the node has no skin.",
            Code::SceneNonRootNode => "The node is a child, and a scene may name roots alone.",
            Code::SkinNoCommonRoot => "The joints do not have a common root.",
            Code::SkinSkeletonInvalid => "The skeleton is not a common root of the joints.",
            Code::CameraZfarLequalZnear => "The far plane is not farther than the near plane.",
            Code::DuplicateTargets => "An earlier channel of the animation has the same target.",
            Code::ChannelTargetNoMorphs =>
                "Weights are animated, and the node has no mesh with morph targets.",
            Code::OutputInvalidFormat =>
                "The accessor's types are not among those that the standard lists for what is animated.",
            Code::OutputInvalidCount => "The number of values does not fit the number of times.",
            Code::IndexOob => "An index is at or above the number of vertices.",
            Code::IndexPrimitiveRestart =>
                "An index is the greatest of its type, which would restart the primitive.",
            Code::IndexTriangleDegenerate => "A triangle names a vertex twice.",
            Code::SparseIndicesNonIncreasing =>
                "A sparse index is not greater than the one before.",
            Code::SparseIndexOob => "A sparse index is at or above the number of items.",
            Code::InvalidFloat => "A component is infinite or not a number.",
            Code::MinMismatch => "The stated minimum is not the least value.",
            Code::MaxMismatch => "The stated maximum is not the greatest value.",
            Code::ElementOutOfMinBound => "An item is below the stated minimum.",
            Code::ElementOutOfMaxBound => "An item is above the stated maximum.",
            Code::AnimationInputNegative => "A time is negative.",
            Code::AnimationInputNonIncreasing => "A time is not greater than the one before.",
            Code::ItemsNotLookedAt => {
                "The items were not looked at: all together are too many for a file of this size."
            }
            Code::NeededByReader => {
                "The standard lets this member be absent, and this reader does not load a file without it."
            }
            Code::AttributeUnsignedInt =>
                "An attribute of an application must not have unsigned integers of four bytes.",
        }
    }
}
