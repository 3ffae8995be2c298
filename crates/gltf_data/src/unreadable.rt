//! Why an accessor cannot be read.

use std::fmt;

/// A part of an accessor (glTF 2.0, sections 3.6.2 and 3.6.2.3, "Sparse Accessors").
#[derive(Clone, Copy, Debug, PartialEq, Eq)]
pub enum Part {
    /// The items in its view. In a sparse accessor they are those that others replace.
    Items,
    /// The positions of the items that are replaced.
    SparseIndices,
    /// The items in their places.
    SparseValues,
}

impl fmt::Display for Part {
    ghost use Rattle.std.specs.Prelude.{Some};
    ghost use Rattle.gltf_data.specs.Texts.{part_text};

    ghost output = { λ part. Some (part_text part) };

    fn fmt<W: fmt::Write>(&self, f: &mut fmt::Formatter<W>) -> fmt::Result {
        match self {
            Part::Items => write!(f, "items"),
            Part::SparseIndices => write!(f, "sparse indices"),
            Part::SparseValues => write!(f, "sparse values"),
        }
    }
}

/// The first condition that fails, of those under which an accessor can be read, in the order of
/// the variants: first the two of the accessor, then the others of each part, in the order of
/// `Part`. All sizes and places are in bytes.
#[derive(Clone, Copy, Debug, PartialEq, Eq)]
pub enum Unreadable {
    /// An item of the type that is asked for has another size than an item of the accessor, whose
    /// type and component type decide it (glTF 2.0, section 3.6.2.2, "Accessor Data Types").
    ItemSize {
        /// The size of an item of the type that is asked for.
        wanted: usize,
        /// The size of an item of the accessor.
        found: usize,
    },
    /// The accessor has neither a view nor a sparse part (section 3.6.2, "Accessors").
    NoView,
    /// The count is 0 (sections 5.1.4 and 5.2.1).
    NoItems {
        /// What there are none of.
        part: Part,
    },
    /// The view's `byteStride` is below the size of an item: items overlap (section 3.6.2.4, "Data
    /// Alignment").
    Overlap {
        /// What overlaps.
        part: Part,
        /// The view's `byteStride`.
        stride: usize,
        /// The size of an item.
        size: usize,
    },
    /// No bytes were given for the view's buffer (section 3.6.1, "Buffers and Buffer Views").
    NoBufferData {
        /// What the buffer has to hold.
        part: Part,
        /// The index of the buffer.
        buffer: usize,
    },
    /// The view ends past the bytes of its buffer (section 3.6.1).
    ViewPastBuffer {
        /// What the view has to hold.
        part: Part,
        /// The view's `byteOffset`.
        offset: usize,
        /// The view's `byteLength`.
        length: usize,
        /// How many bytes were given for the buffer.
        available: usize,
    },
    /// The last item ends past the view (section 3.6.2.4).
    ItemsPastView {
        /// What ends there.
        part: Part,
        /// The end of the last item, from the start of the view.
        end: usize,
        /// The view's `byteLength`.
        length: usize,
    },
    /// The same, at an end of 2^64 or more.
    Overflow {
        /// What ends there.
        part: Part,
        /// The start of the first item, from the start of the view.
        offset: usize,
        /// The distance from item to item.
        stride: usize,
        /// How many items there are.
        count: usize,
        /// The size of an item.
        size: usize,
    },
}

impl fmt::Display for Unreadable {
    ghost use Rattle.std.specs.Prelude.{Some};
    ghost use Rattle.gltf_data.specs.Texts.{text_of};

    ghost output = { λ reason. Some (text_of reason) };

    fn fmt<W: fmt::Write>(&self, f: &mut fmt::Formatter<W>) -> fmt::Result {
        match self {
            Unreadable::ItemSize { wanted, found } => {
                write!(f, "the accessor's items have {found} bytes, not {wanted}")
            }
            Unreadable::NoView => write!(f, "the accessor has neither a view nor a sparse part"),
            Unreadable::NoItems { part } => write!(f, "the count of the {part} is 0"),
            Unreadable::Overlap { part, stride, size } => write!(
                f,
                "the {part} overlap: each has {size} bytes, at a stride of {stride}"
            ),
            Unreadable::NoBufferData { part, buffer } => {
                write!(f, "no bytes were given for buffer {buffer} of the {part}")
            }
            Unreadable::ViewPastBuffer {
                part,
                offset,
                length,
                available,
            } => write!(
                f,
                "the view of the {part} has {length} bytes from byte {offset} on, but its buffer \
                 has {available}"
            ),
            Unreadable::ItemsPastView { part, end, length } => write!(
                f,
                "the {part} end at byte {end} of a view of {length} bytes"
            ),
            Unreadable::Overflow {
                part,
                offset,
                stride,
                count,
                size,
            } => write!(
                f,
                "the {part} end past 2^64: {count} of {size} bytes, at a stride of {stride} from \
                 byte {offset} on"
            ),
        }
    }
}

impl std::error::Error for Unreadable {}
