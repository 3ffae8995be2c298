//! Why nothing was converted.
use gltf::Error;
use gltf_bundle::BundleError;
use gltf_put::PutFault;
use std::alloc::AllocError;
use std::{fmt, io};

const USAGE: &str = "usage: gltf_convert IN OUT.glb [--keep-images|--keep-missing-images]
           [--keep-unknown] [--outside]
       gltf_convert IN OUT.gltf
           [--keep-images|[--keep-missing-images] [--drop-image-views]]
           [--pretty] [--keep-unknown] [--outside] [--force]

Writes the glTF file IN, GLB or JSON, anew. Each accessor has the same items. Unless images are
kept, what is written needs no other file than those that are written with it.

A file may require any extension. What an extension says is written as it stands, but for the buffer
that EXT_meshopt_compression or KHR_meshopt_compression names in a view; views, accessors, images
and textures keep their indices, but for the views that --drop-image-views takes away.

A buffer that one of these two calls a fallback, and to whose bytes nothing leads, as gltfpack -c
writes it, stays as it is, in OUT.glb behind the one that has bytes. So do the views in it: what
they are compressed to moves. Only a reader that knows the compression takes such a file.

A texture without a source, in a file that has images, and a channel whose target names no node, in
one that has nodes, are left to an extension: they stay as they are.

Where the object of an extension has a member buffer, buffers, uri or uris, but for that buffer, it
names what is not moved, and nothing is written. With --keep-unknown it is written as it stands, and
a line on standard error says where.

OUT.glb is one GLB container. The buffers become one without a URI, and each image with a URI and no
view goes into a view of that buffer. The media type of such an image is that which its data: URI
names, where it is one of images, else its mimeType, where it is, else the one of PNG, JPEG, WebP,
KTX2, AVIF and DDS whose files begin so. Where there is none, nothing is written.

OUT.gltf is JSON text. The bytes of its buffers go to OUT.bin, or to OUT0.bin and so on where
there are several, and those of each image, in a view or with a URI, to OUT_image0.png and so on,
by its index. The name ends in .png, .jpg, .webp, .ktx2, .avif or .dds where the bytes begin so,
or else the mimeType says so, and in .bin where neither does. Images that name one view, or without
a view one URI, have one file, that of the first, where its name ends alike. With --pretty the text
has line breaks and two spaces a step.

The bytes of images in views are in the files of buffers too. With --drop-image-views the views at
the end of the list go that images name, and that no accessor names. All views stay where the file
has an extension that is not among some which name no view: one that it lists as used, or one under
a member extensions, at any depth and in extras too, listed or not. The buffer of a view that goes
ends where the last view that stays in it ends, but has one byte at least. It stays whole where more
stands behind that end than bytes of views that go, and zeros.

Where the bytes of an image cannot be read, nothing is written. With --keep-missing-images such an
image is not touched, nor is one in OUT.glb that has no media type: it keeps its URI, and a line on
standard error says where. With --keep-images no image is touched: each one stays in its view, or
keeps its URI.

Members of objects are sorted by their names. What is left out of IN is told on standard error, a
line for each kind: names, extras and extensions of buffers, where these become one; chunks of
other types than JSON and BIN; bytes behind the end of a container; a BIN chunk that no buffer
takes. URIs in extensions and extras stay as they are.

Only files in the folder of IN, and in folders below it, are read. An absolute path, a file: URI, a
path that climbs out by .., and a symbolic link out of that folder are refused, and nothing is
written. With --outside they are read wherever they lead: for files that you trust.

The bytes of each file go to its name with .part behind it, a new file, which takes the name once
the bytes of all are whole, the JSON text last; so OUT may be IN. Where a write fails, each file
is what it was before, and the new ones are removed. Where a new file cannot take its name, those
before it have theirs, and the others are removed. Where the program is stopped, or a new file
cannot be removed, it is left behind with a part of the bytes; the program writes to no such file
that is there already.

Where an OUT.gltf is there already, the old text never stands beside new files: these have their
names with .next behind them first, and a text that names those is put to OUT.gltf. Then they take
their names, and the text its own. Where the program is stopped between, or one cannot take its
name, the text that stands there and the files that it names are whole.

No file beside OUT.gltf is written over that is there already, but those that an earlier OUT.gltf
names: nothing is written then. With --force it is, unless it is IN or a file that IN needs, which
only an OUT that is IN itself may replace.

A file of such a name that is there has to be a regular file, or a symbolic link to one, which is
then replaced in its place. The new file has its mode. It belongs to whoever runs the program, and
no other name of the old file, a hard link, leads to it.";

/// Why nothing was converted.
#[derive(Debug, Drop)]
pub(crate) enum Refusal<'w> {
    /// The words are not two names with flags after them.
    Usage,
    /// This name ends neither in `.glb` nor in `.gltf`.
    Ending(&'w str),
    /// The file is refused.
    File(BundleError),
    /// The container could not be written.
    Put(PutFault<'w>),
    /// One of several files could not be written: why.
    Files(String),
    /// The object of an extension names a buffer or a file itself: where, and the way out.
    Elsewhere(String),
    /// There is not enough memory.
    Memory,
    /// All files are written, and a line that says so could not be.
    Line(io::Error),
}

impl Refusal<'_> {
    /// The exit status.
    pub(crate) fn status(&self) -> u8 {
        match self {
            Refusal::Usage | Refusal::Ending(_) => 2,
            _ => 1,
        }
    }

    /// Whether a file could not be read.
    pub(crate) fn is_failed_read(&self) -> bool {
        match self {
            Refusal::File(BundleError::Import(Error::Io(_))) => true,
            Refusal::File(BundleError::Image { cause, .. }) => matches!(cause, Error::Io(_)),
            _ => false,
        }
    }

    /// Whether a file was not read since it stands outside of the folder of the first one: no
    /// error of the system, which says so of a file that may not be read too.
    pub(crate) fn is_outside(&self) -> bool {
        match self {
            Refusal::File(BundleError::Import(Error::Io(cause))) => is_refusal(cause),
            Refusal::File(
                BundleError::Image {
                    cause: Error::Io(cause),
                    ..
                },
            ) => is_refusal(cause),
            _ => false,
        }
    }
}

/// Whether a source refused to read.
fn is_refusal(cause: &io::Error) -> bool {
    cause.kind() == io::ErrorKind::PermissionDenied && cause.raw_os_error().is_none()
}

impl<'w> From<PutFault<'w>> for Refusal<'w> {
    fn from(fault: PutFault<'w>) -> Self {
        Refusal::Put(fault)
    }
}

impl From<BundleError> for Refusal<'_> {
    fn from(error: BundleError) -> Self {
        Refusal::File(error)
    }
}

impl From<AllocError> for Refusal<'_> {
    fn from(_cause: AllocError) -> Self {
        Refusal::Memory
    }
}

impl fmt::Display for Refusal<'_> {
    fn fmt<W: fmt::Write>(&self, f: &mut fmt::Formatter<W>) -> fmt::Result {
        match self {
            Refusal::Usage => write!(f, "{USAGE}"),
            Refusal::Ending(name) => { write!(f, "{name}: has to end in .glb or .gltf") }
            Refusal::File(error) => write!(f, "{error}"),
            Refusal::Put(fault) => write!(f, "{fault}"),
            Refusal::Files(reason) => write!(f, "{reason}"),
            Refusal::Elsewhere(reason) => write!(f, "{reason}"),
            Refusal::Memory => write!(f, "out of memory"),
            Refusal::Line(cause) => write!(f, "{cause}"),
        }
    }
}
