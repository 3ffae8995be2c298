//! Buffers, views and accessors (glTF 2.0, section 3.6).
use crate::line::Line;
use crate::shown::{Numbered, Shown, write_next, write_rest};
use gltf_handles::accessor::Accessor;
use gltf_handles::accessor::sparse::Sparse;
use gltf_handles::buffer::{Buffer, View};
use gltf_rules::Records;

impl<D: Records> Shown for Buffer<'_, D> {
    fn show(&self, line: &mut Line<'_>) {
        write!(line, "buffer {}: length {}", self.index(), self.length());
        write!(line, ", {:?}", self.source());
        write_next("name", self.name(), line);
        write_rest!(self, line);
    }
}

impl<D: Records> Shown for View<'_, D> {
    fn show(&self, line: &mut Line<'_>) {
        write!(
            line,
            "view {} of buffer {}",
            self.index(),
            self.buffer().index()
        );
        write!(line, ": offset {}, length {}", self.offset(), self.length());
        write_next("stride", self.stride(), line);
        write_next("target", self.target(), line);
        write_next("name", self.name(), line);
        write_rest!(self, line);
    }
}

impl<D: Records> Shown for Accessor<'_, D> {
    fn show(&self, line: &mut Line<'_>) {
        write_place(self, line);
        write_size(self, line);
        write_next("normalized", self.normalized(), line);
        write_next("min", self.min(), line);
        write_next("max", self.max(), line);
        write_next("name", self.name(), line);
        write_rest!(self, line);
        if let Some(sparse) = self.sparse() {
            write_sparse(sparse, line);
        }
    }
}

/// Writes where the items of an accessor stand, and how many.
fn write_place<D: Records>(accessor: &Accessor<'_, D>, line: &mut Line<'_>) {
    write!(line, "accessor {} of ", accessor.index());
    match accessor.view() {
        Some(view) => write!(line, "view {}", view.index()),
        None => line.push_str("no view"),
    }
    write!(
        line,
        ": offset {}, count {}",
        accessor.offset(),
        accessor.count()
    );
}

/// Writes what an item of an accessor is made of, and its bytes.
fn write_size<D: Records>(accessor: &Accessor<'_, D>, line: &mut Line<'_>) {
    let data_type = accessor.data_type();
    let dimensions = accessor.dimensions();
    write!(line, ", {data_type:?} of {}", data_type.size());
    write!(line, " by {dimensions:?} of {}", dimensions.multiplicity());
    write!(line, " is {}", accessor.size());
}

/// Writes the sparse part of an accessor.
fn write_sparse<D: Records>(sparse: Sparse<'_, D>, line: &mut Line<'_>) {
    let (indices, values) = (sparse.indices(), sparse.values());
    let index_type = indices.index_type();
    write!(line, ", sparse of {}", sparse.count());
    write!(
        line,
        ": indices in view {} from {}",
        indices.view().index(),
        indices.offset()
    );
    write!(
        line,
        ", {index_type:?} is {} of {}",
        index_type as u16,
        index_type.size()
    );
    write!(
        line,
        ", values in view {} from {}",
        values.view().index(),
        values.offset()
    );
    write!(line, ", extras {:?}", indices.extras());
    write!(line, " {:?} {:?}", values.extras(), sparse.extras());
}

impl<D: Records> Numbered for Accessor<'_, D> {
    fn number(&self) -> usize {
        self.index()
    }
}
