//! The members of records: lists, names, indices, codes, and what may be absent.
use crate::digest::{Digest, Digested};
use gltf_json_record::boxed::Boxed;
use gltf_json_record::index::Index;
use gltf_json_record::validation::Checked;

/// The mark of a code that its table lacks.
const INVALID: u64 = 0xbad_c0de_bad_c0de;

impl<T: Digested> Digested for Option<T> {
    fn add_to(&self, digest: &mut Digest) {
        match self {
            Some(value) => value.add_to(digest),
            None => digest.absent(),
        }
    }
}

impl<T: Digested> Digested for Vec<T> {
    fn add_to(&self, digest: &mut Digest) {
        digest.count(self.len());
        for item in self {
            item.add_to(digest);
        }
    }
}

impl<T: Digested> Digested for Boxed<T> {
    fn add_to(&self, digest: &mut Digest) {
        self.get().add_to(digest);
    }
}

impl<T> Digested for Index<T> {
    fn add_to(&self, digest: &mut Digest) {
        digest.count(self.value());
    }
}

impl<T: Digested> Digested for Checked<T> {
    fn add_to(&self, digest: &mut Digest) {
        match self {
            Checked::Valid(code) => code.add_to(digest),
            Checked::Invalid => digest.add(INVALID),
        }
    }
}

impl Digested for String {
    fn add_to(&self, digest: &mut Digest) {
        digest.bytes(self.as_str().as_bytes());
    }
}

impl Digested for bool {
    fn add_to(&self, digest: &mut Digest) {
        digest.add(u64::from(*self));
    }
}

impl Digested for u64 {
    fn add_to(&self, digest: &mut Digest) {
        digest.add(*self);
    }
}
