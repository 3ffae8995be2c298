//! Values of JSON, of any kind.
use crate::digest::{Digest, Digested};
use gltf_json_record::extensions::Others;
use serde_json::{Map, Number, Value};

/// The marks of null, true and false.
const NULL: u64 = 0x6e75_6c6c;

const TRUE: u64 = 0x7472_7565;

const FALSE: u64 = 0x6661_6c73;

/// The marks of an array and of an object.
const ARRAY: u64 = 0x6172_7261;

const OBJECT: u64 = 0x6f62_6a65;

/// The marks of a negative number and of one with a fraction.
const NEGATIVE: u64 = 0x6e65_6761;

const FRACTION: u64 = 0x6672_6163;

/// How many arrays and objects nest in each other at most: no text that is read has more.
const DEPTH: u32 = 128;

impl Digested for Value {
    fn add_to(&self, digest: &mut Digest) {
        add_value(self, DEPTH, digest);
    }
}

/// Adds a value, as deep as its arrays and objects nest.
fn add_value(value: &Value, depth: u32, digest: &mut Digest) {
    match value {
        Value::Null => digest.add(NULL),
        Value::Bool(true) => digest.add(TRUE),
        Value::Bool(false) => digest.add(FALSE),
        Value::Number(number) => number.add_to(digest),
        Value::String(text) => text.add_to(digest),
        Value::Array(items) => {
            digest.pair(items.len() as u64, ARRAY);
            if depth > 0 {
                for item in items {
                    add_value(item, depth - 1, digest);
                }
            }
        }
        Value::Object(members) => {
            digest.pair(members.len() as u64, OBJECT);
            if depth > 0 {
                for (name, member) in members {
                    name.add_to(digest);
                    add_value(member, depth - 1, digest);
                }
            }
        }
    }
}

impl Digested for Number {
    fn add_to(&self, digest: &mut Digest) {
        if let Some(whole) = self.as_u64() {
            digest.add(whole);
        } else if let Some(whole) = self.as_i64() {
            digest.pair(u64::from_le_bytes(whole.to_le_bytes()), NEGATIVE);
        } else {
            add_fraction(self.as_f64(), digest);
        }
    }
}

/// Adds a number with a fraction.
fn add_fraction(number: Option<f64>, digest: &mut Digest) {
    match number {
        Some(number) if !number.is_nan() => digest.pair(number.to_bits(), FRACTION),
        _ => digest.absent(),
    }
}

impl Digested for Map<String, Value> {
    fn add_to(&self, digest: &mut Digest) {
        digest.count(self.len());
        for (name, member) in self {
            name.add_to(digest);
            member.add_to(digest);
        }
    }
}

impl Digested for Others {
    fn add_to(&self, digest: &mut Digest) {
        self.others.add_to(digest);
    }
}
