//! Documents with faults in their records, each read by both ways: its first fault is that which
//! the tree gives.
use crate::tests::{is_same, nested};
use std::alloc::{AllocError, Global};
use std::test::Fail;

/// Documents with a record of each table, and no blanks.
const DOCUMENTS: [&str; 7] = [
    "\
        {\"asset\":{\"version\":\"2.0\"},\"scene\":0,\"scenes\":[{\"nodes\":[0],\"name\":\"s\"}],\
        \"nodes\":[{\"mesh\":0,\"children\":[1],\"matrix\":[1,0],\"z\":2},{\"camera\":0,\
        \"skin\":0,\"extras\":{\"a\":[1]}}],\"skins\":[{\"joints\":[0],\"skeleton\":0}]}",
    "\
        {\"asset\":{\"version\":\"2.0\",\"generator\":\"g\"},\"meshes\":[{\"primitives\":[\
        {\"attributes\":{\"POSITION\":0},\"indices\":1,\"mode\":4,\"targets\":[{\
        \"POSITION\":1}]}],\
        \"weights\":[0]}],\"cameras\":[{\"type\":\"perspective\",\"perspective\":{\"yfov\":1,\
        \"znear\":1}}]}",
    "\
        {\"buffers\":[{\"uri\":\"u\",\"byteLength\":4}],\"bufferViews\":[{\"buffer\":0,\
        \"byteLength\":4,\"target\":34962}],\"asset\":{\"version\":\"2.0\"},\"accessors\":[\
        {\"componentType\":5126,\"count\":3,\"type\":\"VEC3\",\"min\":[0],\"sparse\":{\
        \"count\":1,\
        \"indices\":{\"bufferView\":0,\"componentType\":5123},\"values\":{\"bufferView\":0}}}]}",
    "\
        {\"extensionsUsed\":[\"E\"],\"materials\":[{\"pbrMetallicRoughness\":{\
        \"baseColorFactor\":[\
        1,1],\"baseColorTexture\":{\"index\":0,\"texCoord\":0}},\"normalTexture\":{\"index\":0,\
        \"scale\":1},\"occlusionTexture\":{\"index\":0},\"alphaMode\":\"MASK\",\
        \"doubleSided\":true}],\
        \"asset\":{\"version\":\"2.0\"}}",
    "\
        {\"textures\":[{\"source\":0,\"sampler\":0}],\"images\":[{\"uri\":\"i\",\
        \"mimeType\":\"image/png\"}],\
        \"samplers\":[{\"magFilter\":9728,\"wrapS\":10497}],\"animations\":[{\"channels\":[\
        {\"sampler\":0,\"target\":{\"node\":0,\"path\":\"scale\"}}],\"samplers\":[{\"input\":0,\
        \"output\":0}]}],\"asset\":{\"version\":\"2.0\"}}",
    "\
        {\"extensions\":{\"KHR_lights_punctual\":{\"lights\":[{\"type\":\"spot\",\"spot\":{\
        \"innerConeAngle\":0}}]}},\"nodes\":[{\"extensions\":{\"KHR_lights_punctual\":{\
        \"light\":0}},\"extras\":null}],\"materials\":[{\"extensions\":{\
        \"KHR_materials_unlit\":{},\"KHR_materials_ior\":{\"ior\":2}}}],\
        \"asset\":{\"version\":\"2.0\",\"extensions\":{\"E\":0}}}",
    NAMED,
];

/// One whose names are written with escapes, and are empty.
const NAMED: &str = "\
    {\"\\u0061sset\":{\"version\":\"2.0\",\"\":0},\"n\\u006fdes\":[{\"\\u006eame\":\"n\",\
    \"m\\u0065sh\":0}],\"\":1}";

/// One whose members stand in another order than in their tables.
const TURNED: &str = "\
    {\"nodes\":[{\"name\":\"n\",\"children\":[0]}],\"buffers\":[{\"uri\":\"u\",\
    \"byteLength\":1}],\
    \"scene\":0,\"asset\":{\"version\":\"2.0\"}}";

/// Documents in which several faults stand in one record, among them a missing member behind a
/// wrong kind in an earlier row, and one before a wrong kind in a later row.
const FAULTS: [&str; 14] = [
    "{\"asset\":{\"version\":\"2.0\"},\"accessors\":[{\"bufferView\":-1,\"count\":1,\
        \"type\":\"SCALAR\"}]}",
    "{\"asset\":{\"version\":\"2.0\"},\"accessors\":[{\"componentType\":5126,\"type\":0,\
        \"min\":3}]}",
    "{\"asset\":{\"version\":\"2.0\"},\"accessors\":[{\"componentType\":5126,\"count\":1,\
        \"type\":\"SCALAR\",\"sparse\":{\"values\":{\"byteOffset\":-1},\"indices\":{},\
        \"count\":\"x\"}}]}",
    "{\"asset\":{\"version\":\"2.0\"},\"accessors\":[{\"componentType\":5126,\"count\":1,\
        \"type\":\"SCALAR\",\"sparse\":{\"values\":{\"byteOffset\":-1},\"indices\":{\
        \"bufferView\":0,\"componentType\":5123},\"count\":1}}]}",
    "{\"materials\":[{\"pbrMetallicRoughness\":{\"metallicRoughnessTexture\":[],\
        \"baseColorTexture\":3,\"metallicFactor\":[]}}],\"asset\":{\"version\":\"2.0\"}}",
    "{\"materials\":[{\"normalTexture\":{\"texCoord\":-1,\"scale\":[]},\"doubleSided\":1}],\
        \"asset\":{\"version\":\"2.0\"}}",
    "{\"asset\":{\"version\":\"2.0\"},\"materials\":[{\"occlusionTexture\":{\
        \"texCoord\":1.5,\"strength\":{}}}]}",
    "{\"meshes\":[{\"name\":1,\"weights\":{}}],\"asset\":{\"version\":2}}",
    "{\"meshes\":[{\"name\":1,\"weights\":{}}],\"asset\":{\"version\":\"2.0\"}}",
    "{\"meshes\":[{\"primitives\":[{\"targets\":[{\"POSITION\":-1,\"NORMAL\":\"x\"},\
        {\"TANGENT\":[]}],\"attributes\":{}}]}],\"asset\":{\"version\":\"2.0\"}}",
    "{\"buffers\":[{\"byteLength\":18446744073709551615},{\"byteLength\":18446744073709551616}],\
        \"asset\":{\"version\":\"2.0\"}}",
    "{\"bufferViews\":[{\"buffer\":0,\"byteOffset\":18446744073709551616,\"byteLength\":-1}],\
        \"asset\":{\"version\":\"2.0\"}}",
    "{\"nodes\":[{\"camera\":4294967295},{\"camera\":4294967296,\"mesh\":-1}],\
        \"asset\":{\"version\":\"2.0\"}}",
    "{\"animations\":[{\"channels\":[{\"target\":{\"path\":1,\"node\":-1}}],\"samplers\":[{\
        \"interpolation\":0,\"input\":-1}]}],\"asset\":{\"version\":\"2.0\"}}",
];

/// Values of each kind, and whole numbers at the ends of their ranges.
const VALUES: [&[u8]; 10] = [
    b"null",
    b"true",
    b"-1",
    b"1.5",
    b"4294967295",
    b"4294967296",
    b"\"x\"",
    b"[null]",
    b"[{},3]",
    b"{\"\":0}",
];

/// A few of them.
const FEW: [&[u8]; 3] = [b"null", b"-1", b"[]"];

/// Ends in the place of the closing brace: what is wrong there is seen behind a fault.
const ENDS: [&[u8]; 6] = [
    b"",
    b"]",
    b",\"z\":}",
    b",\"z\":7e400}",
    b",\"z\":[{\"z\":[0,1.5e3,\"z\",null,true]}]}",
    b"} 0",
];

/// Whether a value, or a member, begins behind these bytes. A document begins behind none.
fn begins_behind(front: &[u8]) -> bool {
    matches!(front.last(), None | Some(b':' | b'[' | b',' | b'{'))
}

/// How long the value, or the member, is that the bytes begin with.
fn part_len(bytes: &[u8]) -> usize {
    let mut open = 0_usize;
    for (at, byte) in bytes.iter().enumerate() {
        match byte {
            b'{' | b'[' => open = open.saturating_add(1),
            b'}' | b']' | b',' if open == 0 => return at,
            b'}' | b']' => open = open.saturating_sub(1),
            _ => {}
        }
    }
    bytes.len()
}

/// How long the name of the member is, with its colon; None where the bytes begin with no member.
fn name_len(bytes: &[u8]) -> Option<usize> {
    for (at, byte) in bytes.iter().enumerate() {
        match byte {
            b':' => return at.checked_add(1),
            b',' | b'}' | b']' | b'{' | b'[' => return None,
            _ => {}
        }
    }
    None
}

/// One text of several parts.
fn joined(alloc: Global, parts: &[&[u8]]) -> Result<Vec<u8>, AllocError> {
    let mut text = Vec::new(alloc);
    for part in parts {
        text.extend_from_slice(part)?;
    }
    Ok(text)
}

/// Whether both ways say the same of the text of these parts.
fn is_same_of(alloc: Global, parts: &[&[u8]]) -> Result<bool, AllocError> {
    is_same(alloc, &joined(alloc, parts)?)
}

/// Whether they do with each of these values in the place of each value.
fn are_same_at_each_value(
    alloc: Global,
    text: &[u8],
    values: &[&[u8]],
) -> Result<bool, AllocError> {
    for at in 0..text.len() {
        let (front, back) = text.split_at(at);
        let Some((_, rest)) = back.split_at_checked(part_len(back)) else {
            continue;
        };
        if !begins_behind(front) {
            continue;
        }
        for value in values {
            if !is_same_of(alloc, &[front, value, rest])? {
                return Ok(false);
            }
        }
    }
    Ok(true)
}

/// Whether they do with a fault in the place of each value, and each end behind it.
fn are_same_at_each_end(alloc: Global, text: &[u8]) -> Result<bool, AllocError> {
    for at in 0..text.len() {
        let (front, back) = text.split_at(at);
        let Some((_, rest)) = back.split_at_checked(part_len(back)) else {
            continue;
        };
        let Some((_, rest)) = rest.split_last() else {
            continue;
        };
        if !begins_behind(front) {
            continue;
        }
        for end in ENDS {
            if !is_same_of(alloc, &[front, b"false", rest, end])? {
                return Ok(false);
            }
        }
    }
    Ok(true)
}

/// Whether they do where a member is absent, and where it comes twice, with another value before it
/// or behind it.
fn are_same_at_each_member(alloc: Global, text: &[u8]) -> Result<bool, AllocError> {
    for at in 0..text.len() {
        let (front, back) = text.split_at(at);
        let Some((member, rest)) = back.split_at_checked(part_len(back)) else {
            continue;
        };
        let Some((name, _)) = back.split_at_checked(name_len(member).unwrap_or(0)) else {
            continue;
        };
        if name.is_empty() || !begins_behind(front) {
            continue;
        }
        if !is_same_of(alloc, &[front, b"\"z\":0", rest])? {
            return Ok(false);
        }
        for value in FEW {
            let before = is_same_of(alloc, &[front, name, value, b",", member, rest])?;
            let behind = is_same_of(alloc, &[front, member, b",", name, value, rest])?;
            if !before || !behind {
                return Ok(false);
            }
        }
    }
    Ok(true)
}

/// Whether they do with one of these values in the places of two.
fn are_same_at_two_values(
    alloc: Global,
    text: &[u8],
    values: &[&[u8]],
) -> Result<bool, AllocError> {
    for at in 0..text.len() {
        let (front, back) = text.split_at(at);
        let Some((_, rest)) = back.split_at_checked(part_len(back)) else {
            continue;
        };
        if !begins_behind(front) {
            continue;
        }
        for value in values {
            let changed = joined(alloc, &[front, value, rest])?;
            if !are_same_at_each_value(alloc, &changed, values)? {
                return Ok(false);
            }
        }
    }
    Ok(true)
}

/// Whether both say the same of so many arrays and objects in one another between these bytes.
fn are_same_at_depth(
    alloc: Global,
    front: &[u8],
    levels: usize,
    back: &[u8],
) -> Result<bool, AllocError> {
    let lists = nested(alloc, b"[", levels, b"]", levels)?;
    if !is_same_of(alloc, &[front, &lists, back])? {
        return Ok(false);
    }
    let mut objects = nested(alloc, b"{\"a\":", levels, b"", 0)?;
    objects.extend_from_slice(b"1")?;
    objects.extend_from_slice(&nested(alloc, b"", 0, b"}", levels)?)?;
    is_same_of(alloc, &[front, &objects, back])
}

#[test]
fn a_document_with_another_value_is_refused_alike(rt: HostRuntime) -> Result<(), Fail> {
    for document in DOCUMENTS {
        assert!(rt; is_same(rt.alloc(), document.as_bytes())?);
        assert!(rt; are_same_at_each_value(rt.alloc(), document.as_bytes(), &VALUES)?);
    }
    Ok(())
}

#[test]
fn a_fault_before_another_is_refused_alike(rt: HostRuntime) -> Result<(), Fail> {
    for document in DOCUMENTS {
        assert!(rt; are_same_at_each_end(rt.alloc(), document.as_bytes())?);
    }
    Ok(())
}

#[test]
fn a_document_with_members_absent_or_twice_is_refused_alike(rt: HostRuntime) -> Result<(), Fail> {
    for document in DOCUMENTS {
        assert!(rt; are_same_at_each_member(rt.alloc(), document.as_bytes())?);
    }
    assert!(rt; are_same_at_each_member(rt.alloc(), TURNED.as_bytes())?);
    Ok(())
}

#[test]
fn of_several_faults_the_first_is_answered(rt: HostRuntime) -> Result<(), Fail> {
    for document in DOCUMENTS {
        assert!(rt; are_same_at_two_values(rt.alloc(), document.as_bytes(), &[b"-1"])?);
    }
    assert!(rt; are_same_at_two_values(rt.alloc(), TURNED.as_bytes(), &FEW)?);
    Ok(())
}

#[test]
fn a_fault_before_deep_nesting_is_refused_alike(rt: HostRuntime) -> Result<(), Fail> {
    for levels in 122..132_usize {
        assert!(rt; are_same_at_depth(rt.alloc(), b"{\"scene\":-1,\"z\":", levels, b"}")?);
    }
    Ok(())
}

#[test]
fn extras_that_nest_deep_are_read_alike(rt: HostRuntime) -> Result<(), Fail> {
    let front = b"{\"asset\":{\"version\":\"2.0\"},\"nodes\":[{\"extras\":";
    for levels in 120..130_usize {
        assert!(rt; are_same_at_depth(rt.alloc(), front, levels, b"}]}")?);
        assert!(rt; are_same_at_depth(rt.alloc(), front, levels, b",\"mesh\":-1}]}")?);
    }
    Ok(())
}

#[test]
fn several_faults_of_one_record_are_refused_alike(rt: HostRuntime) -> Result<(), Fail> {
    for document in FAULTS {
        assert!(rt; is_same(rt.alloc(), document.as_bytes())?);
        assert!(rt; are_same_at_each_value(rt.alloc(), document.as_bytes(), &FEW)?);
        assert!(rt; are_same_at_each_member(rt.alloc(), document.as_bytes())?);
    }
    Ok(())
}
