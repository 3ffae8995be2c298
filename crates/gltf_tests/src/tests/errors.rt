//! Texts of errors that no row of the cases can bring about.
use gltf_glb::binary::writing::too_long;
use std::test::Fail;

#[test]
fn a_container_of_more_bytes_than_a_header_can_say_is_named(rt: HostRuntime) -> Result<(), Fail> {
    let text = format!(in rt.alloc(); "{}", too_long())?;
    assert_eq!(rt;
        text.as_str(),
        "a GLB container has at most 4294967295 bytes"
    );
    Ok(())
}
