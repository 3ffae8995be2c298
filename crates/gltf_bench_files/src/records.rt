//! Records of a scene as exporters write them. `template` says what `@` and a letter stand for.

/// What a document begins with.
pub const ASSET: &str = r#"{
  "asset": {
    "generator": "Khronos glTF Blender I/O v4.2.@d",
    "version": "2.0"
  },
  "extensionsUsed": [
    "KHR_texture_transform",
    "KHR_materials_ior",
    "KHR_materials_specular",
    "KHR_materials_clearcoat"
  ],
  "scene": 0,
"#;

/// Ten nodes, of which the first has a mesh and the others as its children.
pub const NODES: &str = r#"
    {
      "children": [
        @1,
        @2,
        @3,
        @4,
        @5,
        @6,
        @7,
        @8,
        @9
      ],
      "extras": {
        "cycles": {
          "is_holdout": 0,
          "is_shadow_catcher": 0
        },
        "collection": "Props.@d",
        "instance_id": @0
      },
      "mesh": @k,
      "name": "Crate_Large.@d",
      "rotation": [
        0.0,
        0.38@d837,
        -0.0,
        0.92@d124
      ],
      "scale": [
        1.@d,
        1.@d,
        1.@d
      ],
      "translation": [
        -12.@d,
        0.25,
        7.@d
      ]
    },
    {
      "extras": {
        "lod": @1
      },
      "matrix": [
        0.9@d,
        0.0,
        -0.1@d,
        0,
        0.0,
        1.0,
        0.0,
        0,
        0.1@d,
        0.0,
        0.9@d,
        0,
        3.@d,
        -1.5,
        2.@d,
        1
      ],
      "name": "Socket \"A\" @1"
    },
    {
      "extras": {
        "lod": @2
      },
      "name": "Griff.M\u00fcnchen.@d",
      "translation": [
        1.@d,
        2.@d,
        3.@d
      ]
    },
    {
      "extras": {
        "note": "zwischen Tür und Angel, n\u00b0 @d"
      },
      "name": "Größe.@d",
      "rotation": [
        0.70710678@d,
        0.0,
        0.0,
        0.70710678@d
      ]
    },
    {
      "name": "Empty.@d",
      "translation": [
        0.@d,
        -0.@d,
        1.5e-05
      ]
    },
    {
      "name": "Empty.@d",
      "scale": [
        0.01,
        0.01,
        0.01
      ],
      "translation": [
        10.@d,
        -20.@d,
        30.@d
      ]
    },
    {
      "extras": {
        "lod": @6
      },
      "name": "Bolt.@d",
      "translation": [
        4.@d,
        5.@d,
        6.@d
      ]
    },
    {
      "extras": {
        "lod": @7
      },
      "name": "Bolt.@d",
      "translation": [
        4.@d,
        5.@d,
        6.@d
      ]
    },
    {
      "name": "Bolt.@d",
      "rotation": [
        0,
        0,
        1,
        0
      ],
      "translation": [
        4.@d,
        5.@d,
        6.@d
      ]
    },
    {
      "name": "Pivot_@9"
    }"#;

/// A mesh of one primitive, whose accessors are four in a row.
pub const MESH: &str = r#"
    {
      "name": "Crate_Large_Mesh.@d",
      "primitives": [
        {
          "attributes": {
            "POSITION": @p,
            "NORMAL": @q,
            "TEXCOORD_0": @r
          },
          "indices": @s,
          "material": @m
        }
      ]
    }"#;

/// The accessors of a cube: positions, normals and texture coordinates in one view, and indices.
pub const ACCESSORS: &str = r#"
    {
      "bufferView": @v,
      "componentType": 5126,
      "count": 24,
      "max": [
        0.4999847412109375,
        0.4999847412109375,
        0.4999847412109375
      ],
      "min": [
        -0.4999847412109375,
        -0.4999847412109375,
        -0.4999847412109375
      ],
      "name": "accessorPositions_@k",
      "type": "VEC3"
    },
    {
      "bufferView": @v,
      "byteOffset": 12,
      "componentType": 5126,
      "count": 24,
      "name": "accessorNormals_@k",
      "type": "VEC3"
    },
    {
      "bufferView": @v,
      "byteOffset": 24,
      "componentType": 5126,
      "count": 24,
      "max": [
        1,
        1
      ],
      "min": [
        0,
        0
      ],
      "name": "accessorUVs_@k",
      "type": "VEC2"
    },
    {
      "bufferView": @w,
      "componentType": 5123,
      "count": 36,
      "max": [
        23
      ],
      "min": [
        0
      ],
      "name": "accessorIndices_@k",
      "type": "SCALAR"
    }"#;

/// The two views of a cube.
pub const VIEWS: &str = r#"
    {
      "buffer": 0,
      "byteLength": 768,
      "byteOffset": @o,
      "byteStride": 32,
      "name": "vertices_@k",
      "target": 34962
    },
    {
      "buffer": 0,
      "byteLength": 72,
      "byteOffset": @x,
      "name": "triangles_@k",
      "target": 34963
    }"#;

/// A material with textures and extensions.
pub const MATERIAL: &str = r#"
    {
      "doubleSided": true,
      "emissiveFactor": [
        0.0@d,
        0.0@d,
        0.0@d
      ],
      "extensions": {
        "KHR_materials_clearcoat": {
          "clearcoatFactor": 0.@d,
          "clearcoatRoughnessFactor": 0.03
        },
        "KHR_materials_ior": {
          "ior": 1.4@d
        },
        "KHR_materials_specular": {
          "specularColorFactor": [
            0.@d,
            0.@d,
            1.0
          ],
          "specularFactor": 0.@d
        }
      },
      "name": "Wood.@d",
      "normalTexture": {
        "index": @k,
        "scale": 0.@d
      },
      "pbrMetallicRoughness": {
        "baseColorFactor": [
          0.@d,
          0.@d,
          0.@d,
          1
        ],
        "baseColorTexture": {
          "extensions": {
            "KHR_texture_transform": {
              "offset": [
                0.@d,
                0.@d
              ],
              "rotation": 0.1@d,
              "scale": [
                2.5,
                2.5
              ]
            }
          },
          "index": @k
        },
        "metallicFactor": 0,
        "roughnessFactor": 0.@d
      }
    }"#;

/// A texture.
pub const TEXTURE: &str = r#"
    {
      "name": "wood_color_@k",
      "sampler": 0,
      "source": @k
    }"#;

/// An image in a file beside the document.
pub const IMAGE: &str = r#"
    {
      "mimeType": "image/png",
      "name": "wood_color.@d",
      "uri": "wood_color_@k.png"
    }"#;

/// A sampler of textures.
pub const SAMPLERS: &str = r#"
  "samplers": [
    {
      "magFilter": 9729,
      "minFilter": 9987
    }
  ],
"#;
