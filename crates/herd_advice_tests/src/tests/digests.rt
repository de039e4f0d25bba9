//! The digest of rows that is published.

use merkle_tree::{row_digest, tree_root};

// The rows of the reference tests of Certificate Transparency, which RFC 6962 comes with.
const ROWS: [&[u8]; 8] = [
    b"",
    b"\x00",
    b"\x10",
    b"\x20\x21",
    b"\x30\x31",
    b"\x40\x41\x42\x43",
    b"\x50\x51\x52\x53\x54\x55\x56\x57",
    b"\x60\x61\x62\x63\x64\x65\x66\x67\x68\x69\x6a\x6b\x6c\x6d\x6e\x6f",
];

// The digest of all eight, as there.
const ROOT_OF_EIGHT: [u8; 32] = [
    0x5d, 0xc9, 0xda, 0x79, 0xa7, 0x06, 0x59, 0xa9, 0xad, 0x55, 0x9c, 0xb7, 0x01, 0xde, 0xd9, 0xa2,
    0xab, 0x9d, 0x82, 0x3a, 0xad, 0x2f, 0x49, 0x60, 0xcf, 0xe3, 0x70, 0xef, 0xf4, 0x60, 0x43, 0x28,
];

#[test]
fn reference_root(rt: HostRuntime) {
    assert!(rt; tree_root(&digests()) == ROOT_OF_EIGHT);
}

fn digests() -> [[u8; 32]; 8] {
    let mut digests = [[0; 32]; 8];
    for place in 0..8 {
        digests[place] = row_digest(ROWS[place]);
    }
    digests
}
