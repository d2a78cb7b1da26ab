// Bundles that a program in another language made of the same numbers.
use bridge_text::{Id, Kind, object_id};
use make_history::{MakeFault, make_bundle};
use std::test::Fail;

/// How many changesets, the seed, the size of the bundle, and its id as a Git blob.
const BUNDLES: [(u64, u64, usize, &[u8; 40]); 4] = [
    (0, 5, 18, b"fb65efcbe48a2f6ff37a5a5d9b7265f425d5a28b"),
    (1, 1, 433, b"59d0b43b1cb8071b72c081e91e981219a747c8a5"),
    (50, 1, 55385, b"68c2f687534bb4818f0c43994d3d2ca9303c358a"),
    (
        300,
        18446744073709551615,
        518347,
        b"369665ebbc46cccf8920f127cf4f95b890f81be0",
    ),
];

#[test]
fn bundles_are_those_of_another_program(rt: HostRuntime) -> Result<(), Fail> {
    for (count, seed, size, id) in BUNDLES {
        let bytes = make_bundle(rt.alloc(), count, seed).map_err(|_| "a bundle")?;
        assert_eq!(rt; bytes.len(), size);
        assert_eq!(rt; Some(object_id(Kind::Blob, &bytes)), Id::from_hex(id));
    }
    Ok(())
}

#[test]
fn more_than_the_most_are_refused(rt: HostRuntime) -> Result<(), Fail> {
    for count in [20001, u64::MAX] {
        match make_bundle(rt.alloc(), count, 7) {
            Ok(_) => assert!(rt; false),
            Err(fault) => assert_eq!(rt; fault, MakeFault::CountLimit),
        }
    }
    Ok(())
}
