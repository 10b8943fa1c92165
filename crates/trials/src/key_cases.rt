use keys::berth::Berth;
use keys::bucket::{bucket_of, tag_of};
use keys::key::Key;
use keys::name::Name;
use keys::rank::compare_ranks;
use std::cmp::Ordering;
use std::test::Fail;

// Harbour, berth and the hash of the two.
#[derive(Clone, Copy)]
struct BerthHash(u16, u16, u16);

#[test]
fn berth_hashes(rt: HostRuntime) {
    let cases = [
        BerthHash(0, 1, 40503),
        BerthHash(0, 2, 15470),
        BerthHash(0, 3, 55973),
        BerthHash(0, 4, 30940),
        BerthHash(0, 0, 0),
        BerthHash(65535, 0, 65535),
        BerthHash(65535, 65535, 25032),
    ];
    for BerthHash(harbour, berth, hash) in cases {
        assert_eq!(rt; Berth { harbour, berth }.hash(), hash);
    }
}

// The bytes of a name, and its hash.
#[derive(Clone, Copy)]
struct NameHash(&'static [u8], u16);

#[test]
fn name_hashes(rt: HostRuntime) -> Result<(), Fail> {
    let cases = [
        NameHash(b"AB", 2081),
        NameHash(b"BA", 2111),
        NameHash(b"ABC", 64578),
        NameHash(b"\0", 0),
        NameHash(b"\xff", 255),
        NameHash(b"Isle of Skye", 57680),
    ];
    for NameHash(bytes, hash) in cases {
        assert_eq!(rt; Name::new(bytes)?.hash(), hash);
    }
    Ok(())
}

// Bytes, and the number of their refusal as a name, or 0.
// No refusal has the number 0, and a row stays a row of a table.
#[derive(Clone, Copy)]
struct NameMade(&'static [u8], u8);

#[test]
fn names_made(rt: HostRuntime) {
    let cases = [
        NameMade(b"", 5),
        NameMade(b"A", 0),
        NameMade(b"ABCDEFGHIJKL", 0),
        NameMade(b"ABCDEFGHIJKLM", 5),
        NameMade(b"a,b\n\r\0\xff", 0),
    ];
    for NameMade(bytes, number) in cases {
        match Name::new(bytes) {
            Ok(name) => {
                assert_eq!(rt; number, 0);
                assert!(rt; name.used() == bytes);
            }
            Err(fault) => assert_eq!(rt; fault.number(), number),
        }
    }
}

// Two names, and how the first stands to the second.
#[derive(Clone, Copy)]
struct NameOrder(&'static [u8], &'static [u8], Ordering);

#[test]
fn name_orders(rt: HostRuntime) -> Result<(), Fail> {
    let cases = [
        NameOrder(b"A", b"AB", Ordering::Less),
        NameOrder(b"AB", b"B", Ordering::Less),
        NameOrder(b"AB", b"A", Ordering::Greater),
        NameOrder(b"B", b"AB", Ordering::Greater),
        NameOrder(b"AB", b"AB", Ordering::Equal),
        NameOrder(b"AB", b"Ab", Ordering::Less),
        NameOrder(b"A", b"A\0", Ordering::Less),
        NameOrder(b"\xff", b"A", Ordering::Greater),
    ];
    for NameOrder(a, b, order) in cases {
        match (Name::new(a), Name::new(b)) {
            (Ok(a), Ok(b)) => assert_eq!(rt; a.compare(b), order),
            _ => return Err(Fail::new("no name")),
        }
    }
    Ok(())
}

// Two berths, each a harbour and a berth, and how the first stands to the second.
#[derive(Clone, Copy)]
struct BerthOrder(u16, u16, u16, u16, Ordering);

#[test]
fn berth_orders(rt: HostRuntime) {
    let cases = [
        BerthOrder(0, 9, 1, 2, Ordering::Less),
        BerthOrder(1, 2, 0, 9, Ordering::Greater),
        BerthOrder(1, 2, 1, 9, Ordering::Less),
        BerthOrder(1, 9, 1, 2, Ordering::Greater),
        BerthOrder(1, 2, 1, 2, Ordering::Equal),
    ];
    for BerthOrder(harbour, berth, other_harbour, other_berth, order) in cases {
        let a = Berth { harbour, berth };
        let b = Berth {
            harbour: other_harbour,
            berth: other_berth,
        };
        assert_eq!(rt; a.compare(b), order);
    }
}

// Head bits and a hash, and the hash's bucket and tag.
#[derive(Clone, Copy)]
struct HashPlace(u8, u16, u32, u32);

#[test]
fn buckets_and_tags(rt: HostRuntime) {
    let cases = [
        HashPlace(0, 40503, 0, 40503),
        HashPlace(4, 40503, 9, 3639),
        HashPlace(8, 40503, 158, 55),
        HashPlace(0, 0, 0, 0),
        HashPlace(4, 0, 0, 0),
        HashPlace(8, 0, 0, 0),
        HashPlace(0, 65535, 0, 65535),
        HashPlace(4, 65535, 15, 4095),
        HashPlace(8, 65535, 255, 255),
    ];
    for HashPlace(k, hash, bucket, tag) in cases {
        assert_eq!(rt; bucket_of(k, hash), bucket);
        assert_eq!(rt; tag_of(k, hash), tag);
    }
}

// Head bits and two berths of harbour 0, and how the first stands to the second by rank.
#[derive(Clone, Copy)]
struct RankOrder(u8, u16, u16, Ordering);

#[test]
fn rank_orders(rt: HostRuntime) {
    let cases = [
        // at k = 0 the tags are 15470, 30940, 40503 and 55973
        RankOrder(0, 2, 4, Ordering::Less),
        RankOrder(0, 4, 1, Ordering::Less),
        RankOrder(0, 1, 3, Ordering::Less),
        RankOrder(0, 3, 2, Ordering::Greater),
        RankOrder(0, 3, 3, Ordering::Equal),
        // at k = 8 those of berths 1 and 2 are 55 and 110
        RankOrder(8, 1, 2, Ordering::Less),
        RankOrder(8, 2, 1, Ordering::Greater),
        // of berths with one tag the lower comes first
        RankOrder(8, 0, 256, Ordering::Less),
    ];
    for RankOrder(k, berth, other, order) in cases {
        let a = Berth { harbour: 0, berth };
        let b = Berth {
            harbour: 0,
            berth: other,
        };
        assert_eq!(rt; compare_ranks(k, a, b), order);
    }
}
