// Empty and full maps, the boundary between two words, many words, and none.
use bitmap::{
    clear_all, clear_bit, copy, count, count_shared, is_set, lowest_from, mark_all, nth_shared,
    set_bit, take_lowest,
};

#[test]
fn empty_map(rt: HostRuntime) {
    let map = [0u64; 2];
    assert_eq!(rt; count(&map), 0);
    assert_eq!(rt; lowest_from(&map, 0), Some(0));
    assert!(rt; !is_set(&map, 0) && !is_set(&map, 127));
    assert_eq!(rt; nth_shared(&map, &map, 0), None);
}

#[test]
fn full_map(rt: HostRuntime) {
    let map = [u64::MAX; 2];
    assert_eq!(rt; count(&map), 128);
    assert_eq!(rt; lowest_from(&map, 0), None);
    assert!(rt; is_set(&map, 0) && is_set(&map, 127));
    assert_eq!(rt; count_shared(&map, &map), 128);
    assert_eq!(rt; nth_shared(&map, &map, 127), Some(127));
    assert_eq!(rt; nth_shared(&map, &map, 128), None);
}

// Bits 63 and 64 stand in two words.
#[test]
fn across_words(rt: HostRuntime) {
    let mut map = [0u64; 2];
    mark_all(&mut map, &[63, 64]);
    assert_eq!(rt; map, [1 << 63, 1]);
    assert!(rt; is_set(&map, 63) && is_set(&map, 64));
    assert!(rt; !is_set(&map, 62) && !is_set(&map, 65));
    clear_bit(&mut map, 63);
    set_bit(&mut map, 65);
    assert_eq!(rt; map, [0, 3]);
    clear_all(&mut map);
    assert_eq!(rt; map, [0, 0]);
}

#[test]
fn takes_across_words(rt: HostRuntime) {
    let mut map = [u64::MAX >> 2, 1];
    let mut out = [0u64; 4];
    assert!(rt; count(&map) <= 124);
    take_lowest(&mut map, &mut out);
    assert_eq!(rt; out, [62, 63, 65, 66]);
    assert_eq!(rt; map, [u64::MAX, 7]);
}

// 65,536 bits, of which the last alone is clear.
#[test]
fn last_of_many(rt: HostRuntime) {
    let mut map = [u64::MAX; 1024];
    map[1023] = u64::MAX >> 1;
    assert_eq!(rt; count(&map), 65535);
    assert_eq!(rt; lowest_from(&map, 0), Some(65535));
    assert_eq!(rt; lowest_from(&map, 1023), Some(65535));
    let mut out = [0u64; 1];
    assert!(rt; count(&map) < 65536);
    take_lowest(&mut map, &mut out);
    assert_eq!(rt; out, [65535]);
    assert_eq!(rt; count(&map), 65536);
    assert_eq!(rt; lowest_from(&map, 0), None);
}

#[test]
fn no_words(rt: HostRuntime) {
    let mut map = [0u64; 0];
    assert_eq!(rt; count(&map), 0);
    assert_eq!(rt; lowest_from(&map, 0), None);
    assert_eq!(rt; count_shared(&map, &map), 0);
    assert_eq!(rt; nth_shared(&map, &map, 0), None);
    mark_all(&mut map, &[]);
    assert!(rt; count(&map) == 0);
    take_lowest(&mut map, &mut []);
    clear_all(&mut map);
    assert_eq!(rt; count(&map), 0);
}

// Bits 63 and 65 are set in both.
#[test]
fn shared(rt: HostRuntime) {
    let a = [1 << 63, 3];
    let b = [1 << 63 | 1, 6];
    assert_eq!(rt; count_shared(&a, &b), 2);
    assert_eq!(rt; nth_shared(&a, &b, 0), Some(63));
    assert_eq!(rt; nth_shared(&a, &b, 1), Some(65));
    assert_eq!(rt; nth_shared(&a, &b, 2), None);
    let mut to = [7u64; 2];
    copy(&mut to, &a);
    assert_eq!(rt; to, a);
}
