// Words put in at the front, in the middle and at the end, and taken out; sums raised and lowered; a count set.
use splice::counts::set_count;
use splice::sums::{lower_sums, raise_sums};
use splice::words::{insert_words, remove_words};

#[test]
fn inserts(rt: HostRuntime) {
    let mut front = [1, 2, 3, 0, 0, 7];
    insert_words(&mut front, 3, 0, &[8, 9]);
    assert_eq!(rt; front, [8, 9, 1, 2, 3, 7]);
    let mut middle = [1, 2, 3, 0, 0, 7];
    insert_words(&mut middle, 3, 1, &[8, 9]);
    assert_eq!(rt; middle, [1, 8, 9, 2, 3, 7]);
    let mut end = [1, 2, 3, 0, 0, 7];
    insert_words(&mut end, 3, 3, &[8, 9]);
    assert_eq!(rt; end, [1, 2, 3, 8, 9, 7]);
}

#[test]
fn removes(rt: HostRuntime) {
    let mut middle = [1, 2, 3, 4, 5, 7];
    remove_words(&mut middle, 5, 1, 2);
    assert_eq!(rt; middle, [1, 4, 5, 0, 0, 7]);
    let mut end = [1, 2, 3, 4, 5, 7];
    remove_words(&mut end, 5, 3, 2);
    assert_eq!(rt; end, [1, 2, 3, 0, 0, 7]);
}

#[test]
fn raises(rt: HostRuntime) {
    let mut sums = [0, 0, 2, 5, 3, 5, 0, 0];
    raise_sums(&mut sums, 1, 2, 1, 4);
    assert_eq!(rt; sums, [0, 0, 3, 9, 4, 9, 0, 0]);
}

#[test]
fn lowers(rt: HostRuntime) {
    let mut sums = [0, 0, 2, 5, 3, 5, 9, 9];
    lower_sums(&mut sums, 1, 2, 1, 4);
    assert_eq!(rt; sums, [0, 0, 1, 1, 2, 1, 9, 9]);
}

#[test]
fn counts(rt: HostRuntime) {
    let mut nodes = [0, 0, 2, 0, 3, 1, 5, 0];
    set_count(&mut nodes, 1, 6);
    assert_eq!(rt; nodes, [0, 0, 2, 0, 3, 1, 6, 0]);
}
