// What each step leaves is compared with the tables of the next moment.
use crate::moments::{BOTH, DIR, FILE, INNER, LONG, MOVED, SHORT, WITHOUT};
use crate::steps::{
    cut_first, grow_first, grow_last, make_dir, make_file, make_inner, remove_first, rename_over,
};

#[test]
fn makes_a_file(rt: HostRuntime) {
    assert_eq!(rt; make_file(), FILE);
}

#[test]
fn makes_a_directory(rt: HostRuntime) {
    assert_eq!(rt; make_dir(), DIR);
}

#[test]
fn makes_a_file_in_it(rt: HostRuntime) {
    assert_eq!(rt; make_inner(), INNER);
}

#[test]
fn grows_the_first(rt: HostRuntime) {
    assert_eq!(rt; grow_first(), LONG);
}

#[test]
fn grows_the_last(rt: HostRuntime) {
    assert_eq!(rt; grow_last(), BOTH);
}

#[test]
fn cuts_the_first(rt: HostRuntime) {
    assert_eq!(rt; cut_first(), SHORT);
}

#[test]
fn removes_the_first(rt: HostRuntime) {
    assert_eq!(rt; remove_first(), WITHOUT);
}

#[test]
fn renames_over_it(rt: HostRuntime) {
    assert_eq!(rt; rename_over(), MOVED);
}
