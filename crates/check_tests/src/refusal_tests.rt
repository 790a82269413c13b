// The reason why each call is refused; none for a call that is done.
use crate::board::reason;
use calls::Call;
use calls::Refusal::{
    InTheWay, NameTaken, NoCall, NoDirectory, NoEntry, NoFile, NoPlace, NoRoom, OutOfRange,
    TooManyOlder,
};

#[test]
fn names_found(rt: HostRuntime) {
    assert_eq!(rt; reason(0, 2, Call::Find(0, b"a")), None);
    assert_eq!(rt; reason(0, 2, Call::Find(0, b"x")), Some(NoEntry));
    assert_eq!(rt; reason(0, 2, Call::Find(2, b"b")), None);
    assert_eq!(rt; reason(0, 2, Call::Find(1, b"a")), Some(NoDirectory));
    assert_eq!(rt; reason(0, 2, Call::Find(9, b"a")), Some(NoDirectory));
}

// A name of 64 bytes may be, one of 65 or of none may not, whatever else is wrong.
#[test]
fn names_long(rt: HostRuntime) {
    let most = b"0123456789abcdef0123456789abcdef0123456789abcdef0123456789abcdef";
    let more = b"0123456789abcdef0123456789abcdef0123456789abcdef0123456789abcdef0";
    assert_eq!(rt; reason(0, 2, Call::Find(0, most)), Some(NoEntry));
    assert_eq!(rt; reason(0, 2, Call::Find(0, more)), Some(OutOfRange));
    assert_eq!(rt; reason(0, 2, Call::MakeDir(9, b"")), Some(OutOfRange));
}

// The tree is full, and so are the older trees: the first reason is told.
#[test]
fn nodes_made(rt: HostRuntime) {
    assert_eq!(rt; reason(2, 2, Call::MakeFile(1, b"x")), Some(NoDirectory));
    assert_eq!(rt; reason(2, 2, Call::MakeFile(0, b"a")), Some(NameTaken));
    assert_eq!(rt; reason(2, 2, Call::MakeDir(0, b"x")), Some(NoRoom));
}

#[test]
fn nodes_removed(rt: HostRuntime) {
    assert_eq!(rt; reason(2, 2, Call::Remove(0, b"x")), Some(NoEntry));
    assert_eq!(rt; reason(2, 2, Call::Remove(0, b"d")), Some(InTheWay));
    assert_eq!(rt; reason(2, 2, Call::Remove(0, b"a")), Some(TooManyOlder));
    assert_eq!(rt; reason(1, 2, Call::Remove(0, b"a")), None);
}

#[test]
fn nodes_renamed(rt: HostRuntime) {
    assert_eq!(rt;
        reason(2, 2, Call::Rename(0, b"x", 9, b"y")),
        Some(NoDirectory)
    );
    assert_eq!(rt; reason(2, 2, Call::Rename(0, b"x", 2, b"y")), Some(NoEntry));
    assert_eq!(rt;
        reason(2, 2, Call::Rename(0, b"d", 2, b"x")),
        Some(InTheWay)
    );
    assert_eq!(rt;
        reason(2, 2, Call::Rename(0, b"a", 0, b"d")),
        Some(InTheWay)
    );
    assert_eq!(rt;
        reason(2, 2, Call::Rename(0, b"a", 2, b"b")),
        Some(TooManyOlder)
    );
    assert_eq!(rt; reason(1, 2, Call::Rename(0, b"a", 2, b"b")), None);
}

// To the name that it has, a node is renamed whatever the limits are.
#[test]
fn same_name(rt: HostRuntime) {
    assert_eq!(rt; reason(2, 2, Call::Rename(0, b"a", 0, b"a")), None);
    assert_eq!(rt;
        reason(2, 2, Call::Rename(0, b"a", 0, b"x")),
        Some(TooManyOlder)
    );
}

#[test]
fn entries_listed(rt: HostRuntime) {
    assert_eq!(rt; reason(2, 6, Call::List(0, 1)), None);
    assert_eq!(rt; reason(2, 6, Call::List(0, 2)), Some(NoEntry));
    assert_eq!(rt; reason(2, 6, Call::List(1, 0)), Some(NoDirectory));
}

#[test]
fn places_read(rt: HostRuntime) {
    assert_eq!(rt; reason(2, 6, Call::Size(1)), None);
    assert_eq!(rt; reason(2, 6, Call::Size(0)), Some(NoFile));
    assert_eq!(rt; reason(2, 6, Call::Read(1, 1)), None);
    assert_eq!(rt; reason(2, 6, Call::Read(1, 2)), Some(NoPlace));
    assert_eq!(rt; reason(2, 6, Call::Read(3, 0)), Some(NoPlace));
    assert_eq!(rt; reason(2, 6, Call::Read(0, 0)), Some(NoFile));
}

// 4,096 bytes, no fewer.
#[test]
fn places_written(rt: HostRuntime) {
    let block = [7u8; 4096];
    assert_eq!(rt; reason(2, 6, Call::Write(1, 1, &block)), None);
    assert_eq!(rt; reason(2, 6, Call::Write(1, 2, &block)), Some(NoPlace));
    assert_eq!(rt;
        reason(2, 6, Call::Write(9, 2, &block[1..])),
        Some(OutOfRange)
    );
}

// Two cells are held, and six may be.
#[test]
fn files_resized(rt: HostRuntime) {
    assert_eq!(rt; reason(0, 2, Call::Resize(1, 65537)), Some(OutOfRange));
    assert_eq!(rt; reason(0, 2, Call::Resize(2, 1)), Some(NoFile));
    assert_eq!(rt; reason(2, 2, Call::Resize(1, 2)), None);
    assert_eq!(rt; reason(2, 2, Call::Resize(1, 7)), Some(NoRoom));
    assert_eq!(rt; reason(2, 2, Call::Resize(1, 6)), Some(TooManyOlder));
    assert_eq!(rt; reason(1, 2, Call::Resize(1, 6)), None);
    assert_eq!(rt; reason(1, 3, Call::Resize(1, 6)), Some(NoRoom));
    assert_eq!(rt; reason(1, 6, Call::Resize(1, 1)), None);
}

#[test]
fn synced(rt: HostRuntime) {
    assert_eq!(rt; reason(2, 6, Call::SyncFile(1)), None);
    assert_eq!(rt; reason(2, 6, Call::SyncFile(2)), Some(NoFile));
    assert_eq!(rt; reason(2, 6, Call::SyncTree), None);
    assert_eq!(rt; reason(2, 6, Call::Garbled(3)), Some(NoCall));
}
