// Scripts, played line by line.
use player::{Player, Trouble, split_line};
use std::process::Abort;

// A line, and what it prints or what is wrong with it.
static LIMITS_FIRST: [(&[u8], Result<&str, Trouble>); 13] = [
    (b"# remark", Ok("")),
    (b"sync-tree", Err(Trouble::NoLimits)),
    (b"bytes \\-", Err(Trouble::NoLimits)),
    (b"power 0", Err(Trouble::NoLimits)),
    (b"limits 65 1 1", Err(Trouble::LimitsRange)),
    (b"limits 0 0 1", Err(Trouble::LimitsRange)),
    (b"limits 0 65 1", Err(Trouble::LimitsRange)),
    (b"limits 0 1 0", Err(Trouble::LimitsRange)),
    (b"limits 0 1 17", Err(Trouble::LimitsRange)),
    (b"limits 0 1", Err(Trouble::Column(11))),
    (b"limits 64 64 16", Ok("")),
    (b"limits 0 1 1", Err(Trouble::LimitsAgain)),
    (b"sync-tree", Ok("refused 2 0\n")),
];

static CALLS_AND_POWER: [(&[u8], Result<&str, Trouble>); 13] = [
    (b"limits 0 1 1", Ok("")),
    (b"find 0 a", Ok("refused 2 0\n")),
    (b"", Ok("")),
    (b"bytes \\xff", Ok("refused 1 0\n")),
    (b"bytes \\x0b\\x00", Ok("refused 1 1\n")),
    (b"bytes \\x0b", Ok("refused 2 0\n")),
    (b"find 0", Err(Trouble::Column(7))),
    (b"sync-tree", Ok("refused 2 0\n")),
    (b"power 0", Ok("power\nfound\n")),
    (b"power 0 1=1", Ok("power\nfound\n")),
    (b"power 1", Ok("")),
    (b"power 0", Ok("")),
    (b"sync-tree", Ok("refused 2 0\n")),
];

fn plays(rt: &(impl Abort + AllocGlobal), steps: &[(&[u8], Result<&str, Trouble>)]) {
    let mut player = Player::new();
    for (line, printed) in steps {
        match player.play(rt.alloc(), line) {
            Ok(text) => assert_eq!(rt; Ok(text.as_str()), *printed),
            Err(trouble) => assert_eq!(rt; Err(trouble), *printed),
        }
    }
}

#[test]
fn limits_come_first(rt: HostRuntime) {
    plays(&rt, &LIMITS_FIRST);
}

#[test]
fn calls_are_refused_and_power_goes(rt: HostRuntime) {
    plays(&rt, &CALLS_AND_POWER);
}

#[test]
fn a_text_has_lines(rt: HostRuntime) {
    let (line, after) = split_line(b"a\n\nb\n");
    assert_eq!(rt; line, b"a".as_slice());
    let (blank, last) = split_line(after);
    assert_eq!(rt; blank, b"".as_slice());
    let (line, after) = split_line(last);
    assert_eq!(rt; line, b"b".as_slice());
    assert_eq!(rt; after, b"".as_slice());
}
