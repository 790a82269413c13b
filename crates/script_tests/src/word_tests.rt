// Words for bytes, read and printed.
use std::test::Fail;
use words::printing::Word;
use words::word;

// A word, its bytes, and the word that is printed for them.
static WORDS: [(&[u8], &[u8], &str); 15] = [
    (b"a", b"a", "a"),
    (b"!~", b"!~", "!~"),
    (b"\\-", b"", "\\-"),
    (b"-", b"-", "-"),
    (b"\\x00\\xff", b"\x00\xff", "\\x00\\xff"),
    (b"\\x5c\\x20\\x0a", b"\\ \n", "\\x5c\\x20\\x0a"),
    (b"\\x41", b"A", "A"),
    (b"a\\{1}", b"a", "a"),
    (b"a\\{3}", b"aaa", "aaa"),
    (b"aaaa", b"aaaa", "a\\{4}"),
    (b"aa\\{003}b", b"aaaab", "a\\{4}b"),
    (b"a\\{2}a\\{2}", b"aaaa", "a\\{4}"),
    (
        b"\\x00\\{5}1\\{4}",
        b"\x00\x00\x00\x00\x001111",
        "\\x00\\{5}1\\{4}",
    ),
    (b"{N}", b"{N}", "{N}"),
    (b"\\x7f#=", b"\x7f#=", "\\x7f#="),
];

#[test]
fn words_are_read(rt: HostRuntime) -> Result<(), Fail> {
    for (text, bytes, printed) in &WORDS {
        for spelled in [*text, printed.as_bytes()] {
            let (read, left) = word(rt.alloc(), spelled)?;
            assert_eq!(rt; read.as_slice(), *bytes);
            assert_eq!(rt; left.len(), 0);
        }
    }
    Ok(())
}

#[test]
fn words_are_printed(rt: HostRuntime) -> Result<(), Fail> {
    for (_text, bytes, printed) in &WORDS {
        assert_eq!(rt; Word(bytes).to_string(rt.alloc())?.as_str(), *printed);
    }
    Ok(())
}

#[test]
fn a_word_ends_before_a_space(rt: HostRuntime) -> Result<(), Fail> {
    let (read, left) = word(rt.alloc(), b"ab\\{2} c")?;
    assert_eq!(rt; read.as_slice(), b"abb".as_slice());
    assert_eq!(rt; left, b" c".as_slice());
    Ok(())
}
