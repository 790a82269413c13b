// Each call of the worked afternoon, played by its bytes, answers as its line does.
use calls::Call;
use decode::read_call;
use encode::write_call;
use lines::printing::CallLine;
use player::Player;
use script::line::{Line, read_line};
use std::alloc::Global;
use std::test::Fail;
use words::printing::Word;

static AFTERNOON: [&[u8]; 29] = [
    b"make-file 0 a",
    b"make-file 0 a",
    b"resize 1 2",
    b"write 1 0 \\x01\\{4096}",
    b"write 1 2 \\x01\\{4096}",
    b"read 1 0",
    b"read 1 1",
    b"sync-tree",
    b"make-dir 0 d",
    b"make-file 2 t",
    b"resize 3 2",
    b"rename 2 t 0 a",
    b"sync-tree",
    b"rename 0 d 2 e",
    b"remove 0 d",
    b"find 0 a",
    b"rename 2 t 0 a",
    b"find 0 a",
    b"size 1",
    b"resize 3 5",
    b"sync-tree",
    b"resize 3 5",
    b"list 0 0",
    b"list 0 1",
    b"list 0 2",
    b"resize 3 7",
    b"remove 0 d",
    b"write 3 0 \\x02\\{4096}",
    b"write 3 0 \\x03\\{4096}",
];

// The bytes of the call that a line is.
fn call_bytes(heap: Global, line: &[u8]) -> Result<Vec<u8>, Fail> {
    let mut bytes = Vec::new(heap);
    bytes.resize(4200, 0)?;
    let Line::Call(asked) = read_line(heap, line)? else {
        return Err(Fail::new("no call"));
    };
    let n = write_call(&asked.call(), bytes.as_mut_slice()).ok_or("no room")?;
    bytes.truncate(n);
    Ok(bytes)
}

// What a line prints, after limits.
fn played(heap: Global, line: &[u8]) -> Result<String, Fail> {
    let mut player = Player::new();
    player.play(heap, b"limits 6 6 3")?;
    Ok(player.play(heap, line)?)
}

#[test]
fn afternoon_by_bytes(rt: HostRuntime) -> Result<(), Fail> {
    let heap = rt.alloc();
    for line in &AFTERNOON {
        let bytes = call_bytes(heap, line)?;
        let line_of_bytes = format!(in heap; "bytes {}", Word(bytes.as_slice()))?;
        let by_bytes = played(heap, line_of_bytes.as_bytes())?;
        let by_line = played(heap, line)?;
        assert_eq!(rt; by_bytes, by_line);
        let again = CallLine(read_call(bytes.as_slice())).to_string(heap)?;
        assert_eq!(rt; again.as_bytes(), *line);
    }
    Ok(())
}
