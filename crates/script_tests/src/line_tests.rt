// Lines, read and printed.
use crate::line_table::{CALLS, WRONG};
use calls::{Answer, Limits, Refusal};
use lines::printing::{AnswerLine, CallLine};
use script::fields::Choice;
use script::line::{Line, Unreadable, read_line};
use std::test::Fail;

#[test]
fn calls_are_read_and_printed(rt: HostRuntime) -> Result<(), Fail> {
    for (line, printed) in &CALLS {
        for line in [line, printed] {
            let Line::Call(asked) = read_line(rt.alloc(), line)? else {
                return Err(Fail::new("no call"));
            };
            let again = CallLine(asked.call()).to_string(rt.alloc())?;
            assert_eq!(rt; again.as_bytes(), *printed);
        }
    }
    Ok(())
}

#[test]
fn errors_tell_the_column(rt: HostRuntime) {
    for (line, column) in &WRONG {
        assert_eq!(rt;
            read_line(rt.alloc(), line),
            Err(Unreadable::Column(*column))
        );
    }
}

#[test]
fn lines_are_passed_over(rt: HostRuntime) {
    for line in [b"".as_slice(), b"# \xff\\"] {
        assert_eq!(rt; read_line(rt.alloc(), line), Ok(Line::Nothing));
    }
}

#[test]
fn limits_and_bytes_are_read(rt: HostRuntime) -> Result<(), Fail> {
    let limits = Limits {
        cells: 6,
        nodes: 7,
        older: 3,
    };
    assert_eq!(rt;
        read_line(rt.alloc(), b"limits 6 7 3"),
        Ok(Line::Limits(limits))
    );
    let bytes = vec![in rt.alloc(); 0x0b, 0x00]?;
    assert_eq!(rt;
        read_line(rt.alloc(), b"bytes \\x0b\\x00"),
        Ok(Line::Bytes(bytes))
    );
    Ok(())
}

#[test]
fn power_is_read(rt: HostRuntime) -> Result<(), Fail> {
    let choices = vec![in rt.alloc();
        Choice {
            block: 7,
            choice: 1
        },
        Choice {
            block: 12,
            choice: 0
        },
    ]?;
    let said = read_line(rt.alloc(), b"power 5 7=1 12=0");
    assert_eq!(rt; said, Ok(Line::Power(5, choices)));
    Ok(())
}

// An answer, and its line.
static ANSWERS: [(Answer<'static>, &str); 5] = [
    (Answer::Refused(Refusal::NoPlace, 17), "refused 10 17"),
    (Answer::Done, "done"),
    (
        Answer::Number(18446744073709551615),
        "number 18446744073709551615",
    ),
    (Answer::Entry(b"a b", 3), "entry a\\x20b 3"),
    (Answer::Block(b"\x00\x00\x00\x00"), "block \\x00\\{4}"),
];

#[test]
fn answers_are_printed(rt: HostRuntime) -> Result<(), Fail> {
    for (answer, printed) in &ANSWERS {
        assert_eq!(rt;
            AnswerLine(*answer).to_string(rt.alloc())?.as_str(),
            *printed
        );
    }
    Ok(())
}
