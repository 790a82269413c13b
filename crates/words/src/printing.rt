// Bytes printed as a word: no part of a text but their own, whatever stands before and after.
ghost use Rattle.std.specs.Prelude.{◌≡◌, ◌==◌, ◌<◌, ◌≤◌, ◌↔◌, ◌++◌, length, IsSome, IfSome, Some};
ghost use Rattle.std.specs.List.{prefix_len};
ghost use Rattle.words.specs.Printed.{hex, print_byte, print_row, rows, print_word};

use crate::reading::is_plain;
use crate::rest;
use std::fmt;
use std::fmt::Display;

// Any bytes, printed as a word.
#[derive(Clone, Copy, Debug, PartialEq, Eq)]
pub struct Word<'a>(pub &'a [u8]);

// A byte of a word.
#[derive(Clone, Copy)]
struct Letter(u8);

// A byte that stands so many times in a row.
#[derive(Clone, Copy)]
struct Row {
    byte: u8,
    times: usize,
}

// How often a byte stands at the front.
fn leading(bytes: &[u8], byte: u8) -> usize
    ensures value { result ≡ prefix_len (λ b. b == byte) bytes.now }
    ensures within { result ≤ length bytes.now }
{
    bytes.iter().take_while(|b| **b == byte).count()
}

// The row at the front, and the bytes after it.
#[tactic(auto, using(crate::proofs::Rows::row_first))]
fn first_row(bytes: &[u8]) -> Option<(Row, &[u8])>
    ensures variant { IsSome result ↔ (0 < length bytes.now) }
    ensures text { IfSome result (λ p. rows bytes.now ≡ print_row p.0.byte p.0.times ++ rows p.1.now) }
    ensures shorter { IfSome result (λ p. length p.1.now < length bytes.now) }
{
    let byte = *bytes.first()?;
    let times = leading(bytes, byte);
    Some((Row { byte, times }, rest(bytes, times)))
}

// The digit for a value below 16.
fn hex_letter(value: u8) -> u8
    requires { value < 16 }
    ensures letter { result ≡ hex value }
    ensures ascii { result < 128 }
{
    if value < 10 {
        b'0' + value
    } else {
        b'a' - 10 + value
    }
}

impl fmt::Display for Letter {
    ghost output = { λ letter. Some (print_byte letter.0) };

    // kept: digit by digit, and rows and words by `fmt` itself, since `{:02x}` and a `write!` in a `write!` take up to three fifths more time
    fn fmt<W: fmt::Write>(&self, f: &mut fmt::Formatter<W>) -> fmt::Result {
        if is_plain(self.0) {
            return f.write_char(char::from(self.0));
        }
        f.write_str("\\x")?;
        f.write_char(char::from(hex_letter(self.0 / 16)))?;
        f.write_char(char::from(hex_letter(self.0 % 16)))
    }
}

impl fmt::Display for Row {
    ghost output = { λ row. Some (print_row row.byte row.times) };

    fn fmt<W: fmt::Write>(&self, f: &mut fmt::Formatter<W>) -> fmt::Result {
        let letter = Letter(self.byte);
        if self.times >= 4 {
            return write!(f, "{letter}\\{{{}}}", self.times);
        }
        for _k in 0..self.times {
            letter.fmt(f)?;
        }
        Ok(())
    }
}

impl fmt::Display for Word<'_> {
    ghost output = { λ word. Some (print_word word.0.now) };

    fn fmt<W: fmt::Write>(&self, f: &mut fmt::Formatter<W>) -> fmt::Result {
        if self.0.is_empty() {
            return write!(f, "\\-");
        }
        let mut left = self.0;
        while let Some((row, after)) = first_row(left) {
            row.fmt(f)?;
            left = after;
        }
        Ok(())
    }
}
