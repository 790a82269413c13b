// Plays a script and prints what its calls answer: play FILE
#![tactic(auto)]

use player::{Player, Trouble, split_line};
use std::error::Error;
use std::io::Write;
use std::process::ExitCode;
use std::{env, fmt, fs, io};

// Why the program ends before its script does.
#[derive(Debug, Drop)]
enum Stopped {
    // there is not one argument
    Arguments,
    // the script of this name cannot be read
    File(String, io::Error),
    // the script of this name has trouble in the line of this number
    Line(String, u64, Trouble),
    // the system gives no arguments or takes no output
    System,
}

impl fmt::Display for Stopped {
    fn fmt<W: fmt::Write>(&self, f: &mut fmt::Formatter<W>) -> fmt::Result {
        match self {
            Stopped::Arguments => write!(f, "give one script: play FILE"),
            Stopped::File(name, error) => write!(f, "{name}: {error}"),
            Stopped::Line(name, number, trouble) => write!(f, "{name}: line {number}: {trouble}"),
            Stopped::System => write!(f, "the system gives no arguments or takes no output"),
        }
    }
}

impl Error for Stopped {}

impl From<io::Error> for Stopped {
    fn from(_e: io::Error) -> Stopped {
        Stopped::System
    }
}

// The one argument, which names the script.
fn script_name(rt: &HostRuntime) -> Result<String, Stopped> {
    let mut args = env::args(rt)?;
    let _program = args.next();
    match (args.next(), args.next()) {
        (Some(name), None) => Ok(name),
        _ => Err(Stopped::Arguments),
    }
}

// Plays all lines of a text, and stops at the first that is in error.
fn play_all(rt: &HostRuntime, name: String, text: &[u8]) -> Result<(), Stopped> {
    let mut player = Player::new();
    let mut left = text;
    let mut number: u64 = 0;
    while !left.is_empty() {
        let (line, after) = split_line(left);
        number = number.saturating_add(1);
        // kept: `write_all`, since `print!` makes a buffer for each line, also where it prints nothing
        match player.play(rt.alloc(), line) {
            Ok(printed) => rt.stdout().write_all(printed.as_bytes())?,
            Err(trouble) => return Err(Stopped::Line(name, number, trouble)),
        }
        left = after;
    }
    Ok(())
}

fn play_file(rt: &HostRuntime) -> Result<(), Stopped> {
    let name = script_name(rt)?;
    // kept: the name goes into the error or on to the lines, so no closure can take it
    match fs::read(rt, name.as_str()) {
        Ok(text) => play_all(rt, name, text.as_slice()),
        Err(error) => Err(Stopped::File(name, error)),
    }
}

// What is wrong is told on standard error, but where the system fails: then the status alone tells it.
fn main(rt: HostRuntime) -> ExitCode {
    match play_file(&rt) {
        Ok(()) => ExitCode::SUCCESS,
        Err(Stopped::System) => ExitCode::FAILURE,
        Err(stopped) => {
            let _told = eprintln!(rt; "play: {stopped}");
            ExitCode::FAILURE
        }
    }
}
