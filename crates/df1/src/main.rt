//! The program `df1` over standard input, standard output, standard error and the files of the current folder.
#![tactic(auto)]

use df1_base::{StdIn, StdOut, write_all};
use df1_shelf::DirShelf;
use std::io::ErrorKind;
use std::process::ExitCode;
use std::rt::Env;
use std::{env, io};

/// The exit status if there is no memory for the arguments.
const NO_MEMORY: u8 = 7;

fn main(rt: HostRuntime) -> ExitCode {
    let Ok(words) = words(&rt) else {
        let _ = write_all(&mut StdOut::new(rt.stderr()), b"df1: no memory\n");
        return ExitCode::from(NO_MEMORY);
    };
    let ran = df1_tool::run(
        rt.alloc(),
        &words,
        DirShelf::new(&rt),
        StdIn::new(rt.stdin().lock()),
        StdOut::new(rt.stdout()),
        StdOut::new(rt.stderr()),
    );
    ExitCode::from(ran.status)
}

/// Returns the arguments after the program's name. If one isn't valid UTF-8, returns none, which is no form of the
/// program.
fn words<R: Env + AllocGlobal>(rt: &R) -> io::Result<Vec<String>> {
    let mut words = Vec::new(rt.alloc());
    let args = match env::args(rt) {
        Ok(args) => args,
        Err(error) if error.kind() == ErrorKind::InvalidData => return Ok(words),
        Err(error) => return Err(error),
    };
    for word in args.skip(1) {
        words.push(word)?;
    }
    Ok(words)
}
