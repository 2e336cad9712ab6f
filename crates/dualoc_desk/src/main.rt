//! The desk: the words of the command line, over the host's files, standard input and standard output, and
//! over the store that the third word names. Everything is printed to standard output, and the program ends
//! with the status's number.
#![tactic(auto)]

use desk_cli::{DeskStatus, desk};
use shelf_port::{RealShelf, RealSink, RealSource, write_whole};
use sqlite_keeper::SqliteKeeper;
use std::env::Env;
use std::io::ErrorKind;
use std::process::ExitCode;
use std::{env, fs, io};

// Where a standard stream was closed before the start, the next file that is opened takes its number, and what is
// printed would go to that file. This one gives nothing and takes nothing.
const NO_STREAM: &str = "/dev/null";

fn main(rt: HostRuntime) -> ExitCode {
    let _streams = [
        fs::open(&rt, NO_STREAM).ok(),
        fs::open(&rt, NO_STREAM).ok(),
        fs::open(&rt, NO_STREAM).ok(),
    ];
    let mut out = RealSink::new(&rt);
    let status = match words(&rt).and_then(|words| Ok((store(&rt, &words)?, words))) {
        Ok((path, words)) => {
            let mut shelf = RealShelf::new(&rt);
            let mut keeper = SqliteKeeper::new(rt, path);
            let mut input = RealSource::new(&rt);
            desk(
                rt.alloc(),
                &words,
                &mut shelf,
                &mut keeper,
                &mut input,
                &mut out,
            )
        }
        Err(_) => {
            // A line that can't be written leaves nothing more to say.
            let _ = write_whole(&mut out, b"no memory\n");
            DeskStatus::NoMemory
        }
    };
    ExitCode::from(status.number())
}

// The words behind the program's name: none where one of them is no text. It fails only where
// memory runs out.
fn words<R: Env + AllocGlobal>(rt: &R) -> io::Result<Vec<String>> {
    match env::args(rt) {
        Ok(words) => Ok(words.skip(1).collect(rt.alloc())?),
        Err(e) if e.kind() == ErrorKind::OutOfMemory => Err(e),
        Err(_) => Ok(Vec::new(rt.alloc())),
    }
}

// The path of the store: the third word, and an empty one where there are fewer. It fails only where memory
// runs out.
fn store<R: AllocGlobal>(rt: &R, words: &[String]) -> io::Result<String> {
    let path = match words.get(2) {
        Some(word) => word.as_str(),
        None => "",
    };
    Ok(String::from_str(rt.alloc(), path)?)
}
