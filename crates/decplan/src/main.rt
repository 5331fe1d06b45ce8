//! The program: real files, standard output, and the words after the program's name.
#![tactic(auto)]

mod shelf;
mod sink;
#[cfg(test)]
mod tests;

use dp_cli::{Status, run};
use shelf::HostShelf;
use sink::HostSink;
use std::env::{self, Env};
use std::io;
use std::process::ExitCode;

fn main(rt: HostRuntime) -> ExitCode {
    let alloc = rt.alloc();
    let status = match words_after_the_name(&rt) {
        Ok(words) => {
            let mut shelf = HostShelf::new(alloc, &rt);
            let mut sink = HostSink::new(io::writer(&rt));
            run(alloc, &words, &mut shelf, &mut sink)
        }
        Err(_) => Status::NoMemory,
    };
    ExitCode::from(status.code())
}

// The words of the command line. A word that is not UTF-8 makes the whole line faulty, as no words
// are.
fn words_after_the_name<R: Env + AllocGlobal>(rt: &R) -> io::Result<Vec<String>> {
    let mut words = Vec::new(rt.alloc());
    match env::args(rt) {
        Ok(all) => {
            for word in all.skip(1) {
                words.push(word)?;
            }
            Ok(words)
        }
        Err(error) if error.kind() == io::ErrorKind::InvalidData => Ok(words),
        Err(error) => Err(error),
    }
}
