//! The program `triage`. `main` makes two sources over real files (of the image and of the lists), a disk over a
//! real folder, a kit that reads patterns as the `regex` crate does and a sink over standard output, calls
//! `triage_run::triage`, and ends
//! with the number of its status. What the call puts is printed. Standard error has a line where a word is bad, and
//! nothing else. A command line that asks for the help page or for the version makes no call.
#![tactic(auto)]

ghost use Rattle.std.specs.Prelude.{◌<◌, ◌^◌, length, vec_len, IfOk};

mod file_source;
mod folder_disk;
mod help;
mod stdout_sink;
#[cfg(test)]
mod tests;

use byte_kit::NoMemory;
use file_source::FileSource;
use folder_disk::FolderDisk;
use help::{HINT, lines_asked};
use pattern_kit::RegexKit;
use std::process::ExitCode;
use std::{env, io};
use stdout_sink::StdoutSink;
use triage_run::{Status, triage};

// The exit status where a word is no text, or where there are more words than can be numbered.
const BAD_WORDS: u8 = 2;

// The most words that can be numbered.
const WORDS_MOST: usize = (1 << 32) - 1;

fn main(rt: HostRuntime) -> ExitCode {
    let status = match words_of(&rt) {
        Ok(words) => answer(&rt, words.as_slice()),
        Err(status) => status,
    };
    ExitCode::from(status)
}

// The words behind the program's name, or the exit status where there are none to be had.
fn words_of(rt: &HostRuntime) -> Result<Vec<String>, u8>
    ensures { IfOk result (λ words. vec_len words < 2 ^ 32) }
{
    let args = match env::args(rt) {
        Ok(args) => args,
        Err(error) if error.kind() == io::ErrorKind::OutOfMemory => {
            return Err(Status::NoMemory.number());
        }
        // The arguments are had all together or not at all, so the word is not numbered.
        Err(_) => {
            let _ = eprintln!(rt; "usage: a word is not UTF-8");
            return Err(BAD_WORDS);
        }
    };
    let mut words = Vec::new(rt.alloc());
    for word in args.skip(1) {
        if words.len() >= WORDS_MOST {
            return Err(BAD_WORDS);
        }
        if words.push(word).is_err() {
            return Err(Status::NoMemory.number());
        }
    }
    Ok(words)
}

// Prints the text that the words ask for, or does what they say, and answers the exit status.
fn answer(rt: &HostRuntime, words: &[String]) -> u8
    requires { length words.now < 2 ^ 32 }
{
    match lines_asked(words) {
        Some(lines) => print_lines(rt, lines),
        None => scan(rt, words),
    }
}

// Prints lines, and answers the exit status.
fn print_lines(rt: &HostRuntime, lines: &[&str]) -> u8 {
    for line in lines {
        if println!(rt; "{line}").is_err() {
            return Status::OutFault.number();
        }
    }
    Status::Done.number()
}

// Does what the words say over real files, and answers the exit status.
fn scan(rt: &HostRuntime, words: &[String]) -> u8
    requires { length words.now < 2 ^ 32 }
{
    let status = match outcome_of(rt, words) {
        Ok(status) => status,
        Err(NoMemory) => Status::NoMemory,
    };
    if let Status::Usage { .. } = status {
        let _ = eprintln!(rt; "{HINT}");
    }
    status.number()
}

// How the call ends. What was made for it wants memory at the worst.
fn outcome_of(rt: &HostRuntime, words: &[String]) -> Result<Status, NoMemory>
    requires { length words.now < 2 ^ 32 }
{
    let alloc = rt.alloc();
    let mut sources = Vec::new(alloc);
    sources.push(FileSource::make(alloc, rt.clone()?))?;
    let lists = FileSource::make(alloc, rt.clone()?);
    let disk = FolderDisk::make(alloc, rt.clone()?);
    let (kit, sink) = (RegexKit::make(), StdoutSink::make(rt.stdout()));
    Ok(triage(alloc, words, sources, lists, disk, kit, sink).status)
}
