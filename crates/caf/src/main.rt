//! The program: it hands files, standard output and the words of its command line to the top call, and ends with its
//! status.
#![tactic(auto)]

use caf_outside::{FileHost, StdSink};
use caf_top::caf_main;
use std::alloc::Global;
use std::io::ErrorKind;
use std::process::ExitCode;
use std::rt::{Env, Files};
use std::sync::Wait;
use std::thread::Threads;
use std::{env, io};

/// The status for want of memory.
const MEMORY: u8 = 9;

// The words of the command line, without the program's name. One that is no UTF-8 is an error.
fn command_words(rt: &(impl Env + AllocGlobal), alloc: Global) -> io::Result<Vec<String>> {
    let mut words = Vec::new(alloc);
    for word in env::args(rt)?.skip(1) {
        words.push(word)?;
    }
    Ok(words)
}

fn as_texts(alloc: Global, words: &[String]) -> io::Result<Vec<&str>> {
    let mut texts = Vec::new(alloc);
    for word in words {
        texts.push(word.as_str())?;
    }
    Ok(texts)
}

fn call<'a, R: Files + Print + AllocGlobal + Threads + Wait + Sync>(
    rt: &R,
    words: &'a [&'a str],
) -> u8 {
    let alloc = rt.alloc();
    let mut host = FileHost::new(alloc, rt);
    let mut out = StdSink::new(rt);
    caf_main(rt, alloc, words, &mut host, &mut out).status
}

fn run<R: Files + Print + Env + AllocGlobal + Threads + Wait + Sync>(rt: &R) -> io::Result<u8> {
    let alloc = rt.alloc();
    let words = command_words(rt, alloc)?;
    let texts = as_texts(alloc, &words)?;
    Ok(call(rt, &texts))
}

fn main(rt: HostRuntime) -> ExitCode {
    match run(&rt) {
        Ok(status) => ExitCode::from(status),
        // A command line with a word that is no text asks for nothing that is known, as an empty one does.
        Err(fault) if fault.kind() == ErrorKind::InvalidData => ExitCode::from(call(&rt, &[])),
        Err(_) => ExitCode::from(MEMORY),
    }
}
