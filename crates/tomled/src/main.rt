//! `tomled`: reads and edits TOML documents, and keeps their layout.
#![tactic(auto)]

mod finishing;
mod inputs;
mod opening;
mod reading;
mod reasoned;
mod replying;
mod serving;
mod validate;

use finishing::Streams;
use inputs::RealInputs;
use opening::RealOpener;
use serving::{System, whole_run};
use std::fs::File;
use std::io::{Input, Write};
use std::process::ExitCode;
use std::rt::{Env, Files};
use std::{env, io};
use toml_delivery::{Counting, RunFault, tell};
use toml_replace::RealDisk;

fn main(rt: HostRuntime) -> ExitCode {
    let mut streams = Streams {
        out: Counting::new(rt.stdout()),
        err: Counting::new(rt.stderr()),
    };
    ExitCode::from(run(&rt, &mut streams))
}

/// Does what the words of the process ask, and gives the exit status.
fn run<R: Env + Files + Input + AllocGlobal, O: Write, E: Write>(
    rt: &R,
    streams: &mut Streams<O, E>,
) -> u8 {
    // What is opened first gets the places of the standard streams that the process was started without. Here that is a folder,
    // which is neither read nor written: else a file would be opened there, and have in it what was to be printed. Where `/` can't
    // be opened nothing keeps these places.
    let _first = File::open(rt, "/");
    let _second = File::open(rt, "/");
    let _third = File::open(rt, "/");
    let words = match arguments(rt) {
        Ok(words) => words,
        Err(fault) => return tell(&mut streams.err, fault),
    };
    let mut system = System {
        inputs: RealInputs::new(rt),
        disk: RealDisk::new(rt),
        opener: RealOpener::new(rt),
    };
    let (status, _files) = whole_run(rt.alloc(), &mut system, &words, streams);
    status
}

/// The words of the process. One that is no UTF-8 text makes no request.
fn arguments<R: Env + AllocGlobal>(rt: &R) -> Result<Vec<String>, RunFault> {
    match env::args(rt) {
        Ok(words) => {
            let mut list = Vec::new(rt.alloc());
            for word in words {
                list.push(word)?;
            }
            Ok(list)
        }
        Err(error) => match error.kind() {
            io::ErrorKind::InvalidData => Err(RunFault::Words),
            _ => Err(RunFault::from(error)),
        },
    }
}
