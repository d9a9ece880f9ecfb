//! `listing`: tells what the deck on standard input says before it is run, as its words ask, on standard output.
//!
//! Without words it reviews the deck: what each job is, and every mistake that can be seen.
#![tactic(auto)]

mod options;
mod run;
mod streams;

use mon_device::Noted;
use run::run;
use std::process::ExitCode;
use std::rt::Env;
use std::{env, io};

fn main(rt: HostRuntime) -> ExitCode {
    let words = given_words(&rt);
    let mut input = Noted::new(rt.stdin());
    let mut output = Noted::new(rt.stdout());
    let mut errors = rt.stderr();
    let status = run(rt.alloc(), words, &mut input, &mut output, &mut errors);
    if input.would_block {
        let _ = eprintln!(rt;
            "listing: standard input is non-blocking, and had nothing to read yet"
        );
    }
    if output.would_block {
        let _ = eprintln!(rt; "listing: standard output is non-blocking, and had no room yet");
    }
    ExitCode::from(status)
}

// The words that the program was started with.
fn given_words<R: Env + AllocGlobal>(rt: &R) -> io::Result<Vec<String>> {
    Ok(env::args(rt)?.collect(rt.alloc())?)
}
