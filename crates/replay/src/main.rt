//! Replays a call script from standard input on a new service, and prints what happened.

#![tactic(auto)]

mod error;

use crate::error::ReplayError;
use history::session::run;
use script::script::Script;
use std::io::{BufRead, BufReader, BufWriter, Write};
use std::process::ExitCode;
use std::{env, io};
use transcript::Transcript;

const HELP: &str = "\
replay: makes the calls of a script on a new mission timeline service, and prints what happened.

    replay < SCRIPT

A script has one setting or call a line; # begins a comment line.

    area N        the calls after it bring an area of N octets, 0 to 1048576 (first 4096)
    request HEX   a whole request of these octets
    accept HEX    acceptance alone of a request of these octets
    complete K    completion of the request of the K-th accept line
    clock T       set the clock to T, in 1/65536 second

HEX is one word of hexadecimal digits, a pair for each octet; left out, it means no octets.

Each call is answered by a line 'N done V', 'N accepted', 'N failed 1,2 code C', 'N refused R',
'N no such request' or 'N clock T', and a line '  TYPE,SUBTYPE HEX' for each report written; the
words after ' ; ' are for people. Requests still accepted are completed at the end.
A wrong line is named on standard error; then nothing is run, and the status is 1.
";

fn read_script(rt: &HostRuntime) -> Result<Script, ReplayError> {
    let heap = rt.alloc();
    let mut script = Script::new(heap);
    for line in BufReader::new(heap, rt.stdin())?.split(heap, b'\n') {
        script.add_line(line?.as_slice())?;
    }
    Ok(script)
}

fn print(rt: &HostRuntime, transcript: &Transcript<'_, '_>) -> io::Result<()> {
    let mut out = BufWriter::new(rt.alloc(), rt.stdout())?;
    write!(out, "{transcript}")?;
    out.flush()
}

fn replay(rt: &HostRuntime) -> Result<(), ReplayError> {
    let script = read_script(rt)?;
    let accepts = script.accepts()?;
    let mut entries = script.entries()?;
    let places = Vec::with_capacity(rt.alloc(), entries.len())?;
    match run(places, entries.as_mut_slice()) {
        Ok(session) => session.end(&mut [0; 4096]),
        // there is room for a request of each call; no `unwrap`, since the error holds places of
        // accepted requests, which may not be dropped
        Err(_places) => unreachable!(),
    };
    let (scripted, completions) = entries.as_slice().split_at(script.steps().len());
    let transcript = Transcript::new(accepts.as_slice(), scripted, completions);
    print(rt, &transcript)?;
    Ok(())
}

// Whether the arguments ask for help; the first that means nothing is an error.
fn asks_help(rt: &HostRuntime) -> Result<bool, ReplayError> {
    let mut arguments = env::args(rt)?.skip(1);
    let Some(first) = arguments.next() else {
        return Ok(false);
    };
    if !matches!(first.as_str(), "--help" | "-h") {
        return Err(ReplayError::Argument(first));
    }
    match arguments.next() {
        Some(second) => Err(ReplayError::Argument(second)),
        None => Ok(true),
    }
}

fn run_program(rt: &HostRuntime) -> Result<(), ReplayError> {
    if asks_help(rt)? {
        rt.print(HELP)?;
        return Ok(());
    }
    replay(rt)
}

fn main(rt: HostRuntime) -> ExitCode {
    match run_program(&rt) {
        Ok(()) => ExitCode::SUCCESS,
        Err(error) => {
            let _ = rt.eprintln(format_args!("{error}"));
            ExitCode::FAILURE
        }
    }
}
