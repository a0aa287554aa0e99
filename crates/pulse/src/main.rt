//! The program: the top call over real files, standard input and standard output.
#![tactic(auto)]

mod real_host;

use pl_base::NullGate;
use pl_top::pulse_main;
use real_host::RealHost;
use std::env;
use std::io::ErrorKind;
use std::process::ExitCode;

// The statuses where the words are no text, and where memory is wanted.
const USAGE: u8 = 2;

const MEMORY: u8 = 6;

fn main(rt: HostRuntime) -> ExitCode {
    let alloc = rt.alloc();
    let args = match env::args(&rt) {
        Ok(args) => args,
        Err(error) if error.kind() == ErrorKind::OutOfMemory => return ExitCode::from(MEMORY),
        Err(_) => {
            let _ = eprintln!(rt; "pulse: a word of the command line isn't UTF-8");
            return ExitCode::from(USAGE);
        }
    };
    let mut words = Vec::new(alloc);
    for word in args.skip(1) {
        if words.push(word).is_err() {
            return ExitCode::from(MEMORY);
        }
    }
    let mut host = RealHost::new(&rt, alloc);
    ExitCode::from(pulse_main(&rt, alloc, words.as_slice(), &mut host, &NullGate))
}
