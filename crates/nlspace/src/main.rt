//! The program over the host's files and streams.
#![tactic(auto)]

use nl_cli::run;
use nl_outer::{Args, HostErr, HostFiles, HostOut};
use std::env;
use std::process::ExitCode;
use std::rt::Env;

/// What the process ends with where its words could not be got or kept. `run` never gives it.
const NO_WORDS: u8 = 9;

// The words after the program's name; none where one isn't UTF-8 or memory was refused.
fn words_of(rt: &(impl Env + AllocGlobal)) -> Option<Args> {
    let mut words = Args::new(rt.alloc());
    let all = env::args(rt).ok()?;
    for word in all.skip(1) {
        words.push(rt.alloc(), word.as_str()).ok()?;
    }
    Some(words)
}

fn main(rt: HostRuntime) -> ExitCode {
    let Some(words) = words_of(&rt) else {
        return ExitCode::from(NO_WORDS);
    };
    let mut files = HostFiles::new(&rt);
    let mut out = HostOut::new(rt.stdout());
    let mut err = HostErr::new(rt.stderr());
    let status = run(rt.alloc(), &words, &mut files, &mut out, &mut err);
    ExitCode::from(status.code())
}
