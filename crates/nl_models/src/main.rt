//! The tables of all models to start from, one after another.
#![tactic(auto)]

use nl_cli::{Status, run};
use nl_fixed::NoMemory;
use nl_outer::{Args, HostErr, HostFiles, HostOut};
use std::alloc::Global;
use std::process::ExitCode;

/// Each model with its experiment, as they stand where the program runs.
const EXPERIMENTS: [(&str, &str); 12] = [
    ("segregation.nlogo", "segregation.toml"),
    ("wolf-sheep.nlogo", "wolf-sheep.toml"),
    ("fire.nlogo", "fire.toml"),
    ("epidemic.nlogo", "epidemic.toml"),
    ("flocking.nlogo", "flocking.toml"),
    ("termites.nlogo", "termites.toml"),
    ("rumor.nlogo", "rumor.toml"),
    (
        "preferential-attachment.nlogo",
        "preferential-attachment.toml",
    ),
    ("ants.nlogo", "ants.toml"),
    ("life.nlogo", "life.toml"),
    ("cold.nlogo", "cold.toml"),
    ("cold.nlogo", "ends.toml"),
];

// The words that ask for a table.
fn words_for(alloc: Global, model: &str, experiment: &str) -> Result<Args, NoMemory> {
    let mut words = Args::new(alloc);
    words.push(alloc, "table")?;
    words.push(alloc, model)?;
    words.push(alloc, experiment)?;
    Ok(words)
}

fn main(rt: HostRuntime) -> ExitCode {
    let mut files = HostFiles::new(&rt);
    let mut out = HostOut::new(rt.stdout());
    let mut err = HostErr::new(rt.stderr());
    for (model, experiment) in &EXPERIMENTS {
        let Ok(words) = words_for(rt.alloc(), model, experiment) else {
            return ExitCode::from(Status::Memory.code());
        };
        let status = run(rt.alloc(), &words, &mut files, &mut out, &mut err);
        if status != Status::Done {
            return ExitCode::from(status.code());
        }
    }
    ExitCode::from(Status::Done.code())
}
