// The words that the command knows.
use clap::{Arg, ArgAction, Command};
use std::alloc::{AllocError, Global};

// The options of a configuration.
const CONFIGURATION: [&str; 9] = [
    "scheduler",
    "nr-requests",
    "tags",
    "first-budget",
    "max-budget",
    "timeout",
    "history",
    "first-vtime",
    "image",
];

// A record has its configuration itself.
const REPLAY: [&str; 3] = ["image", "history", "to"];

// The words of a subcommand: its name, the words that it has by their places, options that it shares, its own, and words with no value.
type Words = (
    &'static str,
    &'static [&'static str],
    &'static [&'static str],
    &'static [&'static str],
    &'static [&'static str],
);

const SUBCOMMANDS: [Words; 3] = [
    ("sim", &[], &CONFIGURATION, &["sectors", "payload"], &[]),
    (
        "serve",
        &[],
        &CONFIGURATION,
        &["dir", "clients", "workers", "delay", "bad", "record"],
        &["no-inspect"],
    ),
    ("replay", &["file"], &REPLAY, &["payload"], &["list"]),
];

// Adds options that are given at most once. `Set` takes exactly one value, and `SetTrue` none.
fn add_options<'a>(
    alloc: Global,
    options: &mut Vec<Arg<'a>>,
    names: &[&'a str],
    action: ArgAction,
) -> Result<(), AllocError> {
    for name in names {
        options.push(Arg::new(alloc, name).long(name).action(action))?;
    }
    Ok(())
}

// Adds words that stand by their places alone.
fn add_places<'a>(
    alloc: Global,
    options: &mut Vec<Arg<'a>>,
    names: &[&'a str],
) -> Result<(), AllocError> {
    for name in names {
        options.push(Arg::new(alloc, name))?;
    }
    Ok(())
}

// A subcommand: the words that it has by their places, the options that it shares with others, options of its own, and words with no
// value.
fn subcommand<'a>(
    alloc: Global,
    name: &'a str,
    places: &'a [&'a str],
    shared: &'a [&'a str],
    own: &'a [&'a str],
    flags: &'a [&'a str],
) -> Result<Command<'a>, AllocError> {
    let mut options = Vec::new(alloc);
    add_places(alloc, &mut options, places)?;
    add_options(alloc, &mut options, shared, ArgAction::Set)?;
    add_options(alloc, &mut options, own, ArgAction::Set)?;
    add_options(alloc, &mut options, flags, ArgAction::SetTrue)?;
    Command::new(alloc, name).args(options)
}

fn subcommands<'a>(alloc: Global) -> Result<Vec<Command<'a>>, AllocError> {
    let mut subcommands = Vec::new(alloc);
    for (name, places, shared, own, flags) in &SUBCOMMANDS {
        subcommands.push(subcommand(alloc, name, places, shared, own, flags)?)?;
    }
    Ok(subcommands)
}

/// The command with its subcommands.
pub fn bfqhost<'a>(alloc: Global) -> Result<Command<'a>, AllocError> {
    let subcommands = subcommands(alloc)?;
    Command::new(alloc, "bfqhost")
        .disable_help_subcommand(true)
        .subcommand_required(true)
        .subcommands(subcommands)
}
