//! What the words of the program ask for.

use crate::local::{LOCAL, Playing, playing_of};
use crate::ports::{NODES, Ports, ports_in};
use crate::serving::{SERVE, Serving, serving_of};
use crate::subcommand::Subcommand;
use clap::error::ErrorKind;
use clap::{ArgMatches, Command, Error};
use std::alloc::{AllocError, Global};

/// One run of the program.
#[derive(Drop)]
pub enum Choice<'a> {
    /// Answers the first request of standard input from an empty store.
    One,
    /// Runs the events of standard input in a new world.
    Simulate,
    /// Runs the scripts of standard input on a cluster in this process.
    Local(Playing),
    /// Serves the example cluster.
    Nodes(Ports),
    /// Serves clients before a cluster.
    Serve(Serving<'a>),
}

/// The program's version, and the line of the kit that it is proved with.
pub const VERSION: &str = "0.1.0 (rattle-kit-13f logic dac8208d650f15bf)";

/// What `local` takes.
const WORKERS_WANTED: &str = "--workers takes a number from 1 to 64";
/// What `nodes` takes.
const PORTS_WANTED: &str = "--ports takes three ports from 1 to 65535, with a comma between them";
/// What `serve` takes.
const SERVING_WANTED: &str =
    "--listen, --seed (up to 16 times) and --admin take HOST:PORT with a port from 1 to 65535, and --workers 1 to 64";

/// What follows the program's name. (clap refuses words without a subcommand by itself.)
const SUBCOMMAND_WANTED: &str = "a subcommand is asked for";

/// Runs one request.
const ONE: Subcommand = Subcommand {
    name: "one",
    about: "Answer one request from standard input as an empty Redis server would",
    after_help: None,
    settings: &[],
};

/// Runs a script of events.
const SIMULATE: Subcommand = Subcommand {
    name: "simulate",
    about: "Run a script of protocol events from standard input, and print what was answered and executed",
    after_help: None,
    settings: &[],
};

/// The subcommands, in the order of the program's help.
static SUBCOMMANDS: [Subcommand; 5] = [ONE, SIMULATE, LOCAL, NODES, SERVE];

/// The program's words.
fn command<'a>(alloc: Global) -> Result<Command<'a>, AllocError> {
    let mut command = program(alloc);
    for subcommand in &SUBCOMMANDS {
        command = command.subcommand(subcommand.command(alloc)?)?;
    }
    Ok(command)
}

/// The program without its subcommands.
fn program<'a>(alloc: Global) -> Command<'a> {
    Command::new(alloc, "cluster_proxy")
        .about("Lets a plain Redis client use a Redis Cluster as if it were one server")
        .version(VERSION)
        .subcommand_required(true)
        .arg_required_else_help(true)
}

/// The run that the words ask for. An error holds the text for the caller, and the status: 2 for refused words, 0 for
/// help that was asked for.
pub fn choose<'a>(alloc: Global, words: &'a [String]) -> Result<Choice<'a>, Error> {
    let matches = command(alloc)?.try_get_matches_from(words)?;
    or_refuse(alloc, chosen(alloc, &matches)?)
}

/// The run that the words of a subcommand ask for, or what is taken in their place.
fn chosen<'a>(
    alloc: Global,
    matches: &ArgMatches<'a>,
) -> Result<Result<Choice<'a>, &'static str>, AllocError> {
    match matches.subcommand() {
        Some(("one", _)) => Ok(Ok(Choice::One)),
        Some(("simulate", _)) => Ok(Ok(Choice::Simulate)),
        Some(("local", words)) => Ok(local_in(words)),
        Some(("nodes", words)) => Ok(nodes_in(words)),
        Some(("serve", words)) => serve_in(alloc, words),
        _ => Ok(Err(SUBCOMMAND_WANTED)),
    }
}

fn local_in<'a>(words: &ArgMatches<'_>) -> Result<Choice<'a>, &'static str> {
    match playing_of(words) {
        Some(playing) => Ok(Choice::Local(playing)),
        None => Err(WORKERS_WANTED),
    }
}

fn nodes_in<'a>(words: &ArgMatches<'_>) -> Result<Choice<'a>, &'static str> {
    match ports_in(words) {
        Some(ports) => Ok(Choice::Nodes(ports)),
        None => Err(PORTS_WANTED),
    }
}

fn serve_in<'a>(
    alloc: Global,
    words: &ArgMatches<'a>,
) -> Result<Result<Choice<'a>, &'static str>, AllocError> {
    match serving_of(alloc, words)? {
        Some(serving) => Ok(Ok(Choice::Serve(serving))),
        None => Ok(Err(SERVING_WANTED)),
    }
}

/// The choice, or the error that says what is taken.
fn or_refuse<'a>(
    alloc: Global,
    choice: Result<Choice<'a>, &'static str>,
) -> Result<Choice<'a>, Error> {
    match choice {
        Ok(choice) => Ok(choice),
        Err(wanted) => Err(refusal(alloc, wanted)?),
    }
}

fn refusal(alloc: Global, wanted: &str) -> Result<Error, AllocError> {
    let mut command = command(alloc)?;
    let error = command.error(ErrorKind::ValueValidation, wanted);
    drop(command);
    error
}
