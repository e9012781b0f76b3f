//! A proxy between plain Redis clients and a Redis Cluster.
//!
//! The program reads its words (`program_words`) and runs the subcommand that they name: `one` by
//! `cluster_world::run_one`, `simulate` by `cluster_world::run_simulate`, `local` by `script_runs::run_scripts`, `nodes` by
//! `node_server::run_nodes`, and `serve` by `socket_proxy::run_wire`. The contract of each says what it promises.
#![tactic(auto)]

ghost use Rattle.std.specs.Prelude.{◌≡◌, OnErr, OnOk};

mod descriptors;
mod environment;
mod log_lines;
mod nodes;
mod serve;

use cluster_world::{WatchedReader, WatchedWriter, run_one, run_simulate};
use environment::passwords_of;
use event_log::ErrorStream;
use nodes::serve_nodes;
use program_words::{Choice, Serving, choose};
use script_runs::run_scripts;
use serve::serve_clients;
use std::env::Env;
use std::fmt::Display;
use std::fs::File;
use std::net::{Net, TcpListener, TcpStream};
use std::os::fd::AsFd;
use std::process::ExitCode;
use std::random::RandomSource;
use std::rt::Files;
use std::sync::Wait;
use std::thread::Threads;
use std::time::Clock;

/// Runs what was chosen, and gives the status.
fn run<R>(rt: &R, choice: Choice<'_>, log: &ErrorStream) -> u8
where
    R: Input
        + Print
        + Eprint
        + AllocGlobal
        + Threads
        + Wait
        + RandomSource
        + Clock
        + Env
        + Files<File = File>
        + Net<Listener = TcpListener, Stream = TcpStream>
        + Copy
        + Send
        + Sync
        + 'static,
{
    match choice {
        Choice::One => run_one(
            rt.alloc(),
            &mut WatchedReader::new(rt.reader()),
            &mut WatchedWriter::new(std::io::writer(rt)),
        ),
        Choice::Simulate => run_simulate(
            rt.alloc(),
            &mut WatchedReader::new(rt.reader()),
            &mut WatchedWriter::new(std::io::writer(rt)),
        ),
        Choice::Local(playing) => run_scripts(
            rt,
            &mut WatchedReader::new(rt.reader()),
            &mut WatchedWriter::new(std::io::writer(rt)),
            playing.workers,
        ),
        Choice::Nodes(ports) => status_of(rt, serve_nodes(rt, rt.alloc(), ports)),
        Choice::Serve(serving) => run_serve(rt, serving, log),
    }
}

/// Serves clients, and gives the status: 2 where the environment is refused.
fn run_serve<R>(rt: &R, serving: Serving<'_>, log: &ErrorStream) -> u8
where
    R: Eprint
        + AllocGlobal
        + Threads
        + Wait
        + RandomSource
        + Clock
        + Env
        + Files<File = File>
        + Net<Listener = TcpListener, Stream = TcpStream>
        + Copy
        + Send
        + Sync
        + 'static,
{
    match passwords_of(rt) {
        Ok(passwords) => status_of(rt, serve_clients(rt, serving, passwords, log)),
        Err(fault) => {
            let _ = eprintln!(rt; "cluster_proxy: {fault}");
            2
        }
    }
}

/// The status of a run that ended so: 1 with the fault in a line on standard error.
fn status_of<R: Eprint, F: Display + Drop>(rt: &R, ended: Result<(), F>) -> u8
    ensures ok { OnOk ended (result ≡ 0) }
    ensures err { OnErr ended (result ≡ 1) }
{
    match ended {
        Ok(()) => 0,
        Err(fault) => {
            let _ = eprintln!(rt; "cluster_proxy: {fault}");
            1
        }
    }
}

fn main(rt: HostRuntime) -> anyhow::Result<ExitCode> {
    // before any file is opened, which would take the number of a standard error that is closed
    let log = ErrorStream::new(rt.stderr().as_fd().try_clone_to_owned().ok());
    let words: Vec<String> = std::env::args(&rt)?.collect(rt.alloc())?;
    match choose(rt.alloc(), words.as_slice()) {
        Ok(choice) => Ok(ExitCode::from(run(&rt, choice, &log))),
        Err(error) => {
            error.print(&rt)?;
            Ok(ExitCode::from(u8::try_from(error.exit_code()).unwrap_or(2)))
        }
    }
}
