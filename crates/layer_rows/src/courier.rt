//! A courier that posts and tells what a row says.

ghost use Rattle.std.specs.Prelude.{⊤};

use crate::held::{is_done, put, put_read};
use crate::notation::{CallFault, Line, Object};
use command_future::{self, Command, OneCommand, Posting, Want};
use futures::Future;
use futures::executor::block_on;
use futures::test::MockTask;
use key_split::{Batch, Ticket, Told};
use slot_map::NodeId;
use std::alloc::{AllocGlobal, Global};
use std::collections::VecDeque;
use std::random::RandomSource;
use std::sync::Wait;

/// What the courier does, and a command that it carries to its end.
pub fn call<R: Wait + RandomSource + AllocGlobal>(rt: &R, courier: &mut Courier, line: &mut Line) {
    match line.call() {
        "carry" => carry(rt, courier, line),
        "poll" => poll_once(rt, courier, line),
        _ => courier.call(line),
    }
}

/// Posts after some calls that post nothing, and tells what it was given, in order, and then Lost.
#[derive(Drop)]
pub struct Courier {
    alloc: Global,
    later: u64,
    node: NodeId,
    tells: VecDeque<Told>,
    posted: Vec<Batch>,
}

impl Courier {
    pub fn new(alloc: Global) -> Courier {
        Courier {
            alloc,
            later: 0,
            node: NodeId::new(0).unwrap(),
            tells: VecDeque::new(alloc),
            posted: Vec::new(alloc),
        }
    }
}

impl Object for Courier {
    fn call(&mut self, line: &mut Line) {
        match line.call() {
            "posts" => line.show(self.posted.len()),
            "posted" => show_batches(&self.posted, line),
            "new" => put(self, Courier::new(line.alloc), line),
            "later" => put_read(&mut self.later, line),
            "node" => put_read(&mut self.node, line),
            "tells" => {
                if let Some(told) = line.read() {
                    line.show_made(self.tells.push_back(told));
                }
            }
            _ => line.refuse(CallFault::NoSuchCall),
        }
    }
}

fn show_batches(batches: &[Batch], line: &mut Line) {
    for batch in batches {
        line.say(";");
        line.show(batch);
    }
}

impl command_future::Courier for Courier {
    ghost posts = { λ _ _ _. ⊤ };

    ghost tells = { λ _ _ _ _. ⊤ };

    ghost rests = { λ _ _. ⊤ };

    fn post(&mut self, command: &Command) -> Posting {
        if self.later > 0 {
            self.later -= 1;
            return Posting::Later;
        }
        let node = match command.want() {
            Want::Post(_, Some(named)) => named,
            _ => self.node,
        };
        let Ok(batch) = command.batch(self.alloc, node) else {
            return Posting::Later;
        };
        if is_done(self.posted.push(batch)) {
            Posting::Sent(node)
        } else {
            Posting::Later
        }
    }

    fn told(&mut self, _ticket: Ticket) -> Option<Told> {
        Some(self.tells.pop_front().unwrap_or(Told::Lost))
    }
}

/// Carries a command to its end.
fn carry<R: Wait + RandomSource + AllocGlobal>(rt: &R, courier: &mut Courier, line: &mut Line) {
    let Some((ticket, part)) = line.read() else {
        return;
    };
    let end = block_on(rt, OneCommand::new(Command::new(ticket, part), courier));
    line.show_found(end.ok(), CallFault::NoMemory);
}

/// Polls a command once.
fn poll_once<R: Wait + RandomSource + AllocGlobal>(rt: &R, courier: &mut Courier, line: &mut Line) {
    if let Some((ticket, part)) = line.read() {
        let future = OneCommand::new(Command::new(ticket, part), courier);
        show_poll(rt, future, line);
    }
}

/// Polls a future: whether it is pending, and whether its task was woken.
fn show_poll<R, F>(rt: &R, mut future: F, line: &mut Line)
where
    R: RandomSource + AllocGlobal,
    F: Future + Drop,
    F::Output: Drop,
    requires { F.can_poll future }
{
    match MockTask::new(rt) {
        Ok(task) => {
            let pending = task.poll(&mut future).is_pending();
            line.say(if pending { "pending" } else { "ready" });
            line.say(if task.is_woken() { "woken" } else { "still" });
        }
        Err(_) => line.refuse(CallFault::NoMemory),
    }
}
