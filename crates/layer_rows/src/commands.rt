//! One command, stepped by hand.

use crate::held::Held;
use crate::notation::{CallFault, Line, Object};
use command_future::{Command, Step, Want};

/// A call of the command, or of a new one.
pub fn call(held: &mut Held<Command>, line: &mut Line) {
    match line.call() {
        "new" => {
            if let Some((ticket, part)) = line.read() {
                held.put(Command::new(ticket, part));
                line.done();
            }
        }
        "finish" => finish(held, line),
        _ => held.call(line),
    }
}

impl Object for Command {
    fn call(&mut self, line: &mut Line) {
        match line.call() {
            "batch" => show_batch(self, line),
            "posted" => post(self, line),
            "told" => tell(self, line),
            "part" => line.show(self.part()),
            "want" => show_want(self.want(), line),
            "end" => line.show(self.end()),
            "slot" => line.show(self.slot()),
            "ticket" => line.show(self.ticket()),
            _ => line.refuse(CallFault::NoSuchCall),
        }
    }
}

fn show_want(want: Want, line: &mut Line) {
    match want {
        Want::Post(asking, named) => {
            line.say("post");
            line.say(if asking { "asking" } else { "plain" });
            match named {
                Some(node) => line.show(node),
                None => line.say("any"),
            }
        }
        Want::Await => line.say("await"),
        Want::Finished => line.say("finished"),
    }
}

fn show_batch(command: &Command, line: &mut Line) {
    let Some(given) = line.read() else {
        return;
    };
    let node = match command.want() {
        Want::Post(_, Some(named)) => named,
        Want::Post(_, None) => given,
        _ => return line.refuse(CallFault::NotNow),
    };
    line.show(command.batch(line.alloc, node));
}

fn post(command: &mut Command, line: &mut Line) {
    let Some(given) = line.read() else {
        return;
    };
    match command.want() {
        Want::Post(_, Some(named)) if named == given => command.posted(named),
        Want::Post(_, None) => command.posted(given),
        _ => return line.refuse(CallFault::NotNow),
    }
    line.done();
}

fn tell(command: &mut Command, line: &mut Line) {
    let Some(told) = line.read() else {
        return;
    };
    match command.want() {
        Want::Await => match command.told(told) {
            Step::Again => line.say("again"),
            Step::Done => line.say("done"),
        },
        _ => {
            drop(told);
            line.refuse(CallFault::NotNow);
        }
    }
}

/// Its ticket and its end, or the command is held again.
fn finish(held: &mut Held<Command>, line: &mut Line) {
    let Some(command) = held.value.take() else {
        return line.refuse(CallFault::NotMade);
    };
    match command.finish() {
        Ok(end) => line.show(end),
        Err(command) => {
            held.put(command);
            line.say("back");
        }
    }
}
