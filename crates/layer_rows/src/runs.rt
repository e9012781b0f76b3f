//! A run: commands of one client that go over a connection together.

use crate::held::{Held, is_done};
use crate::notation::{CallFault, Line};
use key_split::{Batch, Run};

/// `begin BATCH`, or `behind BATCH` for one behind those of the run, where it goes with them.
pub fn call(held: &mut Held<Run>, line: &mut Line) {
    let Some(batch) = line.read::<Batch>() else {
        return;
    };
    match line.call() {
        "begin" => {
            held.put(Run::one(line.alloc, batch));
            line.done();
        }
        "behind" => put_behind(held, batch, line),
        _ => line.refuse(CallFault::NoSuchCall),
    }
}

fn put_behind(held: &mut Held<Run>, batch: Batch, line: &mut Line) {
    let Some(run) = &mut held.value else {
        return line.refuse(CallFault::NotMade);
    };
    if !run.takes(&batch) {
        return line.say("apart");
    }
    if is_done(run.push(batch)) {
        line.done();
    } else {
        line.refuse(CallFault::NoMemory);
    }
}
