//! The scripts that an input's lines say.

ghost use Rattle.std.specs.Prelude.{◌≤◌, IfOk, length};
ghost use Rattle.cluster_world.specs.Script.{lines_of};
ghost use Rattle.script_runs.specs.Scripts.{nothing, task_from, ReadsTask};

use crate::scripts::fault::ReadFault;
use crate::scripts::line::{Scripts, add_line};
use cluster_world::{INPUT_LIMIT, LineRead, read_line};
use std::alloc::Global;

/// What the lines say, or the number of the first that does not fit.
pub(crate) fn read_scripts(alloc: Global, input: &[u8]) -> Result<Scripts, ReadFault>
    requires { length input.now ≤ INPUT_LIMIT }
    ensures reads { ReadsTask (task_from 1 nothing (lines_of input.now)) result }
    ensures few { IfOk result (λ scripts. length scripts.clients.items ≤ length input.now) }
{
    let mut scripts = Scripts {
        clients: Vec::new(alloc),
        moves: Vec::new(alloc),
    };
    let mut number = 1;
    let mut rest = input;
    while let Some(
        LineRead {
            words,
            rest: further,
        },
    ) = read_line(alloc, rest)?
    {
        let Some(words) = words else {
            return Err(ReadFault::BadLine(number));
        };
        if !add_line(alloc, &mut scripts, words)? {
            return Err(ReadFault::BadLine(number));
        }
        number += 1;
        rest = further;
    }
    Ok(scripts)
}
