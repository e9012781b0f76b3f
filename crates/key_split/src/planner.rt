//! What the words of a request ask for.

ghost use Rattle.std.specs.Prelude.{◌≡◌, ◌<◌, ◌+◌, length, drop, IsTrue, IfOk, [], ◌∷◌, slice_index_or};
ghost use Rattle.std.specs.List.{list_all};
ghost use Rattle.key_split.specs.Number.{number_of};
ghost use Rattle.key_split.specs.PartModel.{takes_group};
ghost use Rattle.key_split.specs.Groups.{alone};
ghost use Rattle.key_split.specs.Join.{CanBeJoined};
ghost use Rattle.key_split.specs.Names.{allows, same_letters};
ghost use Rattle.key_split.specs.OneKey.{FindsOne, HasArgs};
ghost use Rattle.key_split.specs.Plan.{gathered, increase, mode_of, plan_as, plan_of, Plans, select, set_with, summed};
ghost use Rattle.key_split.specs.Wishes.{HasWords, Wishes, made};

use crate::groups::{alone, grouped, pairs_of};
use crate::lines::{error_line, simple_line};
use crate::name::{Name, same_letters};
use crate::number::read_number;
use crate::part::{Mode, Op, Part, Parts};
use crate::planned::{Joining, PlanFault, Planned};
use resp_wire::{Bytes, NoMemory, Value};
use std::alloc::Global;

/// What a command asks for with its arguments.
#[derive(Clone, Copy)]
enum Wish {
    /// The operation on the first argument, with the second as its value where it takes one.
    OneKey(Op),
    /// The operation on each argument, whose replies are summed.
    Sum(Op),
    MGet,
    MSet,
    Ping,
    Echo,
    Select,
    Quit,
}

/// What the words of a request ask for; the first is the command's name.
pub fn plan(alloc: Global, words: &[Bytes]) -> Result<Planned, PlanFault>
    requires { 0 < length words.now }
    ensures value { Plans (plan_of words.now) result }
    ensures joinable { IfOk result CanBeJoined }
{
    match wish_of(words) {
        Ok(wish) => make(alloc, wish, &words[1..]),
        Err(fault) => Err(fault),
    }
}

/// The operation of a command on one key, which `Part::taken` makes its part; none of any other command. A fault is the plan's.
pub fn one_key_op(words: &[Bytes]) -> Result<Option<Op>, PlanFault>
    requires { 0 < length words.now }
    ensures { FindsOne (plan_of words.now) (drop 1 words.now) result }
{
    match wish_of(words) {
        Ok(Wish::OneKey(op)) => Ok(Some(op)),
        Ok(_) => Ok(None),
        Err(fault) => Err(fault),
    }
}

/// What the words wish. It takes no memory.
fn wish_of(words: &[Bytes]) -> Result<Wish, PlanFault>
    requires { 0 < length words.now }
    ensures { Wishes (plan_of words.now) (drop 1 words.now) result }
{
    let Some(name) = Name::of(words[0].as_slice()) else {
        return Err(PlanFault::UnknownCommand);
    };
    if !name.allows(words.len()) {
        return Err(PlanFault::WrongCount(name));
    }
    wish_as(name, &words[1..])
}

/// What a command wishes with these arguments.
fn wish_as(name: Name, args: &[Bytes]) -> Result<Wish, PlanFault>
    requires { IsTrue (allows name (length args.now + 1)) }
    ensures { Wishes (plan_as name args.now) args.now result }
{
    match name {
        Name::Get => Ok(Wish::OneKey(Op::Get)),
        Name::Set => set(args),
        Name::SetNx => Ok(Wish::OneKey(Op::SetNx)),
        Name::GetSet => Ok(Wish::OneKey(Op::GetSet)),
        Name::GetDel => Ok(Wish::OneKey(Op::GetDel)),
        Name::Append => Ok(Wish::OneKey(Op::Append)),
        Name::StrLen => Ok(Wish::OneKey(Op::StrLen)),
        Name::Incr => Ok(Wish::OneKey(Op::Incr)),
        Name::Decr => Ok(Wish::OneKey(Op::Decr)),
        Name::IncrBy => increase(args),
        Name::Del => Ok(Wish::Sum(Op::Del)),
        Name::Exists => Ok(Wish::Sum(Op::Exists)),
        Name::MGet => Ok(Wish::MGet),
        Name::MSet => Ok(Wish::MSet),
        Name::Ping => Ok(Wish::Ping),
        Name::Echo => Ok(Wish::Echo),
        Name::Select => Ok(Wish::Select),
        Name::Quit => Ok(Wish::Quit),
    }
}

fn set(args: &[Bytes]) -> Result<Wish, PlanFault>
    requires { 1 < length args.now }
    ensures { Wishes (set_with (mode_of (drop 2 args.now)) args.now) args.now result }
{
    match mode_of(&args[2..]) {
        None => Err(PlanFault::Syntax),
        Some(mode) => Ok(Wish::OneKey(Op::Set(mode))),
    }
}

/// When SET writes, by its options.
fn mode_of(options: &[Bytes]) -> Option<Mode>
    ensures { result ≡ mode_of options.now }
{
    if options.is_empty() {
        Some(Mode::Always)
    } else if all_are(b"NX", options) {
        Some(Mode::IfAbsent)
    } else if all_are(b"XX", options) {
        Some(Mode::IfPresent)
    } else {
        None
    }
}

fn all_are(text: &[u8], words: &[Bytes]) -> bool
    ensures { result ≡ list_all (same_letters text.now) words.now }
{
    words.iter().all(|word| same_letters(text, word.as_slice()))
}

fn increase(args: &[Bytes]) -> Result<Wish, PlanFault>
    requires { 1 < length args.now }
    ensures { Wishes (increase (number_of (slice_index_or args.now 1 [])) args.now) args.now result }
{
    match read_number(args[1].as_slice()) {
        None => Err(PlanFault::NotANumber),
        Some(amount) => Ok(Wish::OneKey(Op::IncrBy(amount))),
    }
}

/// The plan of a wish.
fn make(alloc: Global, wish: Wish, args: &[Bytes]) -> Result<Planned, PlanFault>
    requires { HasWords wish args.now }
    ensures { Plans (made wish args.now) result }
{
    match wish {
        Wish::OneKey(op) => copied(alloc, op, args),
        Wish::Sum(op) => summed(alloc, op, args),
        Wish::MGet => gathered(alloc, args),
        Wish::MSet => put(alloc, args),
        Wish::Ping => match args {
            [] => Ok(Planned::Local(simple_line(alloc, b"PONG")?)),
            [text, ..] => Ok(Planned::Local(Value::Bulk(text.copy(alloc)?))),
        },
        Wish::Echo => Ok(Planned::Local(Value::Bulk(args[0].copy(alloc)?))),
        Wish::Select => select(alloc, &args[0]),
        Wish::Quit => Ok(Planned::Close),
    }
}

/// The one data base is number 0.
fn select(alloc: Global, number: &Bytes) -> Result<Planned, PlanFault>
    ensures { Plans (select number.now) result }
{
    let reply = if number.as_slice() == b"0".as_slice() {
        simple_line(alloc, b"OK")?
    } else {
        error_line(alloc, b"ERR SELECT is not allowed in cluster mode")?
    };
    Ok(Planned::Local(reply))
}

/// The operation on one key, of copies of the arguments.
fn copied(alloc: Global, op: Op, args: &[Bytes]) -> Result<Planned, PlanFault>
    requires { HasArgs op args.now }
    ensures { Plans (made (Wish.OneKey op) args.now) result }
{
    let key = args[0].copy(alloc)?;
    if op.takes_value() {
        let arg = args[1].copy(alloc)?;
        return Ok(one(alloc, Part::new(alloc, op, key, arg))?);
    }
    let none = Bytes::new(Vec::new(alloc));
    Ok(one(alloc, Part::new(alloc, op, key, none))?)
}

fn one(alloc: Global, part: Part) -> Result<Planned, NoMemory>
    ensures { IfOk result (λ planned. planned ≡ Planned.Parts Joining.One (part ∷ [])) }
{
    let mut parts = Vec::new(alloc);
    parts.push(part)?;
    Ok(Planned::Parts(Joining::One, Parts::new(parts)))
}

/// The operation on the keys, one part for each slot, whose replies are summed.
fn summed(alloc: Global, op: Op, keys: &[Bytes]) -> Result<Planned, PlanFault>
    requires { IsTrue (takes_group op) }
    ensures { Plans (summed op keys.now) result }
{
    let (parts, _) = grouped(alloc, op, alone(alloc, keys)?)?;
    Ok(Planned::Parts(Joining::Sum, parts))
}

/// The values of the keys, one part for each slot.
fn gathered(alloc: Global, keys: &[Bytes]) -> Result<Planned, PlanFault>
    ensures { Plans (gathered (alone keys.now)) result }
{
    let (parts, places) = grouped(alloc, Op::MGet, alone(alloc, keys)?)?;
    Ok(Planned::Parts(Joining::Array(places), parts))
}

/// Each value put at its key, one part for each slot.
fn put(alloc: Global, args: &[Bytes]) -> Result<Planned, PlanFault>
    ensures { Plans (plan_as Name.MSet args.now) result }
{
    let (parts, _) = grouped(alloc, Op::MSet, pairs_of(alloc, args)?)?;
    Ok(Planned::Parts(Joining::AllOk, parts))
}
