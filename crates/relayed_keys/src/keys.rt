//! The keys of a request that is passed on whole, to the node of their slot.

ghost use Rattle.std.specs.Prelude.{◌≡◌, ◌+◌, ◌-◌, ◌^◌, ◌<◌, ◌≤◌, length, take, drop, IfOk, IfSome, IsTrue};
ghost use Rattle.std.specs.List.{list_all, position, slice_get};
ghost use Rattle.relayed_keys.specs.Keys.{also_in, below_zero, but_last, count_within, counted, every, front_from, halved, has_bar, has_bar_at, has_word, in_slot, is_named, is_named_by, is_store, is_streams, key_count, natural, none_at_all, not_a_number, place_behind, places_as, relayed_as, relayed_by, relayed_of, row_of, run, shape_of, shared, sorted, stored, streams, streams_at, takes, too_many, wait_behind, word_is};

use crate::table::{CountStyle, KeySpec, NAMES, SHAPES, Shape, WordCount};
use key_split::{read_number, same_letters};
use resp_wire::Bytes;
use slot_hash::{Slot, slot_of};
use thiserror::Error;

/// Which words of a request are keys.
#[derive(Clone, Copy, Debug)]
pub struct KeyPlaces {
    /// The place of the first key.
    pub first: usize,
    /// The place before which the last one stands.
    pub end: usize,
    /// How far the next key is from one.
    pub step: usize,
    /// The place of one more key.
    pub also: Option<usize>,
}

/// The keys of a request, which have one slot.
#[derive(Clone, Copy)]
pub struct RelayKeys {
    pub places: KeyPlaces,
    pub slot: Slot,
}

/// Why a request of the table is not passed on.
#[derive(Clone, Copy, Debug, Error)]
pub enum RelayFault {
    /// The command of this row does not take this number of words.
    #[error("wrong number of arguments")]
    WrongCount(usize),
    /// XREAD or XREADGROUP is to wait.
    #[error("BLOCK is not passed on")]
    Blocks,
    #[error("BY option of SORT denied")]
    SortBy,
    #[error("GET option of SORT denied")]
    SortGet,
    /// The number of keys is not an integer.
    #[error("value is not an integer or out of range")]
    NotANumber,
    /// That of a function is not an integer.
    #[error("bad number of keys provided")]
    BadCount,
    #[error("number of keys can't be negative")]
    NegativeCount,
    #[error("numkeys should be greater than 0")]
    NotAboveZero,
    /// The command of this row wants a key.
    #[error("at least 1 input key is needed")]
    NoInputKey(usize),
    #[error("number of keys can't be greater than number of args")]
    TooManyKeys,
    #[error("syntax error")]
    Syntax,
    /// STREAMS has a key without an ID.
    #[error("unbalanced list of streams")]
    Unbalanced,
    /// No key says which node a script runs on.
    #[error("no key")]
    NoKey,
    #[error("keys of different slots")]
    CrossSlot,
}

/// Which words of a request are keys, and the slot of all of them; none where the table does not have the command.
#[tactic(auto, unfolding(crate::specs::Keys::relayed_of))]
pub fn relayed(words: &[Bytes]) -> Result<Option<RelayKeys>, RelayFault>
    ensures { result ≡ relayed_of words.now }
{
    match row_of(words) {
        None => Ok(None),
        Some(row) => relayed_by(words, row),
    }
}

fn relayed_by(words: &[Bytes], row: usize) -> Result<Option<RelayKeys>, RelayFault>
    ensures { result ≡ relayed_by words.now row (shape_of row) }
{
    match shape_of(row) {
        None => Ok(None),
        Some(shape) => relayed_as(words, row, shape),
    }
}

fn relayed_as(words: &[Bytes], row: usize, shape: Shape) -> Result<Option<RelayKeys>, RelayFault>
    ensures { result ≡ relayed_as words.now row shape }
{
    if !takes(shape.words, words.len()) {
        return Err(RelayFault::WrongCount(row));
    }
    match places_as(shape.keys, row, words) {
        Err(fault) => Err(fault),
        Ok(places) => shared(words, places),
    }
}

/// The number of the row of a request's command.
#[tactic(auto, unfolding(crate::specs::Keys::row_of))]
fn row_of(words: &[Bytes]) -> Option<usize>
    ensures { result ≡ row_of words.now }
{
    first_named(words)
}

fn first_named(words: &[Bytes]) -> Option<usize>
    ensures { result ≡ position (λ name. is_named words.now name.now) NAMES }
{
    first_among(&NAMES, words)
}

/// The place of the first of the names that the request has.
fn first_among(names: &[&str], words: &[Bytes]) -> Option<usize>
    ensures { result ≡ position (λ name. is_named words.now name.now) names.now }
{
    names
        .iter()
        .position(|name| is_named(words, name.as_bytes()))
}

#[tactic(auto, unfolding(crate::specs::Keys::shape_of))]
fn shape_of(row: usize) -> Option<Shape>
    ensures { result ≡ shape_of row }
{
    shape_in_table(row)
}

fn shape_in_table(row: usize) -> Option<Shape>
    ensures { result ≡ slice_get SHAPES row }
{
    shape_among(&SHAPES, row)
}

fn shape_among(shapes: &[Shape], row: usize) -> Option<Shape>
    ensures { result ≡ slice_get shapes.now row }
{
    shapes.get(row).copied()
}

/// Whether the request is of the command of this name.
#[tactic(auto, unfolding(crate::specs::Keys::is_named))]
fn is_named(words: &[Bytes], name: &[u8]) -> bool
    ensures { result ≡ is_named words.now name.now }
{
    !words.is_empty() && is_named_by(words[0].as_slice(), words, name)
}

/// The same, by the first word. Where a bar stands behind it, the second word is the subcommand.
fn is_named_by(first: &[u8], words: &[Bytes], name: &[u8]) -> bool
    ensures { result ≡ is_named_by first.now words.now name.now }
{
    if has_bar_at(first.len(), name) {
        same_letters(first, &name[..first.len()]) && word_is(words, 1, &name[first.len() + 1..])
    } else {
        same_letters(first, name) && !has_bar(first)
    }
}

fn has_bar_at(place: usize, text: &[u8]) -> bool
    ensures value { result ≡ has_bar_at place text.now }
    ensures within { IsTrue result → place < length text.now }
{
    place < text.len() && text[place] == b'|'
}

fn has_bar(text: &[u8]) -> bool
    ensures { result ≡ has_bar text.now }
{
    text.iter().any(|byte| *byte == b'|')
}

/// Whether the word at the place is the text, without regard to case.
fn word_is(words: &[Bytes], place: usize, text: &[u8]) -> bool
    ensures { result ≡ word_is words.now place text.now }
{
    place < words.len() && same_letters(words[place].as_slice(), text)
}

/// Whether a request may have this number of words.
fn takes(count: WordCount, words: usize) -> bool
    ensures { result ≡ takes count words }
{
    match count {
        WordCount::Exactly(wanted) => words == wanted,
        WordCount::AtLeast(wanted) => words >= wanted,
    }
}

fn places_as(spec: KeySpec, row: usize, words: &[Bytes]) -> Result<KeyPlaces, RelayFault>
    ensures { result ≡ places_as spec row words.now }
{
    match spec {
        KeySpec::At(first, last) => Ok(run(first as usize, last as usize + 1, 1)),
        KeySpec::ToEnd(first, step) => Ok(run(first, words.len(), step)),
        KeySpec::Counted(place, style) => counted(words, place, style, row, None),
        KeySpec::CountedInto(place, style) => counted(words, place, style, row, Some(1)),
        KeySpec::Stored(from) => Ok(stored(words, from)),
        KeySpec::Sorted => sorted(words),
        KeySpec::Streams(from) => streams(words, from),
    }
}

fn run(first: usize, end: usize, step: usize) -> KeyPlaces
    ensures { result ≡ run first end step }
{
    KeyPlaces {
        first,
        end,
        step,
        also: None,
    }
}

/// The keys behind their number, which stands at the place.
fn counted(
    words: &[Bytes],
    place: usize,
    style: CountStyle,
    row: usize,
    also: Option<usize>,
) -> Result<KeyPlaces, RelayFault>
    ensures { result ≡ counted words.now place style row also }
{
    if place >= words.len() {
        return Err(RelayFault::Syntax);
    }
    let first = place + 1;
    let number = read_number(words[place].as_slice());
    match key_count(style, row, number, words.len() - first) {
        Err(fault) => Err(fault),
        Ok(count) => Ok(KeyPlaces {
            first,
            end: first + count,
            step: 1,
            also,
        }),
    }
}

/// How many keys there are, where so many words stand behind their number.
fn key_count(
    style: CountStyle,
    row: usize,
    number: Option<i64>,
    behind: usize,
) -> Result<usize, RelayFault>
    ensures value { result ≡ key_count style row number behind }
    ensures within { IfOk result (λ count. count ≤ behind) }
{
    match number {
        None => Err(not_a_number(style)),
        Some(number) => count_within(style, row, natural(number), behind),
    }
}

fn count_within(
    style: CountStyle,
    row: usize,
    count: Option<usize>,
    behind: usize,
) -> Result<usize, RelayFault>
    ensures value { result ≡ count_within style row count behind }
    ensures within { IfOk result (λ count. count ≤ behind) }
{
    match count {
        None => Err(below_zero(style, row)),
        Some(count) => {
            if count == 0 {
                Err(none_at_all(style, row))
            } else if count <= behind {
                Ok(count)
            } else {
                Err(too_many(style))
            }
        }
    }
}

/// The number, where it is not below zero.
fn natural(number: i64) -> Option<usize>
    ensures { result ≡ natural number }
{
    usize::try_from(number).ok()
}

fn not_a_number(style: CountStyle) -> RelayFault
    ensures { result ≡ not_a_number style }
{
    match style {
        CountStyle::Script => RelayFault::NotANumber,
        CountStyle::Function => RelayFault::BadCount,
        CountStyle::SortedSets => RelayFault::NotANumber,
        CountStyle::SetCard => RelayFault::NotAboveZero,
        CountStyle::Pop => RelayFault::NotAboveZero,
    }
}

fn below_zero(style: CountStyle, row: usize) -> RelayFault
    ensures { result ≡ below_zero style row }
{
    match style {
        CountStyle::Script => RelayFault::NegativeCount,
        CountStyle::Function => RelayFault::NegativeCount,
        CountStyle::SortedSets => RelayFault::NoInputKey(row),
        CountStyle::SetCard => RelayFault::NotAboveZero,
        CountStyle::Pop => RelayFault::NotAboveZero,
    }
}

fn none_at_all(style: CountStyle, row: usize) -> RelayFault
    ensures { result ≡ none_at_all style row }
{
    match style {
        CountStyle::Script => RelayFault::NoKey,
        CountStyle::Function => RelayFault::NoKey,
        CountStyle::SortedSets => RelayFault::NoInputKey(row),
        CountStyle::SetCard => RelayFault::NotAboveZero,
        CountStyle::Pop => RelayFault::NotAboveZero,
    }
}

fn too_many(style: CountStyle) -> RelayFault
    ensures { result ≡ too_many style }
{
    match style {
        CountStyle::Script => RelayFault::TooManyKeys,
        CountStyle::Function => RelayFault::TooManyKeys,
        CountStyle::SortedSets => RelayFault::Syntax,
        CountStyle::SetCard => RelayFault::TooManyKeys,
        CountStyle::Pop => RelayFault::Syntax,
    }
}

/// Word 1, and where the result is to be stored.
fn stored(words: &[Bytes], from: usize) -> KeyPlaces
    ensures { result ≡ stored words.now from }
{
    KeyPlaces {
        first: 1,
        end: 2,
        step: 1,
        also: destination(words, from),
    }
}

/// The place behind the first STORE or STOREDIST from the place on.
fn destination(words: &[Bytes], from: usize) -> Option<usize>
    ensures { result ≡ place_behind is_store from words.now }
{
    match place_of_store(front_from(words, from)) {
        None => None,
        Some(place) => Some(from + place + 1),
    }
}

fn place_of_store(words: &[Bytes]) -> Option<usize>
    ensures value { result ≡ position is_store words.now }
    ensures within { IfSome result (λ place. place < length words.now) }
{
    first_store(words)
}

fn first_store(words: &[Bytes]) -> Option<usize>
    ensures { result ≡ position is_store words.now }
{
    words.iter().position(|word| is_store(word))
}

fn is_store(word: &Bytes) -> bool
    ensures { result ≡ is_store word.now }
{
    same_letters(b"STORE", word.as_slice()) || same_letters(b"STOREDIST", word.as_slice())
}

fn sorted(words: &[Bytes]) -> Result<KeyPlaces, RelayFault>
    ensures { result ≡ sorted words.now }
{
    let options = words_from(words, 2);
    if has_word(b"BY", options) {
        return Err(RelayFault::SortBy);
    }
    if has_word(b"GET", options) {
        return Err(RelayFault::SortGet);
    }
    Ok(stored(words, 2))
}

/// Whether one of the words is the text, without regard to case.
fn has_word(text: &[u8], words: &[Bytes]) -> bool
    ensures { result ≡ has_word text.now words.now }
{
    words.iter().any(|word| same_letters(text, word.as_slice()))
}

/// The first half of what stands behind STREAMS.
fn streams(words: &[Bytes], from: usize) -> Result<KeyPlaces, RelayFault>
    ensures { result ≡ streams from words.now }
{
    match behind_streams(words, from) {
        None => Err(RelayFault::Syntax),
        Some(first) => streams_at(words, from, first),
    }
}

/// The place behind STREAMS, which stands at the place or later.
fn behind_streams(words: &[Bytes], from: usize) -> Option<usize>
    ensures { result ≡ place_behind is_streams from words.now }
{
    match place_of_streams(front_from(words, from)) {
        None => None,
        Some(place) => Some(from + place + 1),
    }
}

fn place_of_streams(words: &[Bytes]) -> Option<usize>
    ensures value { result ≡ position is_streams words.now }
    ensures within { IfSome result (λ place. place < length words.now) }
{
    first_streams(words)
}

fn first_streams(words: &[Bytes]) -> Option<usize>
    ensures { result ≡ position is_streams words.now }
{
    words.iter().position(|word| is_streams(word))
}

fn is_streams(word: &Bytes) -> bool
    ensures { result ≡ is_streams word.now }
{
    same_letters(b"STREAMS", word.as_slice())
}

/// The first half of the words from the place on, where no BLOCK stands between `from` and STREAMS.
fn streams_at(words: &[Bytes], from: usize, first: usize) -> Result<KeyPlaces, RelayFault>
    ensures { result ≡ streams_at words.now from first }
{
    let rest = words_from(words, from);
    let options = first_words(rest, first.saturating_sub(1).saturating_sub(from));
    if has_word(b"BLOCK", options) {
        return Err(RelayFault::Blocks);
    }
    halved(first, words.len().saturating_sub(first))
}

/// The first half of so many words, from the place on.
fn halved(first: usize, count: usize) -> Result<KeyPlaces, RelayFault>
    requires { first + count < 2 ^ 64 }
    ensures { result ≡ halved first count }
{
    if count % 2 == 0 {
        Ok(run(first, first + count / 2, 1))
    } else {
        Err(RelayFault::Unbalanced)
    }
}

/// The words from the place on.
#[tactic(auto, using(std::proofs::lemmas::List::drop_all))]
fn words_from(words: &[Bytes], place: usize) -> &[Bytes]
    ensures value { result.now ≡ drop place words.now }
    ensures count { length result.now ≡ length words.now - place }
{
    if place < words.len() {
        &words[place..]
    } else {
        &words[words.len()..]
    }
}

/// The words from the place on, but the last one.
fn front_from(words: &[Bytes], place: usize) -> &[Bytes]
    ensures value { result.now ≡ front_from place words.now }
    ensures count { length result.now ≡ length words.now - place - 1 }
{
    but_last(words_from(words, place))
}

#[tactic(auto, using(std::proofs::lemmas::List::take_all))]
fn but_last(words: &[Bytes]) -> &[Bytes]
    ensures value { result.now ≡ but_last words.now }
    ensures count { length result.now ≡ length words.now - 1 }
{
    if words.is_empty() {
        words
    } else {
        &words[..words.len() - 1]
    }
}

/// So many of the words.
#[tactic(auto, using(std::proofs::lemmas::List::take_all))]
fn first_words(words: &[Bytes], count: usize) -> &[Bytes]
    ensures { result.now ≡ take count words.now }
{
    if count < words.len() {
        &words[..count]
    } else {
        words
    }
}

/// The keys at the places, where they have one slot.
fn shared(words: &[Bytes], places: KeyPlaces) -> Result<Option<RelayKeys>, RelayFault>
    ensures { result ≡ shared words.now places }
{
    let rest = words_from(words, places.first);
    let keys = first_words(rest, places.end.saturating_sub(places.first));
    if keys.is_empty() {
        return Err(RelayFault::NoKey);
    }
    let slot = slot_of(keys[0].as_slice());
    if all_in(slot.number(), places.step, keys) && also_in(slot.number(), places.also, words) {
        Ok(Some(RelayKeys { places, slot }))
    } else {
        Err(RelayFault::CrossSlot)
    }
}

/// Whether each key has the slot: the first word, and each that is a step behind a key.
fn all_in(slot: u16, step: usize, words: &[Bytes]) -> bool
    ensures { result ≡ list_all (in_slot slot) (every 0 step words.now) }
{
    let mut wait = 0;
    let mut rest = words;
    while let [word, later @ ..] = rest {
        if wait == 0 && !in_slot(slot, word) {
            return false;
        }
        wait = wait_behind(wait, step);
        rest = later;
    }
    true
}

/// How many words stand between the next one and the next key.
fn wait_behind(wait: usize, step: usize) -> usize
    ensures { result ≡ wait_behind wait step }
{
    if wait == 0 {
        step.saturating_sub(1)
    } else {
        wait - 1
    }
}

fn also_in(slot: u16, also: Option<usize>, words: &[Bytes]) -> bool
    ensures { result ≡ also_in slot also words.now }
{
    match also {
        None => true,
        Some(place) => place < words.len() && in_slot(slot, &words[place]),
    }
}

fn in_slot(slot: u16, key: &Bytes) -> bool
    ensures { result ≡ in_slot slot key.now }
{
    slot_of(key.as_slice()).number() == slot
}
