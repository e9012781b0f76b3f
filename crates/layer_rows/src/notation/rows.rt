//! Rows: the lines up to `reset`, over new objects.

use crate::notation::answer::Answer;
use crate::notation::fault::CallFault;
use crate::notation::line::Line;
use std::alloc::Global;
use std::io::{self, BufRead, Write};

/// What answers calls: an object, or all those of a row.
pub trait Object {
    /// Makes the call that the line asks for, or says in the line why it is not made.
    fn call(&mut self, line: &mut Line);
}

/// The lines that are read, and where their answers go.
#[derive(Drop)]
pub struct Rows<B, W> {
    reader: B,
    writer: W,
    text: String,
    line: Line,
}

/// What a line was.
enum Read {
    Call,
    Reset,
    End,
}

impl<B: BufRead, W: Write> Rows<B, W> {
    /// The rows that a reader gives. Their answers go to the writer.
    pub fn new(alloc: Global, reader: B, writer: W) -> Rows<B, W> {
        Rows {
            reader,
            writer,
            text: String::new(alloc),
            line: Line::new(alloc),
        }
    }

    /// Answers the lines of one row, by calls of these objects. It is false where that was the last one.
    pub fn answer_row<O: Object + Drop>(&mut self, mut objects: O) -> io::Result<bool> {
        for _ in 0..u64::MAX {
            match self.next_line()? {
                Read::Call => self.answer_line(&mut objects)?,
                Read::Reset => {
                    self.writer.write_all(b"ok\n")?;
                    return Ok(true);
                }
                Read::End => return Ok(false),
            }
        }
        Ok(false)
    }

    fn next_line(&mut self) -> io::Result<Read> {
        self.text.clear();
        if self.reader.read_line(&mut self.text)? == 0 {
            return Ok(Read::End);
        }
        if self.text.as_str().trim_end() == "reset" {
            return Ok(Read::Reset);
        }
        Ok(Read::Call)
    }

    fn answer_line<O: Object>(&mut self, objects: &mut O) -> io::Result<()> {
        answer_call(objects, self.text.as_str().trim_end(), &mut self.line);
        write_answer(&mut self.writer, &self.line.answer)
    }

    /// Writes out all answers.
    pub fn finish(&mut self) -> io::Result<()> {
        self.writer.flush()
    }
}

/// Writes the answer's line, or that the call was made and its answer found no memory.
fn write_answer<W: Write>(writer: &mut W, answer: &Answer) -> io::Result<()> {
    let text = answer.text().unwrap_or("? NotShown");
    writer.write_all(text.as_bytes())?;
    writer.write_all(b"\n")
}

/// Answers a line by what its call answers, or by `?` and why there is no such call.
fn answer_call<O: Object>(objects: &mut O, text: &str, line: &mut Line) {
    if let Some(fault) = fault_of(objects, text, line) {
        line.answer.clear();
        line.answer.name("?");
        line.answer.debug(&fault);
    }
}

/// Makes the call of a line. Why it is not made, if it is not.
fn fault_of<O: Object>(objects: &mut O, text: &str, line: &mut Line) -> Option<CallFault> {
    if let Err(fault) = line.begin(text.as_bytes()) {
        return Some(fault);
    }
    objects.call(line);
    line.outcome()
}
