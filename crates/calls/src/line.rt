//! A line that is being answered.

use crate::fault::Fault;
use crate::show::Value;
use crate::words::Words;
use std::alloc::Global;
use std::fmt;
use std::fmt::Write;

/// A line: its text, its name, the words after that which are not read yet, and the answer so far.
#[derive(Drop)]
pub struct Line<'a> {
    pub text: &'a str,
    pub name: &'a str,
    words: Words<'a>,
    pub answer: String,
}

/// How the line was answered, or none where its name is another.
// Names are told apart by a match: a table of functions would be gone through by hand.
pub type Answered = Option<Result<(), Fault>>;

impl<'a> Line<'a> {
    /// A line that is not answered yet.
    pub fn new(heap: Global, text: &'a str) -> Result<Line<'a>, Fault> {
        let mut words = Words::new(heap, text);
        let name = words.word()?;
        Ok(Line {
            text,
            name,
            words,
            answer: String::new(heap),
        })
    }

    /// Where the answer is kept.
    pub fn heap(&self) -> Global {
        *self.answer.allocator()
    }

    /// Reads the rest of the line.
    pub fn read<A: Drop, R: FnOnce(&mut Words<'a>) -> Result<A, Fault>>(
        &mut self,
        read: R,
    ) -> Result<A, Fault>
        requires { R.IsAlwaysCallable read }
    {
        let asked = read(&mut self.words)?;
        self.words.end()?;
        Ok(asked)
    }

    /// Writes this to the answer.
    pub fn tell<D: fmt::Display>(&mut self, value: &D) -> Result<(), Fault> {
        write!(self.answer, "{value}")?;
        Ok(())
    }

    /// Reads the rest of the line, and answers what is made of it.
    pub fn answer<A, D, R, M>(&mut self, read: R, make: M) -> Result<(), Fault>
    where
        A: Drop,
        D: fmt::Display + Drop,
        R: FnOnce(&mut Words<'a>) -> Result<A, Fault>,
        M: FnOnce(A) -> D,
        requires read { R.IsAlwaysCallable read }
        requires make { M.IsAlwaysCallable make }
    {
        let asked = self.read(read)?;
        self.tell(&make(asked))
    }

    /// Reads the rest of the line, and answers `ok` and what is made of it.
    pub fn ok<A, D, R, M>(&mut self, read: R, make: M) -> Result<(), Fault>
    where
        A: Drop,
        D: fmt::Display + Drop,
        R: FnOnce(&mut Words<'a>) -> Result<A, Fault>,
        M: FnOnce(A) -> D,
        requires read { R.IsAlwaysCallable read }
        requires make { M.IsAlwaysCallable make }
    {
        self.answer(read, |asked| Value(make(asked)))
    }
}
