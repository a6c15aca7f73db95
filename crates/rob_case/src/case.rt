//! A case: what is given to the calls, and what they answered.

ghost use Rattle.std.specs.Prelude.{◌≡◌, []};
ghost use Rattle.rob_case.specs.Answers.{Answers};
ghost use Rattle.rob_case.specs.Cases.{answered, empty_case, ended, given};

use crate::bytes::{append_line, append_lines, append_times};
use crate::numbers::wholes;
use crate::text::{join, unescape};
use crate::trouble::Trouble;
use crate::word::Word;
use std::alloc::Global;
use std::marker::Model;

/// A case as it is read and run. Contracts see what stands in it.
#[derive(Drop)]
pub struct Case {
    name: String,
    /// The answers so far.
    answer: String,
    /// The text that the next calls are given.
    bytes: Vec<u8>,
    /// The text of the model that they speak of. It stays for the cases behind.
    model: Vec<u8>,
    /// The columns of the plan that they speak of. They stay for the cases behind.
    plan: Vec<i64>,
}

impl Model for Case {
    ghost use Rattle.std.specs.Prelude.{string_bytes};
    ghost use Rattle.rob_case.specs.Cases.{CaseState};

    ghost Value = { CaseState };

    ghost view = { λ case. record {
      name = string_bytes case.name;
      answer = string_bytes case.answer;
      bytes = case.bytes.items;
      model = case.model.items;
      plan = case.plan.items;
    } };
}

impl Case {
    /// A case with nothing in it.
    pub fn new(alloc: Global) -> Case
        ensures empty { result ≡ empty_case }
    {
        Case {
            name: String::new(alloc),
            answer: String::new(alloc),
            bytes: Vec::new(alloc),
            model: Vec::new(alloc),
            plan: Vec::new(alloc),
        }
    }

    /// The name.
    pub fn name(&self) -> &str
        ensures name { result.now ≡ self.now.name }
    {
        self.name.as_str()
    }

    /// The answers so far, with `; ` between them.
    pub fn answer(&self) -> &str
        ensures answer { result.now ≡ self.now.answer }
    {
        self.answer.as_str()
    }

    /// The bytes that the next calls are given.
    pub fn bytes(&self) -> &[u8]
        ensures bytes { result.now ≡ self.now.bytes }
    {
        self.bytes.as_slice()
    }

    /// The text of the model that calls speak of.
    pub fn model(&self) -> &[u8]
        ensures model { result.now ≡ self.now.model }
    {
        self.model.as_slice()
    }

    /// The columns of the plan that calls speak of.
    pub fn plan(&self) -> &[i64]
        ensures plan { result.now ≡ self.now.plan }
    {
        self.plan.as_slice()
    }

    /// Ends the case; the model and the plan stay.
    pub fn end(&mut self)
        ensures ended { self.new ≡ ended self.old }
    {
        self.name.clear();
        self.answer.clear();
        self.bytes.clear();
    }

    /// Takes what a line gives. After an error the case is open.
    pub(crate) fn take(&mut self, alloc: Global, word: Word, rest: &str) -> Result<(), Trouble>
        ensures given { Answers (given word rest.now self.old) (λ _. self.new) result }
    {
        match word {
            Word::Nothing | Word::Remark => Ok(()),
            Word::Case => self.begin(rest),
            Word::Text => self.take_text(rest),
            Word::Line => self.take_line(rest),
            Word::Times => self.take_times(alloc, rest),
            Word::Lines => self.take_lines(alloc, rest),
            Word::Model => self.keep_model(),
            Word::Plan => self.keep_plan(alloc, rest),
        }
    }

    /// Names the case.
    fn begin(&mut self, name: &str) -> Result<(), Trouble>
        ensures named { Answers (given Word.Case name.now self.old) (λ _. self.new) result }
    {
        self.name.push_str(name)?;
        Ok(())
    }

    /// Takes the bytes that a text spells.
    fn take_text(&mut self, rest: &str) -> Result<(), Trouble>
        ensures given { Answers (given Word.Text rest.now self.old) (λ _. self.new) result }
    {
        unescape(&mut self.bytes, rest.as_bytes())
    }

    /// Takes the bytes that a text spells, and a line end.
    fn take_line(&mut self, rest: &str) -> Result<(), Trouble>
        ensures given { Answers (given Word.Line rest.now self.old) (λ _. self.new) result }
    {
        append_line(&mut self.bytes, rest)
    }

    /// Takes the bytes that a text spells so many times.
    fn take_times(&mut self, alloc: Global, rest: &str) -> Result<(), Trouble>
        ensures given { Answers (given Word.Times rest.now self.old) (λ _. self.new) result }
    {
        append_times(alloc, &mut self.bytes, rest)
    }

    /// Takes so many numbered lines.
    fn take_lines(&mut self, alloc: Global, rest: &str) -> Result<(), Trouble>
        ensures given { Answers (given Word.Lines rest.now self.old) (λ _. self.new) result }
    {
        append_lines(alloc, &mut self.bytes, rest)
    }

    /// Takes the bytes so far as the model's text.
    fn keep_model(&mut self) -> Result<(), Trouble>
        ensures kept { Answers (given Word.Model [] self.old) (λ _. self.new) result }
    {
        self.model.clear();
        self.model.extend_from_slice(self.bytes.as_slice())?;
        self.bytes.clear();
        Ok(())
    }

    /// Takes the columns of a plan.
    fn keep_plan(&mut self, alloc: Global, columns: &str) -> Result<(), Trouble>
        ensures kept { Answers (given Word.Plan columns.now self.old) (λ _. self.new) result }
    {
        self.plan = wholes(alloc, columns)?;
        Ok(())
    }

    /// Adds an answer behind the ones so far. After an error the case is open.
    pub fn add(&mut self, answer: &str) -> Result<(), Trouble>
        ensures added { Answers (Some (answered self.old answer.now)) (λ _. self.new) result }
    {
        join(&mut self.answer, "; ", answer)
    }
}
