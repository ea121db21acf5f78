// Rows of a file, taken line by line.
//
//     = NAME       opens a text, which later rows may ask for
//     > WORDS      opens a row, or gives one more line of words for the same input
//     < STATUS     closes the input; the answer follows
//     ~ STATUS     closes the input; the answer's length and its sum follow
//     + NAME       adds the text of that name
//     | LINE       adds a line
//
// Where the status is 0 the answer is the whole output and nothing goes to the notes; else it is
// the whole of the notes, and nothing goes to the output. Other lines are comments.
use crate::calling::{Answer, call};
use crate::marks::push_line;
use crate::sums::in_short;
use std::alloc::{AllocError, Global};
use std::mem;

#[derive(Drop)]
struct Named {
    name: String,
    text: Vec<u8>,
}

// What the lines that are added belong to.
#[derive(Clone, Copy, PartialEq)]
enum Part {
    Nothing,
    Text,
    Input,
    Answer,
}

/// The rows so far: how many hold and how many fail, and the one that is open.
#[derive(Drop)]
pub struct Rows {
    texts: Vec<Named>,
    words: Vec<String>,
    name: String,
    input: Vec<u8>,
    status: u8,
    short: bool,
    lines: Vec<u8>,
    part: Part,
    held: u64,
    failed: u64,
}

fn holds(answer: &Answer, status: u8, text: &[u8]) -> bool {
    let (told, quiet) = if status == 0 {
        (&answer.out, &answer.notes)
    } else {
        (&answer.notes, &answer.out)
    };
    answer.status == status && told.as_slice() == text && quiet.is_empty()
}

// What is said of a row that fails: its words, and what it answered.
fn failure(alloc: Global, words: &str, answer: &Answer) -> Result<String, AllocError> {
    let mut said = String::from_str(alloc, words)?;
    said.push_str(match answer.status {
        0 => " answers status 0: ",
        1 => " answers status 1: ",
        _ => " answers another status: ",
    })?;
    let told = if answer.status == 0 {
        &answer.out
    } else {
        &answer.notes
    };
    if let Ok(text) = std::str::from_utf8(told) {
        said.push_str(text)?;
    }
    Ok(said)
}

impl Rows {
    /// No rows.
    pub fn new(alloc: Global) -> Rows {
        Rows {
            texts: Vec::new(alloc),
            words: Vec::new(alloc),
            name: String::new(alloc),
            input: Vec::new(alloc),
            status: 0,
            short: false,
            lines: Vec::new(alloc),
            part: Part::Nothing,
            held: 0,
            failed: 0,
        }
    }

    /// How many rows hold.
    pub fn held(&self) -> u64 {
        self.held
    }

    /// How many rows fail.
    pub fn failed(&self) -> u64 {
        self.failed
    }

    // Calls the program with the words, and says what is wrong.
    fn check(&mut self, alloc: Global, words: &str) -> Result<Option<String>, AllocError> {
        let mut answer = call(alloc, words, &self.input)?;
        if self.short {
            answer.out = in_short(alloc, &answer.out)?;
        }
        if holds(&answer, self.status, &self.lines) {
            self.held = self.held.saturating_add(1);
            return Ok(None);
        }
        self.failed = self.failed.saturating_add(1);
        Ok(Some(failure(alloc, words, &answer)?))
    }

    // Checks the row that is open with each of its words, and says what is wrong with the last one
    // that fails.
    fn check_all(&mut self, alloc: Global) -> Result<Option<String>, AllocError> {
        let mut wrong = None;
        let words = mem::replace(&mut self.words, Vec::new(alloc));
        for line in words.iter() {
            if let Some(failure) = self.check(alloc, line.as_str())? {
                wrong = Some(failure);
            }
        }
        Ok(wrong)
    }

    /// Ends the row or the text that is open, and says what is wrong with the row.
    pub fn finish(&mut self, alloc: Global) -> Result<Option<String>, AllocError> {
        let wrong = match self.part {
            Part::Answer => self.check_all(alloc)?,
            _ => None,
        };
        let text = mem::replace(&mut self.lines, Vec::new(alloc));
        if self.part == Part::Text {
            let name = mem::replace(&mut self.name, String::new(alloc));
            self.texts.push(Named { name, text })?;
        }
        self.part = Part::Nothing;
        Ok(wrong)
    }

    fn open_text(&mut self, alloc: Global, name: &str) -> Result<Option<String>, AllocError> {
        let wrong = self.finish(alloc)?;
        self.name = String::from_str(alloc, name)?;
        self.part = Part::Text;
        Ok(wrong)
    }

    fn open_row(&mut self, alloc: Global, words: &str) -> Result<Option<String>, AllocError> {
        let wrong = match self.part {
            Part::Input => None,
            _ => self.finish(alloc)?,
        };
        self.words.push(String::from_str(alloc, words)?)?;
        self.part = Part::Input;
        Ok(wrong)
    }

    fn close_input(&mut self, alloc: Global, status: &str, short: bool) {
        self.short = short;
        self.input = mem::replace(&mut self.lines, Vec::new(alloc));
        self.status = match status {
            "0" => 0,
            "1" => 1,
            "2" => 2,
            "3" => 3,
            _ => 255,
        };
        self.part = Part::Answer;
    }

    fn add_text(&mut self, name: &str) -> Result<(), AllocError> {
        for named in self.texts.iter() {
            if named.name.as_str() == name {
                self.lines.extend_from_slice(&named.text)?;
            }
        }
        Ok(())
    }

    /// Takes a line, and says what is wrong with the row that it ends.
    pub fn take(&mut self, alloc: Global, line: &str) -> Result<Option<String>, AllocError> {
        if let Some(name) = line.strip_prefix("= ") {
            return self.open_text(alloc, name);
        }
        if let Some(words) = line.strip_prefix("> ") {
            return self.open_row(alloc, words);
        }
        if let Some(status) = line.strip_prefix("< ") {
            self.close_input(alloc, status, false);
        } else if let Some(status) = line.strip_prefix("~ ") {
            self.close_input(alloc, status, true);
        } else if let Some(name) = line.strip_prefix("+ ") {
            self.add_text(name)?;
        } else if let Some(text) = line.strip_prefix("| ") {
            push_line(&mut self.lines, text.as_bytes())?;
        } else if line == "|" {
            push_line(&mut self.lines, b"")?;
        }
        Ok(None)
    }
}
