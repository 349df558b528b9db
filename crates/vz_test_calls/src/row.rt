//! Rows of the table.
use crate::file::{File, find, put_ones, put_packed, put_read, put_written};
use std::alloc::{AllocError, Global};
use std::rt::Files;

/// The name of the file that a log is written to.
pub const LOG: &str = "l";

/// What is printed if a log and its frames are those of the machine.
pub const YES: &str = "yes";

/// More bytes than any file of a row has.
const WHOLE: u32 = 1 << 30;

/// A call of the program, and what must come of it. Each part is a line with its key in the table;
/// one that is not told is empty, 0 or false.
#[derive(Drop)]
pub struct Row<'t> {
    /// `row`: what it shows.
    pub name: &'t str,
    /// `words`: those of the command line, parted by blanks.
    pub words: &'t str,
    /// `given`: a file of the shelf, its name and its bytes in hexadecimal digits. `ones`: one whose
    /// bytes are all 1, its name and their number. `packed`: one of pieces, its name and each piece,
    /// with an `x` and a number where it is repeated. `read`: one of the folder, its name and its
    /// path there.
    pub given: Vec<File>,
    /// `piece`: how many bytes a call of the shelf moves at most.
    pub piece: u32,
    /// `turns`: the row is also played with each call of the shelf failing in turn.
    pub fails_in_turn: bool,
    /// `status`: the answer.
    pub status: u32,
    /// `line`: what is printed, without its line feed.
    pub line: &'t str,
    /// `log`: a line of the file `l` that must be left. `or`: what follows is another one that may be
    /// left in its place.
    pub logs: Vec<String>,
    /// `left`: another file that must be left, as for `given`. `must`: one of the folder, its name and
    /// its path there.
    pub left: Vec<File>,
    /// `entries`: how many entries the history has.
    pub entries: u32,
    /// `steps`: how many pixels are made or painted.
    pub steps: u32,
    /// `judge`: the words of a second call, on what the first one left. Of the first one the steps are not
    /// compared then, and the status alone where no file must be left.
    pub judge: &'t str,
    /// `verdict`: what the second call must print, `yes` if it is not told.
    pub verdict: &'t str,
}

impl<'t> Row<'t> {
    /// The row of some lines, none where one of them is no line of a row.
    pub fn of_text<R: Files + AllocGlobal>(
        rt: &R,
        text: &'t str,
    ) -> Result<Option<Self>, AllocError> {
        let mut row = Self::empty(rt.alloc())?;
        for line in text.lines() {
            if !row.take(rt, line)? {
                return Ok(None);
            }
        }
        Ok(Some(row))
    }

    /// The row of no lines.
    fn empty(alloc: Global) -> Result<Self, AllocError> {
        let mut logs = Vec::new(alloc);
        logs.push(String::new(alloc))?;
        Ok(Row {
            name: "",
            words: "",
            given: Vec::new(alloc),
            piece: WHOLE,
            fails_in_turn: false,
            status: 0,
            line: "",
            logs,
            left: Vec::new(alloc),
            entries: 0,
            steps: 0,
            judge: "",
            verdict: YES,
        })
    }

    /// Takes a line, and answers whether it is one of a row.
    fn take<R: Files + AllocGlobal>(&mut self, rt: &R, line: &'t str) -> Result<bool, AllocError> {
        let alloc = rt.alloc();
        let (key, value) = line.split_once(' ').unwrap_or((line, ""));
        match key {
            "row" => self.name = value,
            "words" => self.words = value,
            "line" => self.line = value,
            "turns" => self.fails_in_turn = true,
            "given" => return put_written(alloc, &mut self.given, value),
            "ones" => return put_ones(alloc, &mut self.given, value),
            "left" => return put_written(alloc, &mut self.left, value),
            "read" => return put_read(rt, &mut self.given, value),
            "must" => return put_read(rt, &mut self.left, value),
            "judge" => self.judge = value,
            "verdict" => self.verdict = value,
            "packed" => return put_packed(alloc, &mut self.given, value),
            "or" => self.logs.push(String::new(alloc))?,
            "log" => put_line(&mut self.logs, value)?,
            "piece" => return Ok(put_number(&mut self.piece, value)),
            "status" => return Ok(put_number(&mut self.status, value)),
            "entries" => return Ok(put_number(&mut self.entries, value)),
            "steps" => return Ok(put_number(&mut self.steps, value)),
            _ => return Ok(false),
        }
        Ok(true)
    }

    /// The bytes that a file must have after the call, none where it must not be there; the log of a
    /// row that tells one is in `logs`.
    pub fn due(&self, name: &str) -> Option<&[u8]> {
        match find(&self.left, name) {
            Some(bytes) => Some(bytes),
            None => find(&self.given, name),
        }
    }
}

/// Puts a line behind the last of some texts.
fn put_line(texts: &mut Vec<String>, line: &str) -> Result<(), AllocError> {
    let Some(text) = texts.last_mut() else {
        return Ok(());
    };
    text.push_str(line)?;
    text.push('\n')
}

/// Puts the number of a value in the place of another, and answers whether the value is one.
fn put_number(into: &mut u32, value: &str) -> bool {
    match value.parse::<u32>() {
        Ok(number) => {
            *into = number;
            true
        }
        Err(_) => false,
    }
}
