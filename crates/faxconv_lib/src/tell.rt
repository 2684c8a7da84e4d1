//! What is said on standard error: lines about files and pages, and at a terminal how far the run is.

use crate::visible::put_visible;
use std::alloc::AllocError;
use std::io::{IsTerminal, Write};
use std::time::{Duration, Instant};

/// Writes lines to standard error, each of which begins with the program's name.
#[derive(Drop)]
pub struct Teller<'a> {
    rt: &'a HostRuntime,
    program: &'a str,
    is_terminal: bool,
    is_shown: bool,
    next: Option<Instant>,
}

/// What a terminal erases its line by, and goes back to its start.
const ERASE: &str = "\r\x1b[K";

/// How many milliseconds a run takes before its progress is shown.
const FIRST: u64 = 1000;

/// How many milliseconds pass before it is shown again.
const BETWEEN: u64 = 100;

impl<'a> Teller<'a> {
    /// Creates a teller for a program of this name.
    pub fn new(rt: &'a HostRuntime, program: &'a str) -> Teller<'a> {
        let is_terminal = rt.stderr().is_terminal();
        let mut teller = Teller {
            rt,
            program,
            is_terminal,
            is_shown: false,
            next: None,
        };
        teller.wait(FIRST);
        teller
    }

    /// Lets some time pass before progress is shown again.
    fn wait(&mut self, milliseconds: u64) {
        self.next = match Instant::now(self.rt) {
            Ok(now) => now.checked_add(Duration::from_millis(milliseconds)),
            Err(_) => None,
        };
    }

    /// Writes a line about a file, or about the run. Control characters of others are visible. A line that can't be written is left out.
    pub fn tell(&mut self, file: Option<&str>, message: &str) {
        self.end_progress();
        let mut line = String::new(self.rt.alloc());
        if self.put_line(file, message, &mut line).is_ok() {
            self.write(line.as_str());
        }
    }

    /// Puts a line.
    fn put_line(
        &self,
        file: Option<&str>,
        message: &str,
        line: &mut String,
    ) -> Result<(), AllocError> {
        self.put_names(file, line)?;
        put_visible(message, line)?;
        line.push('\n')
    }

    /// Puts the names before a message.
    fn put_names(&self, file: Option<&str>, line: &mut String) -> Result<(), AllocError> {
        put_visible(self.program, line)?;
        if let Some(file) = file {
            line.push_str(": ")?;
            put_visible(file, line)?;
        }
        line.push_str(": ")
    }

    /// Shows at a terminal, at most ten times a second, which page is read.
    pub fn show_progress(&mut self, file: &str, page: u64) {
        if !self.is_terminal || !self.is_time() {
            return;
        }
        self.wait(BETWEEN);
        let mut line = String::new(self.rt.alloc());
        if self.put_progress(file, page, &mut line).is_ok() {
            self.write(line.as_str());
            self.is_shown = true;
        }
    }

    /// Puts which page is read.
    fn put_progress(&self, file: &str, page: u64, line: &mut String) -> Result<(), AllocError> {
        line.push_str(ERASE)?;
        self.put_names(Some(file), line)?;
        write!(line, "page {page}")
    }

    /// Returns whether progress is to be shown again.
    fn is_time(&self) -> bool {
        match (self.next, Instant::now(self.rt)) {
            (Some(next), Ok(now)) => now >= next,
            _ => false,
        }
    }

    /// Removes what shows the progress.
    pub fn end_progress(&mut self) {
        if self.is_shown {
            self.write(ERASE);
            self.is_shown = false;
        }
    }

    /// Writes to standard error.
    fn write(&self, text: &str) {
        let _ = self.rt.stderr().write_all(text.as_bytes());
    }
}
