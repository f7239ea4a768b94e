//! The report on files of cases.
use crate::parts::{Case, Part};
use crate::script::parts_of;
use dt_edge::{FileShelf, OutSink, Shelf, Sink};
use std::alloc::{AllocError, Global};
use std::process::ExitCode;
use std::{env, str};

/// The most bytes of a file of cases.
const LIMIT: u64 = 16_777_216;

/// The calls of a program of cases.
pub trait Calls {
    /// What comes of the call of this name on the texts of the case.
    fn answer(alloc: Global, call: &str, case: Case) -> Result<String, AllocError>;
}

/// A line for each case, and counts.
#[derive(Drop)]
pub struct Report {
    text: String,
    ok: u64,
    differ: u64,
}

impl Report {
    /// A report on no case yet.
    pub fn new(alloc: Global) -> Report {
        Report {
            text: String::new(alloc),
            ok: 0,
            differ: 0,
        }
    }

    /// The lines so far.
    pub fn text(&self) -> &str {
        self.text.as_str()
    }

    /// Compares the answer of the case of this header with the expected one.
    fn add_case<C: Calls>(
        &mut self,
        alloc: Global,
        header: &str,
        case: Case,
    ) -> Result<(), AllocError> {
        let (name, call) = header.split_once(' ').unwrap_or((header, ""));
        let answer = C::answer(alloc, call, case)?;
        let answer = answer.as_str();
        if answer == case.text("expect") {
            self.ok = self.ok.saturating_add(1);
            writeln!(self.text, "{name}: ok")
        } else {
            self.differ = self.differ.saturating_add(1);
            write!(self.text, "{name}: differs\n{answer}")
        }
    }

    fn add_cases<C: Calls>(&mut self, alloc: Global, parts: &[Part]) -> Result<(), AllocError> {
        for i in 0..parts.len() {
            let header = &parts[i];
            if header.word.as_str() == "case" {
                let case = Case {
                    parts: &parts[i + 1..],
                };
                self.add_case::<C>(alloc, header.rest.as_str(), case)?;
            }
        }
        Ok(())
    }

    /// The cases of a file.
    fn add_script<C: Calls>(&mut self, alloc: Global, script: &[u8]) -> Result<(), AllocError> {
        let parts = parts_of(alloc, str::from_utf8(script).unwrap_or(""))?;
        self.add_cases::<C>(alloc, parts.as_slice())
    }

    /// The cases of the file of this name; a file that can't be read is said to be none.
    pub fn add_file<C: Calls, S: Shelf>(
        &mut self,
        alloc: Global,
        shelf: &mut S,
        name: &str,
    ) -> Result<(), AllocError> {
        match shelf.read_all(alloc, name, LIMIT) {
            Ok(bytes) => {
                writeln!(self.text, "{name}")?;
                self.add_script::<C>(alloc, bytes.as_slice())
            }
            Err(_) => writeln!(self.text, "{name} can't be read"),
        }
    }

    /// The counts, at the end.
    pub fn end(&mut self) -> Result<(), AllocError> {
        writeln!(self.text, "{} ok, {} differ", self.ok, self.differ)
    }
}

/// The report on the files that the program's words name.
fn reported<C: Calls>(rt: &HostRuntime) -> Option<Report> {
    let mut shelf = FileShelf::new(rt);
    let mut report = Report::new(rt.alloc());
    for name in env::args(rt).ok()?.skip(1) {
        report
            .add_file::<C, _>(rt.alloc(), &mut shelf, name.as_str())
            .ok()?;
    }
    report.end().ok()?;
    Some(report)
}

/// Writes the report on the files that the program's words name to the standard output: all that a
/// program of cases does. It ends with 1 where memory ran out, and with 2 where the output failed.
pub fn answer_files<C: Calls>(rt: &HostRuntime) -> ExitCode {
    match reported::<C>(rt) {
        None => ExitCode::from(1),
        Some(report) => match OutSink::new(rt).write_all(report.text().as_bytes()) {
            Ok(()) => ExitCode::SUCCESS,
            Err(_) => ExitCode::from(2),
        },
    }
}
