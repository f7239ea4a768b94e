ghost use Rattle.std.specs.Prelude.{◌^◌, ◌-◌, ◌<◌, length};
ghost use Rattle.dt_lex.specs.Reading.{Gives};
ghost use Rattle.dt_log.specs.Fault.{is_memory};
ghost use Rattle.dt_log.specs.Read.{reading};

use crate::entry::{SECTIONS, meaning, read_entry};
use crate::fault::LogFault;
use crate::log::Log;
use crate::shaping::first_wrong;
use crate::written::Written;
use dt_lex::{LexFault, Reader, read_text};
use std::alloc::Global;

/// Reads logs.
#[derive(Clone, Copy)]
struct LogReader {
    alloc: Global,
}

impl Reader for LogReader {
    ghost use Rattle.dt_log.specs.declared.entry.Entry.{Entry};
    ghost use Rattle.dt_log.specs.declared.written.Written.{Written};
    ghost use Rattle.dt_log.specs.Fault.{is_memory};
    ghost use Rattle.dt_log.specs.Written.{added};
    ghost use Rattle.dt_log.specs.Read.{LogData, grammar, finished, IsWritten};
    ghost use Rattle.dt_log.specs.Laws.{adds_up, written_later};

    type Draft = Written;

    type Value = Log;

    type Fault = LogFault;

    ghost Entry = { Entry };

    ghost Declared = { Written };

    ghost Cause = { Unit {0} };

    ghost Meaning = { LogData };

    ghost grammar = { λ r. grammar };

    ghost added = { added };

    ghost finished = { λ r. finished };

    ghost declared_by = { λ w. w };

    ghost meaning_of = { λ log. (log.claim, log.lines) };

    ghost is_memory = { is_memory };

    ghost valid = { λ r n w. IsWritten n w };

    ghost sound = { λ r log. Unit {0} };

    ghost adds_up = { λ r. adds_up };

    ghost valid_later = { λ r n w h. written_later n w h };

    #[tactic(auto, unfolding(crate::specs::Written::declared))]
    fn start(&self) -> Written {
        Written::new(self.alloc)
    }

    fn lexical(&self, fault: LexFault) -> LogFault {
        LogFault::Lex(fault)
    }

    fn add(
        &self,
        written: &mut Written,
        number: u32,
        word: &[u8],
        rest: &[u8],
    ) -> Result<(), LogFault> {
        match meaning(written.place, read_entry(word, rest)) {
            None => Err(LogFault::Form(number)),
            Some(entry) => {
                written.add(entry)?;
                Ok(())
            }
        }
    }

    fn finish(&self, written: Written, number: u32) -> Result<Log, LogFault> {
        if written.place != SECTIONS.len() {
            return Err(LogFault::Form(number));
        }
        match first_wrong(&written.lines) {
            Some(item) => Err(LogFault::NotATree(item as u32)),
            None => Ok(Log {
                claim: written.claim,
                lines: written.lines,
            }),
        }
    }
}

/// The log that a text spells, or the first bad line and the first of its causes, or, where no line
/// is bad, the first item where no tree can go on. It goes over the text once, and then over the
/// items, with counters in place of a stack; beside the text it takes 12 bytes for an item, and 16
/// more for the value of a try.
pub fn read_log(alloc: Global, bytes: &[u8]) -> Result<Log, LogFault>
    requires { length bytes.now < 2 ^ 32 - 1 }
    ensures { Gives is_memory (λ log. (log.claim, log.lines)) result (reading bytes.now) }
{
    read_text(&LogReader { alloc }, bytes)
}
