//! Answers of the domains for a table of cases, one a line, so that they can be compared with
//! answers that were worked out outside of this program (`tests/domains.py`). A line has the
//! domain, the call, the place (3 for forward), two parameters, and four domains: the operands a,
//! b and c and the result. Known bits are a width, mask, value and 1 where empty; a range is a
//! width, lo and hi; a pair is a width, mask, value, lo and hi. Sets are a width, how many numbers are
//! listed, with 9 for all of the width, and eight numbers, of which those count; a triple is a pair and
//! the rest of Sets. An answer is printed in the same form.
//!
//! Proved: a call is made only where its conditions hold, and the program ends.
//! Only tested: the reading and printing of lines.
#![tactic(auto)]

mod asked;
mod call;
mod known;
mod numbers;
mod pair;
mod range;
mod sets;
mod triple;

use crate::asked::answer;
use crate::call::call_of;
use dt_known::Known;
use dt_pair::Pair;
use dt_range::Range;
use dt_script::numbers;
use dt_sets::{Sets, Triple};
use std::io;

fn main(rt: HostRuntime) -> io::Result<()> {
    for line in rt.lines(rt.alloc()) {
        let line = line?;
        let given = numbers(rt.alloc(), line.as_str())?;
        let mut words = line.as_str().split_whitespace();
        let domain = words.next().unwrap_or("");
        let call = call_of(words.next().unwrap_or(""), given.as_slice());
        match domain {
            "known" => answer::<Known>(&rt, call, given.as_slice())?,
            "range" => answer::<Range>(&rt, call, given.as_slice())?,
            "pair" => answer::<Pair>(&rt, call, given.as_slice())?,
            "sets" => answer::<Sets>(&rt, call, given.as_slice())?,
            "triple" => answer::<Triple>(&rt, call, given.as_slice())?,
            _ => println!(rt; "not a case")?,
        }
    }
    Ok(())
}
