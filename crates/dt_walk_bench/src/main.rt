//! Measures walks of the shipped model of Sv39. Its words are the name of an image's file and a
//! number of rounds: in each round each access of the image is walked. It prints how many walks and
//! reads there were, and on standard error how many milliseconds the rounds took.
//!
//! Proved: each call is made where its conditions hold, and the program ends.
//! Only tested: that it runs. The figures are the machine's.
#![tactic(auto)]

mod stop;

ghost use Rattle.std.specs.Prelude.{◌≡◌, IfOk};
ghost use Rattle.dt_model.specs.Accepted.{accepted_data};
ghost use Rattle.dt_image.specs.Images.{IsImage};
ghost use Rattle.dt_walk.specs.Walkers.{walker_data};

use crate::stop::Stop;
use dt_image::{Image, read_image};
use dt_model::Accepted;
use dt_sv39::sv39_model;
use dt_walk::Walker;
use std::time::Instant;
use std::{env, fs};

/// What was walked.
#[derive(Clone, Copy)]
struct Counts {
    walks: u64,
    reads: u64,
}

impl Counts {
    fn add(self, reads: usize) -> Counts {
        Counts {
            walks: self.walks.wrapping_add(1),
            reads: self.reads.wrapping_add(reads as u64),
        }
    }
}

/// Walks each access of the image once.
fn walk_all(walker: &mut Walker<'_>, image: &Image, before: Counts) -> Counts
    requires { IsImage (walker_data walker.old) image.now }
    ensures { walker_data walker.new ≡ walker_data walker.old }
{
    let contexts = image.contexts.as_slice();
    let mut counts = before;
    for access in image.accesses.as_slice() {
        let regs = contexts[access.context as usize].as_slice();
        let run = walker.walk(regs, access.inputs.as_slice(), &image.memory);
        counts = counts.add(run.reads.len());
    }
    counts
}

/// Walks each access of the image so many times.
fn walk_rounds(walker: &mut Walker<'_>, image: &Image, rounds: u32) -> Counts
    requires { IsImage (walker_data walker.old) image.now }
    ensures { walker_data walker.new ≡ walker_data walker.old }
{
    let mut counts = Counts { walks: 0, reads: 0 };
    for _round in 0..rounds {
        counts = walk_all(walker, image, counts);
    }
    counts
}

/// Prints what was walked, and tells how long it took.
fn tell(rt: &HostRuntime, start: &Instant, counts: Counts) -> Result<(), Stop> {
    let taken = start.elapsed(rt)?.as_millis();
    eprintln!(rt; "{taken} ms")?;
    let Counts { walks, reads } = counts;
    println!(rt; "{walks} walks, {reads} reads")?;
    Ok(())
}

/// Walks the image so many times, and tells how long it took.
fn measure_walks(
    rt: &HostRuntime,
    walker: &mut Walker<'_>,
    image: &Image,
    rounds: u32,
) -> Result<(), Stop>
    requires { IsImage (walker_data walker.old) image.now }
{
    let start = Instant::now(rt)?;
    let counts = walk_rounds(walker, image, rounds);
    tell(rt, &start, counts)
}

fn measure_image(rt: &HostRuntime, model: &Accepted, image: &Image, rounds: u32) -> Result<(), Stop>
    requires { IsImage (accepted_data model.now) image.now }
{
    let mut walker = Walker::new(rt.alloc(), model)?;
    measure_walks(rt, &mut walker, image, rounds)
}

/// The image that a text spells.
fn image(rt: &HostRuntime, model: &Accepted, text: &[u8]) -> Result<Image, Stop>
    ensures { IfOk result (IsImage (accepted_data model.now)) }
{
    if text.len() >= u32::MAX as usize {
        return Err(Stop::Long);
    }
    Ok(read_image(rt.alloc(), model, text)?)
}

/// The image in a file.
fn image_in(rt: &HostRuntime, model: &Accepted, path: &str) -> Result<Image, Stop>
    ensures { IfOk result (IsImage (accepted_data model.now)) }
{
    image(rt, model, fs::read(rt, path)?.as_slice())
}

fn measure_model(rt: &HostRuntime, model: &Accepted, path: &str, rounds: u32) -> Result<(), Stop> {
    let image = image_in(rt, model, path)?;
    measure_image(rt, model, &image, rounds)
}

/// Walks the image of a file so many times, and tells how long it took.
fn measure(rt: &HostRuntime, path: &str, rounds: u32) -> Result<(), Stop> {
    let model = sv39_model(rt.alloc())?;
    measure_model(rt, &model, path, rounds)
}

fn main(rt: HostRuntime) -> Result<(), Stop> {
    let mut words = env::args(&rt)?.skip(1);
    match (words.next(), words.next()) {
        (Some(path), Some(rounds)) => match rounds.as_str().parse::<u32>() {
            Ok(rounds) => measure(&rt, path.as_str(), rounds),
            Err(_) => Err(Stop::Words),
        },
        _ => Err(Stop::Words),
    }
}
