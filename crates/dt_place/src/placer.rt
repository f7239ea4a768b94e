use dt_bits::NoMemory;
use dt_box::Cells;
use dt_domain::Domain;
use dt_layout::Layout;
use dt_model::Accepted;
use dt_request::Requests;
use dt_solve::Proposer;
use dt_terms::Problem;
use std::alloc::Global;

/// How many proposals are laid out; after them the picks stay.
const PROPOSALS: u32 = 4;

/// A proposer for the problem of a request list, which lays out the tables, words and pages of its
/// accesses. It tells no aim.
#[derive(Drop)]
pub struct Placer<'a> {
    layout: Layout<'a>,
    left: u32,
}

impl<'a> Placer<'a> {
    ghost use Rattle.dt_box.specs.Cells.{AreCells};

    /// A placer for a list of the model, whose free bits are drawn from the seed. It takes all its
    /// memory here; proposing takes none.
    ///
    /// # Errors
    ///
    /// `NoMemory` where memory ran out.
    pub fn new(
        alloc: Global,
        model: &'a Accepted,
        requests: &'a Requests,
        seed: u64,
    ) -> Result<Placer<'a>, NoMemory> {
        Ok(Placer {
            layout: Layout::new(alloc, model, requests, seed)?,
            left: PROPOSALS,
        })
    }

    // Looks at what is known of the choices.
    fn see<D: Domain>(&mut self, problem: &Problem, cells: &Cells<D>)
        requires cells { AreCells D.ops problem.now.terms cells.now }
    {
        let _ = &problem.terms;
        for choice in 0..problem.choice_count() {
            if let Some(term) = problem.choice_term(choice) {
                let cell = cells.get(term);
                self.layout
                    .see(choice as usize, cell.known_mask(), cell.known_value());
            }
        }
    }
}

impl<D: Domain> Proposer<D> for Placer<'_> {
    ghost use Rattle.std.specs.Prelude.{◌≡◌, ◌-◌, None};
    ghost use Rattle.dt_box.specs.Cells.{AreCells};

    ghost aim = { λ placer. None };

    fn propose(&mut self, problem: &Problem, cells: &Cells<D>, out: &mut [u128])
        requires cells { AreCells D.ops problem.now.terms cells.now }
        // One proposal fewer is left, and none after the last.
        ensures counted { self.new.left ≡ self.old.left - 1 }
    {
        let left = self.left;
        if left == 0 {
            return;
        }
        self.see(problem, cells);
        self.layout.write_numbers(out);
        self.left = left - 1;
    }
}
