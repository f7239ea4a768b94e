use dt_box::Cells;
use dt_domain::Domain;
use dt_solve::Proposer;
use dt_terms::Problem;

/// A proposer that writes nothing, so that the picks are tried, and counts how often it is asked: once
/// for each assignment that is tried. It tells no aim.
#[derive(Clone, Copy, Debug, PartialEq, Eq, Drop)]
pub struct Counting {
    /// How often it was asked.
    pub asked: u64,
}

impl<D: Domain> Proposer<D> for Counting {
    ghost use Rattle.std.specs.Prelude.{None};

    ghost aim = { λ counting. None };

    fn propose(&mut self, _problem: &Problem, _cells: &Cells<D>, _out: &mut [u128]) {
        self.asked = self.asked.saturating_add(1);
    }
}
