use crate::proposer::Proposer;
use dt_box::Cells;
use dt_domain::Domain;
use dt_terms::Problem;

/// A proposer that writes nothing, so that the picks are tried. It tells no aim.
#[derive(Clone, Copy, Debug, PartialEq, Eq, Drop)]
pub struct Picks;

impl<D: Domain> Proposer<D> for Picks {
    ghost use Rattle.std.specs.Prelude.{None};

    ghost aim = { λ picks. None };

    fn propose(&mut self, _problem: &Problem, _cells: &Cells<D>, _out: &mut [u128]) {}
}
