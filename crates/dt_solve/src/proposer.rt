ghost use Rattle.std.specs.Prelude.{◌≡◌, ℕ, List, Option, length, IfSome};
ghost use Rattle.dt_terms.specs.Terms.{choices_of};
ghost use Rattle.dt_box.specs.Cells.{AreCells};
ghost use Rattle.dt_box.specs.Stillness.{HasNoEmpty};
ghost use Rattle.dt_check.specs.Trials.{picks};

use dt_box::Cells;
use dt_domain::Domain;
use dt_terms::Problem;

/// What proposes numbers for the choices of a problem, which a search then tries.
pub trait Proposer<D: Domain> {
    /// The numbers that it always proposes, where it tells them.
    ghost aim: { Self → Option (List ℕ) };

    /// Writes a number for each choice. Before, `out` holds the pick of each choice's cell; a number
    /// that the choice's cell doesn't hold is replaced by that pick afterwards. Where the aim is told
    /// and has one number for each choice, it is what is written. It takes no memory.
    fn propose(&mut self, problem: &Problem, cells: &Cells<D>, out: &mut [u128])
        requires cells { AreCells D.ops problem.now.terms cells.now }
        requires held { HasNoEmpty D.ops cells.now }
        requires picks { out.old ≡ picks D.ops problem.now.terms cells.now }
        ensures aim { aim self.new ≡ aim self.old }
        ensures told { IfSome (aim self.old) (λ numbers. length numbers ≡ length (choices_of problem.now.terms) → out.new ≡ numbers) };
}
