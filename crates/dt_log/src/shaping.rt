ghost use Rattle.std.specs.Prelude.{◌≡◌, ◌<◌, ◌≤◌, ◌+◌, ◌^◌, Some, None, MatchOption, IfSome, length};
ghost use Rattle.dt_log.specs.Shapes.{shape, plain, after_line, first_wrong};

use crate::line::Line;
use crate::lines::Lines;

// How many trees are still awaited, and whether Try lines came last.
#[derive(Clone, Copy, Debug, PartialEq, Eq)]
struct Awaited {
    trees: u64,
    trying: bool,
}

// The same, unless Try lines came last: a line that may not follow them.
fn plain(trying: bool, trees: u64) -> Option<Awaited>
    ensures shape { MatchOption result (plain trying trees ≡ None) (λ a. plain trying trees ≡ Some (shape a.trees a.trying)) }
    ensures most { IfSome result (λ a. a.trees ≤ trees) }
{
    if trying {
        None
    } else {
        Some(Awaited {
            trees,
            trying: false,
        })
    }
}

// What is awaited after a line; None where no tree can go on with it.
fn after(awaited: Awaited, line: Line) -> Option<Awaited>
    requires { awaited.trees + 1 < 2 ^ 64 }
    ensures shape { MatchOption result (after_line (shape awaited.trees awaited.trying) line ≡ None) (λ a. after_line (shape awaited.trees awaited.trying) line ≡ Some (shape a.trees a.trying)) }
    ensures most { IfSome result (λ a. a.trees ≤ awaited.trees + 1) }
{
    if awaited.trees == 0 {
        return None;
    }
    match line {
        Line::Forward { .. } => plain(awaited.trying, awaited.trees),
        Line::Backward { .. } => plain(awaited.trying, awaited.trees),
        Line::Try { .. } => Some(Awaited {
            trees: awaited.trees,
            trying: true,
        }),
        Line::Split { .. } => Some(Awaited {
            trees: awaited.trees + 1,
            trying: false,
        }),
        Line::Close { .. } => plain(awaited.trying, awaited.trees - 1),
        Line::Loose => Some(Awaited {
            trees: awaited.trees - 1,
            trying: false,
        }),
        Line::Unvisited => plain(awaited.trying, awaited.trees - 1),
    }
}

// The position, from 1, of the first line where no tree can go on, or one past the last where the
// tree isn't ended; None where the lines are one tree.
pub(crate) fn first_wrong(lines: &Lines) -> Option<usize>
    ensures first { result ≡ first_wrong lines.now }
    ensures near { IfSome result (λ item. item ≤ length lines.now + 1) }
{
    let mut awaited = Awaited {
        trees: 1,
        trying: false,
    };
    for i in 0..lines.len() {
        match after(awaited, lines.at(i)) {
            None => return Some(i + 1),
            Some(next) => awaited = next,
        }
    }
    if awaited.trees == 0 {
        None
    } else {
        Some(lines.len() + 1)
    }
}
