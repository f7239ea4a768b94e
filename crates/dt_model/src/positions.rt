ghost use Rattle.std.specs.Prelude.{◌≡◌};
ghost use Rattle.dt_model.specs.Faults.{is_named};
ghost use Rattle.dt_model.specs.Positions.{position_of};

use dt_lex::Name;

/// Whether one of the names is this one.
pub fn is_named(names: &[Name], name: &Name) -> bool
    ensures { result ≡ is_named names.now name.now }
{
    names.iter().any(|other| *name == *other)
}

/// The position, from 0, of the first of the names that is this one.
pub fn position_of(names: &[Name], name: &Name) -> Option<usize>
    ensures { result ≡ position_of names.now name.now }
{
    names.iter().position(|other| *name == *other)
}
