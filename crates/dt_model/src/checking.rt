ghost use Rattle.std.specs.Prelude.{◌≡◌, ◌+◌, ◌≤◌, IfOk};
ghost use Rattle.dt_model.specs.ModelData.{data_of};
ghost use Rattle.dt_model.specs.Faults.{HaveArities, rule_operators};
ghost use Rattle.dt_model.specs.Refusals.{Passes, IsFirstTo};

use crate::declared::declared_fault;
use crate::graph::nodes_fault;
use crate::header::header_fault;
use crate::legal::legal_fault;
use crate::{Accepted, Model, ModelError, ModelRefusal, Place};
use std::alloc::{AllocError, Global};

/// The refusal of the first node that is at fault, after all other places.
fn graph_fault(
    alloc: Global,
    m: &Model,
    rules: u32,
) -> Result<Option<(Place, ModelRefusal)>, AllocError>
    requires legal { Passes (data_of m.now) 6 }
    requires arities { HaveArities (data_of m.now) }
    requires rules { rules ≡ rule_operators (data_of m.now).legal_context + rule_operators (data_of m.now).legal_access }
    requires few { rules ≤ 8192 }
    ensures { IfOk result (IsFirstTo (data_of m.now) 7) }
{
    match nodes_fault(alloc, m, rules)? {
        Some((i, refusal)) => Ok(Some((Place::Node(i), refusal))),
        None => Ok(None),
    }
}

/// The first place that is at fault, with its smallest refusal.
fn first_fault(alloc: Global, m: &Model) -> Result<Option<(Place, ModelRefusal)>, AllocError>
    requires { HaveArities (data_of m.now) }
    ensures { IfOk result (IsFirstTo (data_of m.now) 7) }
{
    if let Some(refusal) = header_fault(m) {
        return Ok(Some((Place::Header, refusal)));
    }
    if let Some(found) = declared_fault(alloc, m)? {
        return Ok(Some(found));
    }
    match legal_fault(m) {
        Ok(rules) => graph_fault(alloc, m, rules),
        Err(found) => Ok(Some(found)),
    }
}

impl Model {
    ghost use Rattle.std.specs.Prelude.{◌≡◌, IfOk, IfErr};
    ghost use Rattle.dt_model.specs.ModelData.{data_of};
    ghost use Rattle.dt_model.specs.Faults.{HaveArities, IsAccepted};
    ghost use Rattle.dt_model.specs.Accepted.{accepted_data};
    ghost use Rattle.dt_model.specs.Spelled.{HaveNames};
    ghost use Rattle.dt_model.specs.Errors.{IsError};

    /// Accepts the model, or refuses it at the first place that is at fault, with the smallest
    /// refusal there. A refused model is dropped.
    ///
    /// It takes time that is linear in the names, in the operators, and in the edges times the bits
    /// of four words, and memory for the names and for two sets of 512 variables a node.
    ///
    /// # Errors
    ///
    /// `Refused` exactly where the model isn't accepted, and `Memory` where memory ran out.
    pub fn check(self, alloc: Global) -> Result<Accepted, ModelError>
        requires arities { HaveArities (data_of self) }
        requires names { HaveNames (data_of self) }
        ensures accepted { IfOk result (λ a. IsAccepted (data_of self)) }
        ensures same { IfOk result (λ a. accepted_data a ≡ data_of self) }
        ensures refused { IfErr result (IsError (data_of self)) }
    {
        match first_fault(alloc, &self)? {
            Some((place, refusal)) => Err(ModelError::Refused { refusal, place }),
            None => Ok(Accepted::new(self)),
        }
    }
}
