ghost use Rattle.dt_model.specs.ModelData.{data_of};
ghost use Rattle.dt_model.specs.Faults.{IsAccepted, HaveArities};
ghost use Rattle.dt_model.specs.Arities.{HaveArities-prop};
ghost use Rattle.dt_model.specs.Spelled.{HaveNames, HaveNames-prop};

use crate::Model;

/// An accepted model: no refusal applies at any of its places, each operator has as many operands
/// as it takes, and each name is spelled.
#[derive(Debug, Drop)]
pub struct Accepted {
    model: Model,
    pub ghost accepted: { IsAccepted (data_of model) },
    pub ghost arities: { HaveArities (data_of model) } by { HaveArities-prop (data_of model) },
    pub ghost names: { HaveNames (data_of model) } by { HaveNames-prop (data_of model) },
}

impl Accepted {
    ghost use Rattle.std.specs.Prelude.{◌≡◌};
    ghost use Rattle.dt_model.specs.Accepted.{accepted_data};
    ghost use Rattle.dt_model.specs.Certificate.{IsCertified};

    /// A model in which nothing is at fault.
    pub(crate) fn new(model: Model) -> Accepted
        requires accepted { IsAccepted (data_of model) }
        requires arities { HaveArities (data_of model) }
        requires names { HaveNames (data_of model) }
        ensures { accepted_data result ≡ data_of model }
    {
        Accepted { model }
    }

    /// A fixed model that has a certificate, which needs neither a check nor memory: for each of
    /// its nodes, which variables are surely assigned there and which may be, such that every edge
    /// keeps both and no other fault applies at any place.
    pub fn certified(model: Model) -> Accepted
        requires { IsCertified (data_of model) }
        ensures { accepted_data result ≡ data_of model }
    {
        Accepted::new(model)
    }

    /// The model itself.
    pub fn model(&self) -> &Model
        ensures same { data_of result.now ≡ accepted_data self.now }
        ensures accepted { IsAccepted (accepted_data self.now) }
        ensures arities { HaveArities (accepted_data self.now) }
        ensures names { HaveNames (accepted_data self.now) }
    {
        &self.model
    }
}
