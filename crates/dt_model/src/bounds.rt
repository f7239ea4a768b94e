ghost use Rattle.std.specs.Prelude.{◌≡◌, ◌^◌, ◌<◌};
ghost use Rattle.dt_model.specs.Accepted.{accepted_data};
ghost use Rattle.dt_model.specs.Bounds.{word_bytes, bounds_fit};

use crate::Accepted;

/// The bytes of a word of a model: 1, 2, 4 or 8.
pub fn word_bytes(model: &Accepted) -> u32
    ensures value { result ≡ word_bytes (accepted_data model.now) }
    ensures some { 0 < result }
{
    model.model().word / 8
}

/// The first address that a model doesn't have: 2 to the width of its addresses.
pub fn address_end(model: &Accepted) -> u128
    ensures { result ≡ 2 ^ (accepted_data model.now).address }
{
    1 << model.model().address
}

/// Whether table memory of a model may lie from the byte `lo` up to the byte `hi`, which is not its
/// own: both are multiples of the bytes of a word, in order, and within the model's addresses.
pub fn bounds_fit(model: &Accepted, lo: u128, hi: u128) -> bool
    ensures { result ≡ bounds_fit (accepted_data model.now) lo hi }
{
    let bytes = u128::from(word_bytes(model));
    lo % bytes == 0 && hi % bytes == 0 && lo <= hi && hi <= address_end(model)
}
