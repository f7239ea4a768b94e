ghost use Rattle.std.specs.Prelude.{◌≡◌, ◌↔◌, ◌<◌, ℕ, List, length, map, IsTrue};
ghost use Rattle.dt_satisfy.specs.Satisfies.{Matches};

use dt_image::{Image, ImageAccess};
use dt_model::Accepted;
use dt_request::{AccessWish, Requests};

// Whether there are as many accesses as wishes, each with its wish's context.
fn have_contexts(accesses: &[ImageAccess], wishes: &[AccessWish]) -> bool
    ensures { IsTrue result ↔ (map (λ a. a.context) accesses.now ≡ map (λ a. a.context) wishes.now) }
{
    if accesses.len() != wishes.len() {
        return false;
    }
    for (i, access) in accesses.iter().enumerate() {
        if access.context != wishes[i].context {
            return false;
        }
    }
    true
}

/// Whether the image has the list's table bounds, as many contexts, as many accesses, and each
/// access its context. It takes no memory.
pub fn matches(_model: &Accepted, requests: &Requests, image: &Image) -> bool
    ensures { IsTrue result ↔ Matches requests.now image.now }
{
    image.memory.lo == requests.lo
        && image.memory.hi == requests.hi
        && image.contexts.len() == requests.contexts.len()
        && have_contexts(image.accesses.as_slice(), requests.accesses.as_slice())
}
