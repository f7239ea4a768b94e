ghost use Rattle.std.specs.Prelude.{◌≡◌, true, IfOk};
ghost use Rattle.dt_bits.specs.Memory.{IsMemory};
ghost use Rattle.dt_model.specs.Accepted.{accepted_data};
ghost use Rattle.dt_request.specs.Lists.{IsList};
ghost use Rattle.dt_image.specs.Images.{IsImage};
ghost use Rattle.dt_satisfy.specs.Satisfies.{Matches, Satisfies};
ghost use Rattle.dt_terms.specs.Values.{IsAssignment, solves};
ghost use Rattle.dt_forms.specs.Meaning.{values as term_values};
ghost use Rattle.dt_table.specs.Images.{image_told};
ghost use Rattle.dt_table.specs.Table.{table};
ghost use Rattle.dt_encode.specs.Encoding.{IsEncoded};
ghost use Rattle.dt_encode.specs.ReadWords.{ListsReads};

use crate::building::{Encoded, build};
use crate::names::{accesses_told, contexts_told};
use crate::reads::all_reads;
use crate::values::term_values;
use crate::words::words_of;
use dt_bits::{NoMemory, Seq, TableMemory};
use dt_image::Image;
use dt_model::{Accepted, word_bytes};
use dt_request::Requests;
use std::alloc::Global;

/// The image that values of the choices tell which solve the problem of the list: the registers and
/// inputs are their choices' numbers, and the words are those of the reads that the accesses make,
/// one for each cell and no others. It satisfies the list. The list is of the model, and `encoded` is
/// its problem as `encode_list` gives it.
///
/// It finds the value of each term: memory for a number of 128 bits for each term, and time linear in
/// the terms.
///
/// # Errors
///
/// `NoMemory` where memory ran out.
pub fn image_in(
    alloc: Global,
    model: &Accepted,
    requests: &Requests,
    encoded: &Encoded,
    values: &[u128],
) -> Result<Image, NoMemory>
    requires list { IsList (accepted_data model.now) requests.now }
    requires encoded { IsEncoded (accepted_data model.now) requests.now encoded.now }
    requires assignment { IsAssignment (table (accepted_data model.now) requests.now).terms values.now }
    requires solves { solves (table (accepted_data model.now) requests.now) values.now ≡ true }
    ensures image { let d = accepted_data model.now in IfOk result (λ image. image
        ≡ image_told (term_values (table d requests.now).terms values.now) d requests.now) }
    ensures satisfies { IfOk result (Satisfies (accepted_data model.now) requests.now) }
    ensures of_model { IfOk result (IsImage (accepted_data model.now)) }
    ensures matches { IfOk result (Matches requests.now) }
    ensures memory { IfOk result (λ image. IsMemory image.memory) }
    ensures words { IfOk result (ListsReads (accepted_data model.now)) }
{
    let of_terms = term_values(alloc, &encoded.problem, values)?;
    let of_terms = of_terms.as_slice();
    let nodes = model.model().nodes.as_slice();
    let reads = all_reads(alloc, nodes, encoded.outs.as_slice(), of_terms)?;
    let words = words_of(alloc, reads)?;
    let contexts = contexts_told(alloc, model, of_terms, requests.contexts.len())?;
    let accesses = accesses_told(alloc, model, requests, of_terms)?;
    let memory = TableMemory {
        bytes: word_bytes(model),
        lo: requests.lo,
        hi: requests.hi,
        words: Seq::from_vec(words),
    };
    Ok(Image {
        memory,
        contexts,
        accesses,
    })
}

/// The image that values of the choices tell which solve the problem of the list, as `image_in` gives
/// it. The list is of the model.
///
/// It builds the problem again and finds the value of each term: memory for a number of 128 bits
/// for each term beside it, and time linear in the terms.
///
/// # Errors
///
/// `NoMemory` where memory ran out.
pub fn image_of(
    alloc: Global,
    model: &Accepted,
    requests: &Requests,
    values: &[u128],
) -> Result<Image, NoMemory>
    requires list { IsList (accepted_data model.now) requests.now }
    requires assignment { IsAssignment (table (accepted_data model.now) requests.now).terms values.now }
    requires solves { solves (table (accepted_data model.now) requests.now) values.now ≡ true }
    ensures image { let d = accepted_data model.now in IfOk result (λ image. image
        ≡ image_told (term_values (table d requests.now).terms values.now) d requests.now) }
    ensures satisfies { IfOk result (Satisfies (accepted_data model.now) requests.now) }
    ensures of_model { IfOk result (IsImage (accepted_data model.now)) }
    ensures matches { IfOk result (Matches requests.now) }
    ensures memory { IfOk result (λ image. IsMemory image.memory) }
    ensures words { IfOk result (ListsReads (accepted_data model.now)) }
{
    let encoded = build(alloc, model, requests)?;
    image_in(alloc, model, requests, &encoded, values)
}
