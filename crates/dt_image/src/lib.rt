//! Memory images: what a processor is given to translate addresses with. An image holds table
//! memory, register values for each context, and accesses with their input values, all of one
//! model. The crate prints an image in its one text and reads the texts of images.
//!
//! Proved: `print_image` gives exactly the one text of an image of the model, and that text reads
//! back as the same image; `read_image` gives exactly the image that a text spells for the model,
//! and that is an image of the model, or the first bad line with the first of its causes; a fault
//! names exactly its line and its cause's word.
//!
//! Not proved: that both calls succeed where there is memory.
#![tactic(auto)]

mod draft;
mod entry;
mod fault;
mod image;
mod line;
mod print;
mod read;

pub use fault::ImageFault;
pub use image::{Image, ImageAccess};
pub use print::print_image;
pub use read::read_image;
