//! The trace that is generated from a start number. Its text is written to any sink without
//! memory, and is good for every start number.
#![tactic(auto)]

mod generator;
mod laws;
mod load;
mod pages;

pub use generator::generate;
pub use laws::generated_texts_are_good;
pub use load::generated_text;
