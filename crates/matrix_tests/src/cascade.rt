//! Tests of the layers' public calls: worked examples, and which matrices of a layer are added up, and when.

mod adding;
mod compactions;
mod handed;
mod layers;
