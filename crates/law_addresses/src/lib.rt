// The addresses of a sheet's items, in their order, and the item that an address names: specs/ has both, proofs/ shows that each undoes the other. No code.
#![tactic(auto)]

// Where a search for a position among entries ends: the entry, and which of its positions it is.
#[derive(Clone, Copy)]
pub struct Spot {
    pub entry: usize,
    pub left: u64,
}
