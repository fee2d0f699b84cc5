// What a written decimal says. Document 01's number of each case stands in specs/.

// What a decimal is worth, in millionths.
#[derive(Clone, Copy)]
pub struct Amount {
    pub millionths: i64,
}

// A decimal to the nearest millionth, and whether it had to be rounded.
#[derive(Clone, Copy)]
pub struct Decimal {
    pub amount: Amount,
    pub rounded: bool,
}
