// What a written whole number says. Document 01's number of each case stands in specs/.

// Why digits have no value: they are not of the form, or too many, leading zeros aside where any number of them may be written.
#[derive(Clone, Copy)]
pub enum NumberError {
    NotForm,
    TooLong,
}

// The coordinate that stands at a place of a text, and the place after it.
#[derive(Clone, Copy)]
pub struct Taken {
    pub coordinate: Result<i64, NumberError>,
    pub next: usize,
}

// Digits that stand at a place of a text: their value, and the place after them.
#[derive(Clone, Copy)]
pub struct Digits {
    pub value: u64,
    pub next: usize,
}
