//! The lines of what a store tells of itself.

/// What stands behind a name.
#[derive(Clone, Copy)]
pub enum Amount {
    /// A whole number.
    Count(u64),
    /// So many thousandths, written with three digits behind the point.
    Millis(u64),
    /// A word, as a version. It has no space in it, no quotation mark and no end of a line.
    Word(&'static str),
    /// Sixteen bytes, as 32 hexadecimal digits in lower case.
    Hex([u8; 16]),
}

/// What a number is of, as the code of a refusal.
#[derive(Clone, Copy)]
pub struct Label {
    pub key: &'static str,
    pub value: Amount,
}

/// What tells a number from others of the same name.
#[derive(Clone, Copy)]
pub enum Labels {
    None,
    One(Label),
    Two(Label, Label),
}

/// A line: a name of letters, digits and `_`, its labels, and its number. A line whose name the setup or the status
/// has is left out of the text, and so is one with an end of a line inside.
#[derive(Clone, Copy)]
pub struct Figure {
    pub name: &'static str,
    pub labels: Labels,
    pub amount: Amount,
}
