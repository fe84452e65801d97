// What start and every call are lent beside the store and the record.

// The rule table, and the list of the rows whose formulas are judged.
#[derive(Clone, Copy)]
pub struct Setup<'a> {
    pub table: &'a [u32],
    pub list: &'a [u32],
}
