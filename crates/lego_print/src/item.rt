use lego_term::{Mark, Term};

/// An entry as it is printed: the number of the constant that stands for it, its name's number,
/// its mark and type, and its body where it is a definition.
#[derive(Clone, Copy)]
pub struct Item<'a> {
    pub number: u32,
    pub name: u32,
    pub mark: Mark,
    pub ty: &'a Term,
    pub body: Option<&'a Term>,
}
