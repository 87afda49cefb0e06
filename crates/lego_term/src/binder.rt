/// Whether an argument is written or inserted.
#[derive(Debug, Clone, Copy, PartialEq, Eq)]
pub enum Mark {
    Plain,
    Implicit,
}

/// The name, by its number, and the mark of a bound variable. Neither has a part in
/// conversion or typing.
#[derive(Debug, Clone, Copy, PartialEq, Eq)]
pub struct Binder {
    pub name: Option<u32>,
    pub mark: Mark,
}
