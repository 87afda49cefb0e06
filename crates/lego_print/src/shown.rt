/// How universes are printed: with the values of their levels, where a level variable has
/// the item at its number, and 0 behind the end; or with their levels hidden.
#[derive(Clone, Copy)]
pub enum Shown<'a> {
    Least(&'a [u64]),
    Hidden,
}
