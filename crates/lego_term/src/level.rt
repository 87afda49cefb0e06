/// A universe level: the fixed level `plus`, or the level variable `base` plus `plus`
/// (Harper and Pollack 1991). Scripts and inference keep `plus` at 1,000,001 or below; no call
/// here asks for it.
#[derive(Debug, Clone, Copy, PartialEq, Eq)]
pub struct Level {
    pub base: Option<u32>,
    pub plus: u32,
}
