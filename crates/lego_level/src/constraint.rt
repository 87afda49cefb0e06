use lego_base::Place;
use lego_term::Level;

/// Says that `low` is at most `high`. The place is where it comes from, and `None` marks the
/// constraint that every variable is at least 0.
#[derive(Debug, Clone, Copy, PartialEq, Eq)]
pub struct Constraint {
    pub low: Level,
    pub high: Level,
    pub place: Option<Place>,
}
