use caf_base::Team;

/// A split that an image has arrived at.
#[derive(Drop)]
pub struct Arrival {
    pub team: Team,
    /// The number of the split, from 1 among the team's.
    pub number: u32,
    pub colour: i64,
    pub key: i64,
}
