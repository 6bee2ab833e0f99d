//! What a handle may have.
use crate::cases::{AnyGroup, AnyRank};
use crate::elastic_rank::ElasticRank;

/// What a handle may have.
#[derive(Drop)]
pub enum Part {
    /// Nothing yet: the room for what is being made.
    Empty,
    Group(AnyGroup),
    Rank(AnyRank),
    Elastic(ElasticRank),
}

fn crosses<T: Send>(_value: &T) {}

fn part_crosses(part: &Part) {
    crosses(part);
}
