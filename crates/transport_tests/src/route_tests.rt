//! Rows worked by hand: a route of three hops, and the grids that are refused.

use bale_items::Tag;
use route_tensor::{Grid, GridError};
use std::test::Fail;

fn tag(d1: u8, d2: u8, d3: u8) -> Tag {
    Tag { d1, d2, d3 }
}

#[test]
fn three_hops_by_hand(rt: HostRuntime) -> Result<(), Fail> {
    let grid = Grid::new(&[2, 2, 2])?;
    assert_eq!(rt; (grid.ranks(), grid.hops(), grid.links()), (8, 3, 48));
    let places = [
        grid.place(1, 6, 0),
        grid.place(1, 6, 1),
        grid.place(1, 6, 2),
        grid.place(1, 6, 3),
    ];
    assert_eq!(rt; places, [1, 0, 2, 6]);
    let links = [grid.ends(2), grid.ends(17), grid.ends(37)];
    assert_eq!(rt; links, [(1, 1, 0), (2, 0, 2), (3, 2, 6)]);
    let numbers = [grid.link(1, 1, 0), grid.link(2, 0, 2), grid.link(3, 2, 6)];
    assert_eq!(rt; numbers, [2, 17, 37]);
    let first = grid.tag_first(1, 6);
    let second = grid.tag_next(first, 1, 1, 0);
    let third = grid.tag_next(second, 2, 0, 2);
    let tags = [first, second, third];
    assert_eq!(rt; tags, [tag(0, 1, 1), tag(1, 0, 1), tag(1, 0, 0)]);
    let pairs = [
        grid.pair_of(first, 1, 1, 0),
        grid.pair_of(second, 2, 0, 2),
        grid.pair_of(third, 3, 2, 6),
    ];
    assert_eq!(rt; pairs, [(1, 6), (1, 6), (1, 6)]);
    Ok(())
}

#[test]
fn grid_refusals(rt: HostRuntime) -> Result<(), Fail> {
    let refused: [(&[u32], GridError); 6] = [
        (&[], GridError::Order),
        (&[1, 1, 1, 1], GridError::Order),
        (&[0], GridError::ZeroDim),
        (&[65], GridError::TooManyRanks),
        (&[9, 8], GridError::TooManyRanks),
        (&[9, 0], GridError::ZeroDim),
    ];
    for (dims, error) in refused {
        assert_eq!(rt; Grid::new(dims).err(), Some(error));
    }
    assert_eq!(rt; Grid::new(&[64, 1, 1])?.links(), 4224);
    Ok(())
}
