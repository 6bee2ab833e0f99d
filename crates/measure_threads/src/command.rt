//! The words of the command line.

use route_tensor::Grid;

/// What is measured.
#[derive(Drop)]
pub(crate) struct Command {
    pub(crate) grid: Grid,
    /// How many items each rank sends.
    pub(crate) items: u32,
    /// How many items travel together.
    pub(crate) buffer: Buffer,
    /// How often it is measured, after one run that isn't.
    pub(crate) times: u64,
}

/// How many items travel together: sizes for which drives are compiled.
#[derive(Clone, Copy, PartialEq, Eq, Debug)]
pub(crate) enum Buffer {
    One,
    Two,
    Eight,
    SixtyFour,
    /// 1,024
    Most,
}

/// The command that the words tell, `P N B [REPS] [GRID]`.
pub(crate) fn command_of(words: &[String]) -> Option<Command> {
    if words.len() < 3 || words.len() > 5 {
        return None;
    }
    let ranks = number(&words[0])?;
    let items = number(&words[1])?;
    let buffer = buffer_of(number(&words[2])?)?;
    let times = match words.get(3) {
        Some(word) => number(word)? as u64,
        None => 5,
    };
    let grid = match words.get(4) {
        Some(word) => grid_of(word)?,
        None => Grid::new(&[ranks]).ok()?,
    };
    if grid.ranks() != ranks {
        return None;
    }
    Some(Command {
        grid,
        items,
        buffer,
        times,
    })
}

/// The number that a word of digits writes.
fn number(word: &str) -> Option<u32> {
    word.parse::<u32>().ok()
}

fn buffer_of(size: u32) -> Option<Buffer> {
    match size {
        1 => Some(Buffer::One),
        2 => Some(Buffer::Two),
        8 => Some(Buffer::Eight),
        64 => Some(Buffer::SixtyFour),
        1024 => Some(Buffer::Most),
        _ => None,
    }
}

/// The grid that a word like `2x2x2` tells.
fn grid_of(word: &str) -> Option<Grid> {
    let mut dims = [0u32; 3];
    let mut hops = 0;
    for part in word.split('x') {
        if hops == 3 {
            return None;
        }
        dims[hops] = number(part)?;
        hops += 1;
    }
    Grid::new(&dims[..hops]).ok()
}
