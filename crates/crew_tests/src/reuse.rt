//! What one pass publishes, another pass of the same board is answered.

ghost use Rattle.std.specs.Prelude.{◌≡◌, ◌<◌, length};
ghost use Rattle.qm_board.specs.PassOf.{world_of, IsPassOf};

use crate::recorded::{Answer, Recorded};
use crate::runs::corner_rooms;
use qm_base::base;
use qm_bits::BitRow;
use qm_board::{BoardRows, Pass, RowBoard};
use qm_flow::flow;
use qm_lines::LineStore;
use qm_portal::World;
use qm_sight::Rows;
use std::alloc::{AllocError, Global};
use std::test::Fail;
use test_worlds::portal_between;

/// Publishes the row of a portal, as it is found over coarse rows, and answers it.
fn publish(
    alloc: Global,
    world: &World,
    board: &RowBoard,
    pass: &mut Pass,
    portal: u64,
) -> Result<BitRow, AllocError>
    requires same_world { world_of board.now ≡ world.now }
    requires pass { IsPassOf board.now pass.old }
    requires portal_in_range { portal < length world.now.portals }
    ensures pass { IsPassOf board.now pass.new }
{
    let mut rows = Rows::over(world, base(alloc, world)?);
    let row = flow(alloc, world, &mut rows, portal, &mut LineStore::new(alloc))?;
    board.publish(pass, portal, &row);
    Ok(row)
}

/// Publishes the rows of all portals through one pass, and answers them.
fn publish_all(
    alloc: Global,
    world: &World,
    board: &RowBoard,
    pass: &mut Pass,
) -> Result<Vec<BitRow>, AllocError>
    requires same_world { world_of board.now ≡ world.now }
    requires pass { IsPassOf board.now pass.old }
{
    let mut rows = Vec::new(alloc);
    for portal in 0..world.portals() {
        rows.push(publish(alloc, world, board, pass, portal)?)?;
    }
    Ok(rows)
}

fn is_first_word(row: &BitRow, word: u64) -> bool {
    row.len() > 0 && row.word(0) == word
}

/// Whether the answer is the word of one of these rows, which have one word each.
fn is_of(answer: &Answer, rows: &[BitRow]) -> bool {
    let is_word = rows
        .get(answer.portal as usize)
        .is_some_and(|row| is_first_word(row, answer.word));
    answer.k == 0 && is_word
}

/// Whether the flow of a portal through a pass that was split off before all rows were published through another one is answered
/// only published words, and some that are not coarse ones.
fn is_answered_published(alloc: Global, world: &World, portal: u64) -> Result<bool, AllocError> {
    world.own_portals();
    if portal >= world.portals() {
        return Ok(false);
    }
    let coarse = base(alloc, world)?;
    let (board, pass) = RowBoard::new(alloc, world, base(alloc, world)?)?;
    let (mut first, second) = board.split(pass);
    let published = publish_all(alloc, world, &board, &mut first)?;
    let mut rows = Recorded::over(alloc, BoardRows::over(&board, second));
    flow(alloc, world, &mut rows, portal, &mut LineStore::new(alloc))?;
    let Some(answers) = rows.into_answers() else {
        return Err(AllocError);
    };
    Ok(
        answers.iter().all(|answer| is_of(answer, &published))
            && answers
                .iter()
                .any(|answer| !is_of(answer, coarse.as_slice())),
    )
}

#[test]
fn passes_are_answered_published_words(rt: HostRuntime) -> Result<(), Fail> {
    let world = corner_rooms(rt.alloc())?;
    let right = match portal_between(&world, 0, 1) {
        Some(portal) => is_answered_published(rt.alloc(), &world, portal)?,
        None => false,
    };
    assert!(rt; right);
    Ok(())
}
