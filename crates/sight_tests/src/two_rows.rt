ghost use Rattle.std.specs.Prelude.{◌≡◌};
ghost use Rattle.std.specs.Coded.{codes};
ghost use Rattle.qm_partition.specs.inner.TreeCode.{tree_code};
ghost use Rattle.sight_tests.specs.inner.SameRows.{AreSameRows, itself, in_turn, one_world, none_narrower};

use qm_sight::{RowSource, Rows};
use test_numbers::Random;

/// A source that holds two rows of each portal. A word is that of the wide row, or what both rows have of it; which of the two
/// is told by a generator that each call moves on. The wide rows are its ceilings.
#[derive(Drop)]
pub struct TwoRows<'a> {
    wide: Rows<'a>,
    narrow: Rows<'a>,
    random: Random,
    ghost of_one_world: { narrow.world ≡ wide.world } by { Prim.hlevel (codes, tree_code) },
}

impl<'a> TwoRows<'a> {
    /// Rows of one world.
    pub fn of(wide: Rows<'a>, narrow: Rows<'a>) -> TwoRows<'a>
        requires { narrow.world ≡ wide.world }
        ensures { result.wide ≡ wide.entry }
    {
        TwoRows {
            wide,
            narrow,
            random: Random::new(1),
        }
    }
}

impl<'a> RowSource for TwoRows<'a> {
    ghost world = { λ s. s.wide.world };

    ghost ceilings = { λ s. s.wide.rows };

    ghost goes_on = { λ a b. AreSameRows a.wide a.narrow b.wide b.narrow };

    fn word(&mut self, portal: u64, k: u64) -> u64 {
        let wide = self.wide.word(portal, k);
        let narrow = self.narrow.word(portal, k);
        if self.random.next() >> 30 == 0 {
            wide
        } else {
            wide & narrow
        }
    }

    ghost goes_on_itself = { λ s. itself s.wide s.narrow };

    ghost goes_on_in_turn = { λ a b c. in_turn a.wide a.narrow b.wide b.narrow c.wide c.narrow };

    ghost same_world = { λ a b. one_world a.wide a.narrow b.wide b.narrow };

    ghost narrower = { λ a b. none_narrower a.wide a.narrow b.wide b.narrow };
}
