use crate::gate::Gate;
use qm_sight::RowSource;

/// A source of rows for the flow of a portal: it answers as another one does, and tells a gate each word.
#[derive(Drop)]
pub(crate) struct GatedRows<'a, S, G> {
    rows: S,
    gate: &'a G,
    portal: u64,
}

impl<'a, S, G> GatedRows<'a, S, G> {
    ghost use Rattle.std.specs.Prelude.{◌≡◌};

    /// The rows of a source, for the flow of a portal.
    pub(crate) fn over(rows: S, gate: &'a G, portal: u64) -> GatedRows<'a, S, G>
        ensures { result.rows ≡ rows }
    {
        GatedRows { rows, gate, portal }
    }

    /// The source, as it is now.
    pub(crate) fn into_rows(self) -> S
        ensures { result ≡ self.entry.rows }
    {
        let GatedRows { rows, .. } = self;
        rows
    }
}

impl<'a, S: RowSource, G: Gate> RowSource for GatedRows<'a, S, G> {
    ghost world = { λ gated. S.world gated.rows };

    ghost ceilings = { λ gated. S.ceilings gated.rows };

    ghost goes_on = { λ a b. S.goes_on a.rows b.rows };

    fn word(&mut self, portal: u64, k: u64) -> u64 {
        let word = self.rows.word(portal, k);
        self.gate.given(self.portal, portal, k, word);
        word
    }

    ghost goes_on_itself = { λ s. S.goes_on_itself s.rows };

    ghost goes_on_in_turn = { λ a b c. S.goes_on_in_turn a.rows b.rows c.rows };

    ghost same_world = { λ a b. S.same_world a.rows b.rows };

    ghost narrower = { λ a b. S.narrower a.rows b.rows };
}
