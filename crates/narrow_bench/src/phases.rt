use crate::openings::{Chain, Openings, Shape};
use crate::tally::Tally;
use qm_narrow::{ChainState, StepBuffers, may_pass, separators, step, step_into};
use qm_wind::Pane;
use std::alloc::{AllocError, Global};

/// What is timed.
#[derive(Clone, Copy)]
pub(crate) enum Phase {
    /// The separators of the first two openings of each chain.
    Separators,
    /// The step from the state that has gone through the first two openings through the third, put in the place of another
    /// state.
    Step,
    /// Whether the third opening of each chain may still be passed from each of these states.
    MayPass,
}

impl Phase {
    pub(crate) fn name(self) -> &'static str {
        match self {
            Phase::Separators => "separators",
            Phase::Step => "step",
            Phase::MayPass => "may_pass",
        }
    }

    /// Runs so many rounds.
    pub(crate) fn run(self, alloc: Global, shape: Shape, rounds: u32) -> Result<Tally, AllocError> {
        let chains = Openings::new(shape).chains(alloc)?;
        match self {
            Phase::Separators => all_separators(alloc, &chains, rounds),
            Phase::Step => all_steps(alloc, &chains, rounds),
            Phase::MayPass => all_may_pass(alloc, &chains, rounds),
        }
    }
}

fn all_separators(alloc: Global, chains: &Vec<Chain>, rounds: u32) -> Result<Tally, AllocError> {
    let mut tally = Tally::default();
    for _ in 0..rounds {
        for chain in chains {
            let planes = separators(alloc, &chain.first.winding, &chain.second.winding)?;
            tally = tally.with_planes(planes.len());
        }
    }
    Ok(tally)
}

/// A state that has gone through the first two openings of a chain, and the third one.
#[derive(Drop)]
struct Going {
    state: ChainState,
    next: Pane,
}

/// That of a chain; `None` where the step through the second opening blocks.
fn way_of(alloc: Global, chain: &Chain) -> Result<Option<Going>, AllocError> {
    let first = chain.first.pane()?;
    let second = chain.second.pane()?;
    let start = ChainState::start(alloc, &first)?;
    let Some(state) = step(alloc, &start, &second)? else {
        return Ok(None);
    };
    let next = chain.third.pane()?;
    Ok(Some(Going { state, next }))
}

/// Those of all chains.
fn ways_of(alloc: Global, chains: &Vec<Chain>) -> Result<Vec<Going>, AllocError> {
    let mut ways = Vec::new(alloc);
    for chain in chains {
        if let Some(way) = way_of(alloc, chain)? {
            ways.push(way)?;
        }
    }
    Ok(ways)
}

fn all_steps(alloc: Global, chains: &Vec<Chain>, rounds: u32) -> Result<Tally, AllocError> {
    let Some(chain) = chains.first() else {
        return Ok(Tally::default());
    };
    let first = chain.first.pane()?;
    let mut spare = ChainState::start(alloc, &first)?;
    let ways = ways_of(alloc, chains)?;
    steps_into(alloc, &mut spare, &ways, rounds)
}

/// So many rounds of steps, each put in the place of the same state.
fn steps_into(
    alloc: Global,
    spare: &mut ChainState,
    ways: &Vec<Going>,
    rounds: u32,
) -> Result<Tally, AllocError> {
    let mut buffers = StepBuffers::new(alloc);
    let mut tally = Tally::default();
    for _ in 0..rounds {
        for way in ways {
            let leads = step_into(alloc, &mut buffers, spare, &way.state, &way.next)?;
            tally = if leads {
                tally.with_step()
            } else {
                tally.with_blocked()
            };
        }
    }
    Ok(tally)
}

fn all_may_pass(alloc: Global, chains: &Vec<Chain>, rounds: u32) -> Result<Tally, AllocError> {
    let ways = ways_of(alloc, chains)?;
    let mut tally = Tally::default();
    for _ in 0..rounds {
        for way in &ways {
            tally = with_may_pass(tally, &way.state, &ways);
        }
    }
    Ok(tally)
}

/// With a call for the third opening of each chain.
fn with_may_pass(before: Tally, state: &ChainState, ways: &Vec<Going>) -> Tally {
    let mut tally = before;
    for way in ways {
        tally = if may_pass(state, &way.next) {
            tally.with_step()
        } else {
            tally.with_blocked()
        };
    }
    tally
}
