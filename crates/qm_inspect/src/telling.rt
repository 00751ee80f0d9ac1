//! What is told of several queries.

ghost use Rattle.std.specs.Prelude.{IfOk};
ghost use Rattle.qm_formats.specs.TreeFile.{IsValidFile};
ghost use Rattle.qm_inspect.specs.Told.{IsTold};

use crate::asking::answer;
use crate::numbered::block_counts;
use crate::parts::Parts;
use crate::printing::put_line;
use crate::room::room_for_lines;
use qm_answers::QueryFault;
use qm_commands::Query;
use qm_file::TreeFile;
use std::alloc::{AllocError, Global};

/// What is told of queries.
#[derive(Drop)]
pub enum Told {
    /// The lines of the answers, in order.
    Lines(Vec<u8>),
    /// The first query that is refused, by its number from 1 on. Then nothing is said of the others.
    Refused { number: u64, fault: QueryFault },
}

/// Asks a file all queries: the lines of all answers, or the first refusal alone.
pub fn tell(alloc: Global, file: &TreeFile, queries: &[Query]) -> Result<Told, AllocError>
    requires { IsValidFile file.now }
    ensures { IfOk result (λ told. IsTold file.now queries.now told) }
{
    let parts = Parts::of(alloc, file)?;
    let counts = block_counts(alloc, file.tree.all_leaves())?;
    let room = room_for_lines(file, &parts, &counts, queries);
    let mut lines = String::with_capacity(alloc, room)?;
    for k in 0..queries.len() {
        match answer(file, &parts, &counts, &queries[k]) {
            Ok(answer) => put_line(&mut lines, file, &parts, &answer)?,
            Err(fault) => {
                return Ok(Told::Refused {
                    number: k as u64 + 1,
                    fault,
                });
            }
        }
    }
    Ok(Told::Lines(lines.into_bytes()))
}
