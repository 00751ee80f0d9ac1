//! From a map to the bytes of its tree file and its listing, and what is printed of it.

ghost use Rattle.std.specs.Prelude.{◌≡◌, ◌≤◌, IfOk, true};
ghost use Rattle.qm_grammar.specs.Valid.{IsValidMap};
ghost use Rattle.std.specs.Option.{option_map};
ghost use Rattle.qm_commands.specs.declared.map_command.MapCommand.TheVariants.{Compile};
ghost use Rattle.qm_statement.specs.Output.{IsListed, IsOutputOf};
ghost use Rattle.qm_make.specs.inner.Made.{output_of};
ghost use Rattle.qm_make.specs.inner.PutOut.{IsDonePutOut, IsLeakPutOut, IsPutOut, done_output};

use crate::made::Product;
use crate::outcome::Outcome;
use crate::printed::{leak_text, summary_text};
use qm_commands::Options;
use qm_compiler::{Compiled, compile};
use qm_crew::Gate;
use qm_file::{TreeFile, encode};
use qm_mapfile::MapFile;
use qm_portal::World;
use qm_prt::print;
use qm_statement::Summary;
use std::alloc::{AllocError, Global};
use std::thread::Threads;

/// Compiles a map to the bytes of a tree file, and to a listing where one is asked for.
pub fn compile_to_file<R: Threads + Sync, G: Gate + Sync>(
    rt: &R,
    alloc: Global,
    map: &MapFile,
    options: Options,
    listed: bool,
    gate: &G,
) -> Result<Product, AllocError>
    requires valid { IsValidMap map.now }
    requires some { 1 ≤ options.threads }
    requires not_too_many { options.threads ≤ 64 }
    ensures { IfOk result (λ product. IsOutputOf (Compile options listed) map.now (output_of product)) }
{
    let compiled = compile(rt, alloc, map, &options, gate)?;
    put_out(alloc, listed, compiled)
}

/// The bytes of what a map compiled to, with what is printed of it.
fn put_out(alloc: Global, listed: bool, compiled: Compiled) -> Result<Product, AllocError>
    ensures { IfOk result (λ product. IsPutOut listed compiled (output_of product)) }
{
    match compiled {
        Compiled::Done {
            file,
            world,
            summary,
        } => put_out_done(alloc, listed, file, world, &summary),
        Compiled::Leak {
            file,
            entity,
            trail,
        } => put_out_leak(alloc, &file, entity, trail.as_slice()),
    }
}

/// What is put out where no entity leaks. The world is let go of before the bytes of the tree are made.
fn put_out_done(
    alloc: Global,
    listed: bool,
    file: TreeFile,
    world: World,
    summary: &Summary,
) -> Result<Product, AllocError>
    ensures { IfOk result (λ product. IsDonePutOut listed file world summary.now (output_of product)) }
{
    let listing = listing_of(alloc, listed, world)?;
    put_out_listed(alloc, &file, listing, summary)
}

/// The bytes of a tree file with a summary, beside a listing that is made.
fn put_out_listed(
    alloc: Global,
    file: &TreeFile,
    listing: Option<Vec<u8>>,
    summary: &Summary,
) -> Result<Product, AllocError>
    ensures { IfOk result (λ product. output_of product ≡ done_output file.now (option_map (λ bytes. bytes.items) listing) summary.now) }
{
    let text = summary_text(alloc, summary)?;
    let file = encode(alloc, file)?;
    Ok(Product {
        file,
        listing,
        outcome: Outcome::Done(text),
    })
}

/// What is put out where an entity leaks.
fn put_out_leak(
    alloc: Global,
    file: &TreeFile,
    entity: u64,
    trail: &[u64],
) -> Result<Product, AllocError>
    ensures { IfOk result (λ product. IsLeakPutOut file.now entity trail.now (output_of product)) }
{
    let text = leak_text(alloc, entity, trail)?;
    let file = encode(alloc, file)?;
    Ok(Product {
        file,
        listing: None,
        outcome: Outcome::Leak(text),
    })
}

/// The text of a listing of a world, where one is asked for. The world is let go of.
fn listing_of(alloc: Global, listed: bool, world: World) -> Result<Option<Vec<u8>>, AllocError>
    ensures { IfOk result (λ listing. IsListed listed world (option_map (λ bytes. bytes.items) listing)) }
{
    if listed {
        print_world(alloc, &world)
    } else {
        Ok(None)
    }
}

/// The text of the listing of a world.
fn print_world(alloc: Global, world: &World) -> Result<Option<Vec<u8>>, AllocError>
    ensures { IfOk result (λ listing. IsListed true world.now (option_map (λ bytes. bytes.items) listing)) }
{
    let mut bytes = Vec::new(alloc);
    print(alloc, world, &mut bytes)?;
    Ok(Some(bytes))
}
