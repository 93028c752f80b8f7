//! The exports that give a text.

ghost use Rattle.std.specs.Prelude.{◌≡◌};
ghost use Rattle.lowered_text.specs.Texts.{graph_and_inputs, map_of};
ghost use Rattle.driver.specs.Disassembled.{listing_of, listing_with_literals_of, picture_of, upgrade_of};
ghost use Rattle.commands.specs.Assembled.{PrintsAssembled};
ghost use Rattle.commands.specs.Lowered.{PrintsLowered};
ghost use Rattle.commands.specs.Served.{PrintsCheck, PrintsObject, PrintsOf, PrintsPicture};
ghost use Rattle.in_turn.specs.Printed.{PrintsMeaningOn, PrintsObjectRunOn, PrintsRunOn};
ghost use Rattle.ets_core.specs.Given.{Gives};
ghost use Rattle.ets_core.specs.Taken.{PrintsTaking, config_of, take_of};

use crate::giving::{give, is_too_long, refuse_length};
use crate::taking::{EtsHow, print_object_run, print_run};
use answers::EtsResult;
use commands::assembling::print_assembled;
use commands::lowered::{print_lowered, print_map};
use commands::serving::{
    print_check, print_code_picture, print_graph_picture, print_listing,
    print_listing_with_literals, print_object, print_upgrade,
};
use in_turn::printing::print_meaning_on;
use std::alloc::Global;

/// Lowers a program: the text of its graph, and after it the inputs that follow the program.
#[unsafe(no_mangle)]
pub extern "C" fn ets_lower(alloc: Global, program: &[u8], text: &mut [u8]) -> EtsResult
    ensures { Gives (λ r old new. PrintsLowered graph_and_inputs r old new program.now) program.now text.old text.new result }
{
    if is_too_long(program) {
        return refuse_length(text);
    }
    let mut printed = Vec::new(alloc);
    let outcome = print_lowered(alloc, program, &mut printed);
    give(outcome, &printed, text)
}

/// Maps the graph of a program: for each node a line with its place in the program.
#[unsafe(no_mangle)]
pub extern "C" fn ets_map(alloc: Global, program: &[u8], text: &mut [u8]) -> EtsResult
    ensures { Gives (λ r old new. PrintsLowered map_of r old new program.now) program.now text.old text.new result }
{
    if is_too_long(program) {
        return refuse_length(text);
    }
    let mut printed = Vec::new(alloc);
    let outcome = print_map(alloc, program, &mut printed);
    give(outcome, &printed, text)
}

/// Checks a graph: `ok`, or what is wrong with it first.
#[unsafe(no_mangle)]
pub extern "C" fn ets_check(alloc: Global, graph: &[u8], text: &mut [u8]) -> EtsResult
    ensures { Gives (λ r old new. PrintsCheck r old new graph.now) graph.now text.old text.new result }
{
    if is_too_long(graph) {
        return refuse_length(text);
    }
    let mut printed = Vec::new(alloc);
    let outcome = print_check(alloc, graph, &mut printed);
    give(outcome, &printed, text)
}

/// Compiles a graph: the bytes of its object.
#[unsafe(no_mangle)]
pub extern "C" fn ets_compile(alloc: Global, graph: &[u8], text: &mut [u8]) -> EtsResult
    ensures { Gives (λ r old new. PrintsObject r old new graph.now) graph.now text.old text.new result }
{
    if is_too_long(graph) {
        return refuse_length(text);
    }
    let mut printed = Vec::new(alloc);
    let outcome = print_object(alloc, graph, &mut printed);
    give(outcome, &printed, text)
}

/// Lists an object.
#[unsafe(no_mangle)]
pub extern "C" fn ets_list(alloc: Global, object: &[u8], text: &mut [u8]) -> EtsResult
    ensures { Gives (λ r old new. PrintsOf listing_of r old new object.now) object.now text.old text.new result }
{
    if is_too_long(object) {
        return refuse_length(text);
    }
    let mut printed = Vec::new(alloc);
    let outcome = print_listing(object, &mut printed);
    give(outcome, &printed, text)
}

/// Lists an object, and its table of literals.
#[unsafe(no_mangle)]
pub extern "C" fn ets_list_literals(alloc: Global, object: &[u8], text: &mut [u8]) -> EtsResult
    ensures { Gives (λ r old new. PrintsOf listing_with_literals_of r old new object.now) object.now text.old text.new result }
{
    if is_too_long(object) {
        return refuse_length(text);
    }
    let mut printed = Vec::new(alloc);
    let outcome = print_listing_with_literals(object, &mut printed);
    give(outcome, &printed, text)
}

/// Writes an object as version 2.
#[unsafe(no_mangle)]
pub extern "C" fn ets_upgrade(alloc: Global, object: &[u8], text: &mut [u8]) -> EtsResult
    ensures { Gives (λ r old new. PrintsOf upgrade_of r old new object.now) object.now text.old text.new result }
{
    if is_too_long(object) {
        return refuse_length(text);
    }
    let mut printed = Vec::new(alloc);
    let outcome = print_upgrade(object, &mut printed);
    give(outcome, &printed, text)
}

/// Assembles a listing: the bytes of the object.
#[unsafe(no_mangle)]
pub extern "C" fn ets_assemble(alloc: Global, listing: &[u8], text: &mut [u8]) -> EtsResult
    ensures { Gives (λ r old new. PrintsAssembled r old new listing.now) listing.now text.old text.new result }
{
    if is_too_long(listing) {
        return refuse_length(text);
    }
    let mut printed = Vec::new(alloc);
    let outcome = print_assembled(alloc, listing, &mut printed);
    give(outcome, &printed, text)
}

/// Draws a graph, as text for Graphviz.
#[unsafe(no_mangle)]
pub extern "C" fn ets_draw(alloc: Global, graph: &[u8], text: &mut [u8]) -> EtsResult
    ensures { Gives (λ r old new. PrintsPicture r old new graph.now) graph.now text.old text.new result }
{
    if is_too_long(graph) {
        return refuse_length(text);
    }
    let mut printed = Vec::new(alloc);
    let outcome = print_graph_picture(alloc, graph, &mut printed);
    give(outcome, &printed, text)
}

/// Draws the code of an object, as text for Graphviz.
#[unsafe(no_mangle)]
pub extern "C" fn ets_draw_code(alloc: Global, object: &[u8], text: &mut [u8]) -> EtsResult
    ensures { Gives (λ r old new. PrintsOf picture_of r old new object.now) object.now text.old text.new result }
{
    if is_too_long(object) {
        return refuse_length(text);
    }
    let mut printed = Vec::new(alloc);
    let outcome = print_code_picture(object, &mut printed);
    give(outcome, &printed, text)
}

/// Runs a graph on these inputs: the report.
#[unsafe(no_mangle)]
pub extern "C" fn ets_run_text(
    alloc: Global,
    graph: &[u8],
    inputs: &[i64],
    how: &EtsHow,
    text: &mut [u8],
) -> EtsResult
    ensures { Gives (λ r old new. PrintsTaking (λ take. PrintsRunOn graph.now inputs.now (config_of how.now) take) (take_of how.now.take) r old new) graph.now text.old text.new
        result }
{
    if is_too_long(graph) {
        return refuse_length(text);
    }
    let mut printed = Vec::new(alloc);
    let outcome = print_run(alloc, graph, inputs, how, &mut printed);
    give(outcome, &printed, text)
}

/// Runs an object on these inputs: the report.
#[unsafe(no_mangle)]
pub extern "C" fn ets_exec_text(
    alloc: Global,
    object: &[u8],
    inputs: &[i64],
    how: &EtsHow,
    text: &mut [u8],
) -> EtsResult
    ensures { Gives (λ r old new. PrintsTaking (λ take. PrintsObjectRunOn object.now inputs.now (config_of how.now) take) (take_of how.now.take) r old new) object.now text.old text.new
        result }
{
    if is_too_long(object) {
        return refuse_length(text);
    }
    let mut printed = Vec::new(alloc);
    let outcome = print_object_run(alloc, object, inputs, how, &mut printed);
    give(outcome, &printed, text)
}

/// Runs the meaning of a graph on these inputs, for at most `steps` activities: what it gives.
#[unsafe(no_mangle)]
pub extern "C" fn ets_mean_text(
    alloc: Global,
    graph: &[u8],
    inputs: &[i64],
    steps: u64,
    text: &mut [u8],
) -> EtsResult
    ensures { Gives (λ r old new. PrintsMeaningOn graph.now inputs.now steps r old new) graph.now text.old text.new
        result }
{
    if is_too_long(graph) {
        return refuse_length(text);
    }
    let mut printed = Vec::new(alloc);
    let outcome = print_meaning_on(alloc, graph, inputs, steps, &mut printed);
    give(outcome, &printed, text)
}
