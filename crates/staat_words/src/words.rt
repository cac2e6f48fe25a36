// The reading of the command words.
ghost use Rattle.std.specs.Prelude.{IfOk, Some, map, option_map, string_bytes};
ghost use Rattle.clap.specs.Words.{found_of, rows_of, subcommand_rows_of};
ghost use Rattle.staat_words.specs.Requests.{ReadsWords, HasBounds, IsAskedWithin, IsGraphRequestWithin};
ghost use Rattle.staat_words.specs.Requests.{IsPairRequest};
ghost use Rattle.staat_words.specs.Requests.{asked_in, cells_in, check_in, decide_in, explode_in, graph_in};
ghost use Rattle.staat_words.specs.Requests.{linear_in, local_in, pair_in, plan_in, request, request_in};
ghost use Rattle.staat_words.specs.declared.request.Request.TheVariants.{Pair, Look, Graph, Plan, Check};
ghost use Rattle.staat_words.specs.declared.request.Request.TheVariants.{Cells, Drill, Explode, Linear, Local};
ghost use Rattle.staat_words.specs.declared.request.Request.TheVariants.{Decide, Confirm, Blocks};

use crate::arguments::{
    certificate_of, digits_of, drill_in, input_of, is_given, limit_of, name_in, planes_of,
    vector_in,
};
use crate::command::staat_command;
use crate::request::{
    Asked, CellsRequest, CheckRequest, DecideRequest, ExplodeRequest, GraphRequest, LinearRequest,
    LocalRequest, PairRequest, PlanRequest, Request, RequestRefusal,
};
use clap::ArgMatches;
use clap::error::ErrorKind;
use staat_limits::{MOST_CELL_PLANES, MOST_PARTS, MOST_PLANES, MOST_PRODUCT_PARTS};
use staat_vec::{DIRECTION, NORMAL};
use std::alloc::Global;

// What is asked about, where there may be so many files.
#[tactic(auto, unfolding(crate::specs::Requests::asked_in))]
fn asked_of(alloc: Global, matches: &ArgMatches<'_>, most: u32) -> Result<Asked, RequestRefusal>
    ensures answers { ReadsWords (asked_in most (rows_of (found_of matches.now))) result }
    ensures bounds { IfOk result (IsAskedWithin most) }
{
    let digits = digits_of(matches)?;
    let input = input_of(alloc, matches, most)?;
    Ok(Asked { digits, input })
}

#[tactic(auto, unfolding(crate::specs::Requests::pair_in))]
fn pair_of(alloc: Global, matches: &ArgMatches<'_>) -> Result<PairRequest, RequestRefusal>
    ensures answers { ReadsWords (pair_in (rows_of (found_of matches.now))) result }
    ensures bounds { IfOk result IsPairRequest }
{
    let digits = digits_of(matches)?;
    let along = vector_in(matches, "along", DIRECTION)?;
    let wall = vector_in(matches, "wall", NORMAL)?;
    let first = name_in(alloc, matches, "first")?;
    let second = name_in(alloc, matches, "second")?;
    Ok(PairRequest {
        digits,
        along,
        wall,
        first,
        second,
    })
}

// A direction, and what is asked about, where there may be so many files.
#[tactic(auto, unfolding(crate::specs::Requests::graph_in))]
fn graph_of(
    alloc: Global,
    matches: &ArgMatches<'_>,
    most: u32,
) -> Result<GraphRequest, RequestRefusal>
    ensures answers { ReadsWords (graph_in most (rows_of (found_of matches.now))) result }
    ensures bounds { IfOk result (IsGraphRequestWithin most) }
{
    let along = vector_in(matches, "along", DIRECTION)?;
    let asked = asked_of(alloc, matches, most)?;
    Ok(GraphRequest { asked, along })
}

#[tactic(auto, unfolding(crate::specs::Requests::plan_in))]
fn plan_of(alloc: Global, matches: &ArgMatches<'_>) -> Result<Request, RequestRefusal>
    ensures answers { ReadsWords (option_map Plan (plan_in (rows_of (found_of matches.now)))) result }
    ensures bounds { IfOk result HasBounds }
{
    let robust = is_given(matches, "robust");
    let certificate = certificate_of(matches)?;
    let planes = planes_of(matches, MOST_PLANES)?;
    let asked = asked_of(alloc, matches, MOST_PARTS)?;
    Ok(Request::Plan(PlanRequest {
        asked,
        planes: limit_of(robust, planes),
        robust,
        certificate,
    }))
}

// The certificate's file, and what is asked about, where there may be so many files.
#[tactic(auto, unfolding(crate::specs::Requests::check_in))]
fn check_of(
    alloc: Global,
    matches: &ArgMatches<'_>,
    most: u32,
) -> Result<CheckRequest, RequestRefusal>
    ensures answers { ReadsWords (check_in most (rows_of (found_of matches.now))) result }
    ensures bounds { IfOk result (λ request. IsAskedWithin most request.asked) }
{
    let certificate = name_in(alloc, matches, "certificate")?;
    let asked = asked_of(alloc, matches, most)?;
    Ok(CheckRequest { asked, certificate })
}

#[tactic(auto, unfolding(crate::specs::Requests::cells_in))]
fn cells_of(alloc: Global, matches: &ArgMatches<'_>) -> Result<Request, RequestRefusal>
    ensures answers { ReadsWords (option_map Cells (cells_in (rows_of (found_of matches.now)))) result }
    ensures bounds { IfOk result HasBounds }
{
    let planes = planes_of(matches, MOST_CELL_PLANES)?;
    let asked = asked_of(alloc, matches, MOST_PARTS)?;
    Ok(Request::Cells(CellsRequest { asked, planes }))
}

#[tactic(auto, unfolding(crate::specs::Requests::explode_in))]
fn explode_of(alloc: Global, matches: &ArgMatches<'_>) -> Result<Request, RequestRefusal>
    ensures answers { ReadsWords (option_map Explode (explode_in (rows_of (found_of matches.now)))) result }
    ensures bounds { IfOk result HasBounds }
{
    let off = is_given(matches, "off");
    let planes = planes_of(matches, MOST_PLANES)?;
    let asked = asked_of(alloc, matches, MOST_PARTS)?;
    Ok(Request::Explode(ExplodeRequest { asked, planes, off }))
}

#[tactic(auto, unfolding(crate::specs::Requests::linear_in))]
fn linear_of(alloc: Global, matches: &ArgMatches<'_>) -> Result<Request, RequestRefusal>
    ensures answers { ReadsWords (option_map Linear (linear_in (rows_of (found_of matches.now)))) result }
    ensures bounds { IfOk result HasBounds }
{
    let planes = planes_of(matches, MOST_PLANES)?;
    let asked = asked_of(alloc, matches, MOST_PARTS)?;
    Ok(Request::Linear(LinearRequest { asked, planes }))
}

#[tactic(auto, unfolding(crate::specs::Requests::local_in))]
fn local_of(alloc: Global, matches: &ArgMatches<'_>) -> Result<Request, RequestRefusal>
    ensures answers { ReadsWords (option_map Local (local_in (rows_of (found_of matches.now)))) result }
    ensures bounds { IfOk result HasBounds }
{
    let planes = planes_of(matches, MOST_PLANES)?;
    let asked = asked_of(alloc, matches, MOST_PARTS)?;
    Ok(Request::Local(LocalRequest { asked, planes }))
}

#[tactic(auto, unfolding(crate::specs::Requests::decide_in))]
fn decide_of(alloc: Global, matches: &ArgMatches<'_>) -> Result<Request, RequestRefusal>
    ensures answers { ReadsWords (option_map Decide (decide_in (rows_of (found_of matches.now)))) result }
    ensures bounds { IfOk result HasBounds }
{
    let rest = is_given(matches, "rest");
    let certificate = is_given(matches, "cert");
    let asked = asked_of(alloc, matches, MOST_PRODUCT_PARTS)?;
    Ok(Request::Decide(DecideRequest {
        asked,
        rest,
        certificate,
    }))
}

// The request of a subcommand: a line for each command.
#[tactic(auto, unfolding(crate::specs::Requests::request_in))]
fn request_named(
    alloc: Global,
    name: &str,
    matches: &ArgMatches<'_>,
) -> Result<Request, RequestRefusal>
    ensures answers { ReadsWords (request_in (Some (name.now, rows_of (found_of matches.now)))) result }
    ensures bounds { IfOk result HasBounds }
{
    match name {
        "pair" => pair_of(alloc, matches).map(Request::Pair),
        "look" => asked_of(alloc, matches, MOST_PARTS).map(Request::Look),
        "graph" => graph_of(alloc, matches, MOST_PARTS).map(Request::Graph),
        "plan" => plan_of(alloc, matches),
        "check" => check_of(alloc, matches, MOST_PARTS).map(Request::Check),
        "cells" => cells_of(alloc, matches),
        "drill" => drill_in(matches)
            .ok_or(RequestRefusal::Usage)
            .map(Request::Drill),
        "explode" => explode_of(alloc, matches),
        "linear" => linear_of(alloc, matches),
        "local" => local_of(alloc, matches),
        "decide" => decide_of(alloc, matches),
        "confirm" => check_of(alloc, matches, MOST_PRODUCT_PARTS).map(Request::Confirm),
        "blocks" => graph_of(alloc, matches, MOST_PRODUCT_PARTS).map(Request::Blocks),
        _ => Err(RequestRefusal::Usage),
    }
}

// The request of the subcommand that was entered.
#[tactic(auto, unfolding(crate::specs::Requests::request_in))]
fn request_from(alloc: Global, matches: &ArgMatches<'_>) -> Result<Request, RequestRefusal>
    ensures answers { ReadsWords (request_in (subcommand_rows_of matches.now)) result }
    ensures bounds { IfOk result HasBounds }
{
    match matches.subcommand() {
        Some((name, inner)) => request_named(alloc, name, inner),
        None => Err(RequestRefusal::Usage),
    }
}

/// The request of the words after the program's name. Usage comes exactly where they make none.
pub fn request_of(alloc: Global, words: &Vec<String>) -> Result<Request, RequestRefusal>
    ensures answers { ReadsWords (request (map string_bytes words.now.items)) result }
    ensures bounds { IfOk result HasBounds }
{
    let command = staat_command(alloc)?;
    match command.try_get_matches_from(words.as_slice()) {
        Ok(matches) => request_from(alloc, &matches),
        Err(error) => match error.kind() {
            ErrorKind::OutOfMemory => Err(RequestRefusal::OutOfMemory),
            _ => Err(RequestRefusal::Usage),
        },
    }
}
