//! Reads the request of `schedules` from matches.
ghost use Rattle.std.specs.Prelude.{◌≡◌, Some, codes, IfSome, IsSomeAnd};
ghost use Rattle.clap.specs.Words.{found_of, rows_of};
ghost use Rattle.settings.specs.declared.plan.SchedulePlan.{SchedulePlan as Plan};
ghost use Rattle.requests.specs.declared.lists.ScheduleRequest.{ScheduleRequest as Lists};
ghost use Rattle.requests.specs.declared.covers.CoverRequest.{CoverRequest as Covering};
ghost use Rattle.command_line.specs.CommandLine.{CanBeDone, IsCover, IsSchedules};
ghost use Rattle.command_line.specs.OptionWords.{HasNumber};
ghost use Rattle.command_line.specs.ScheduleWords.{HasCover, HasExpect, HasLists, HasQueues, HasRecommended, HasSchedules, counts};

use crate::command::{Asked, completion_in};
use crate::covers::{cover_in, is_said};
use crate::drivers::driven_in;
use crate::expects::expect_in;
use crate::reading::{flag_in, number_in};
use clap::ArgMatches;
use requests::ScheduleRequest;
use settings::{SchedulePlan, Thresholds};

/// The recommended lists: seed, number of lists, moves per list, and maximum percentage of moves that do not happen.
const SEED: u32 = 82_599;

const COUNT: u32 = 4;

const MOVES: u32 = 2000;

const EXIT_REFUSED: u32 = 10;

/// Reads the request from matches of `schedules`: drawn lists, or with `--cover` lists that together meet every
/// reachable pair.
pub(crate) fn lists_in<'a>(matches: &ArgMatches<'a>) -> Option<Asked<'a>>
    ensures schedules { (request : Lists) → HasLists (rows_of (found_of matches.now)) request
        → IsSomeAnd result (λ a. IsSchedules a request) }
    ensures cover { (request : Covering) → HasCover (rows_of (found_of matches.now)) request
        → IsSomeAnd result (λ a. IsCover a request) }
    ensures can_be_done { IfSome result CanBeDone }
{
    if flag_in(matches, "cover") {
        Some(Asked::Cover(cover_in(matches)?))
    } else {
        Some(Asked::Schedules(drawn_in(matches)?))
    }
}

/// Reads the request for drawn lists: the recommended ones, those that a driver can follow, or those with the given
/// numbers.
fn drawn_in<'a>(matches: &ArgMatches<'a>) -> Option<ScheduleRequest>
    ensures { (request : Lists) → HasLists (rows_of (found_of matches.now)) request → result ≡ Some request }
{
    if flag_in(matches, "recommended") {
        recommended_in(matches)
    } else if is_said(matches, "driver") {
        driven_in(matches)
    } else {
        schedules_in(matches)
    }
}

/// Reads the request for the recommended lists. Returns `None` if an option changes their number, length or content.
fn recommended_in<'a>(matches: &ArgMatches<'a>) -> Option<ScheduleRequest>
    ensures { (request : Lists) → HasRecommended (rows_of (found_of matches.now)) request → result ≡ Some request }
{
    if counts(matches) {
        return None;
    }
    let plan = plan_in(matches, MOVES, EXIT_REFUSED, None)?;
    let expect = expect_in(matches)?;
    Some(ScheduleRequest {
        plan,
        seed: SEED,
        count: COUNT,
        expect,
    })
}

/// Whether an option is given that determines the number, length or content of drawn lists.
pub(crate) fn counts<'a>(matches: &ArgMatches<'a>) -> bool
    ensures { result ≡ counts (rows_of (found_of matches.now)) }
{
    is_said(matches, "seed")
        || is_said(matches, "moves")
        || is_said(matches, "count")
        || is_said(matches, "refused")
        || is_said(matches, "driver")
}

/// Reads the request for lists with a seed and a number of moves. Returns `None` if one of them is missing.
fn schedules_in<'a>(matches: &ArgMatches<'a>) -> Option<ScheduleRequest>
    ensures { (request : Lists) → HasSchedules (rows_of (found_of matches.now)) request → result ≡ Some request }
{
    let moves = number_in(matches, "moves")?;
    let refused = number_in(matches, "refused")?;
    let plan = plan_in(matches, moves, refused, None)?;
    request_of(matches, plan)
}

/// Reads the request for lists of this plan, with their seed and their number.
pub(crate) fn request_of<'a>(
    matches: &ArgMatches<'a>,
    plan: SchedulePlan,
) -> Option<ScheduleRequest>
    ensures said { (request : Lists) → HasNumber (rows_of (found_of matches.now)) (codes "seed") request.seed
        → HasNumber (rows_of (found_of matches.now)) (codes "count") request.count → HasExpect (rows_of (found_of matches.now)) request.expect
        → plan ≡ request.plan → result ≡ Some request }
    ensures planned { IfSome result (λ request. request.plan ≡ plan) }
{
    let seed = number_in(matches, "seed")?;
    let count = number_in(matches, "count")?;
    let expect = expect_in(matches)?;
    Some(ScheduleRequest {
        plan,
        seed,
        count,
        expect,
    })
}

/// Reads the plan of a list with this number of moves, for the queues in matches of `schedules`.
pub(crate) fn plan_in<'a>(
    matches: &ArgMatches<'a>,
    moves: u32,
    refused: u32,
    driver: Option<Thresholds>,
) -> Option<SchedulePlan>
    ensures said { (plan : Plan) → HasQueues (rows_of (found_of matches.now)) plan → moves ≡ plan.moves → refused ≡ plan.refused
        → driver ≡ plan.driver → result ≡ Some plan }
    ensures given { IfSome result (λ plan. (plan.moves ≡ moves) × (plan.refused ≡ refused) × (plan.driver ≡ driver)) }
{
    let ring = number_in(matches, "ring")?;
    let pairs = number_in(matches, "pairs")?;
    let enabled = !flag_in(matches, "off");
    let completion = completion_in(matches);
    let device_only = flag_in(matches, "device-only-real");
    Some(SchedulePlan {
        pairs,
        ring,
        enabled,
        completion,
        moves,
        refused,
        device_only,
        driver,
    })
}
