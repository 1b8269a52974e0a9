//! Reads the request of `schedules --driver` from matches.
ghost use Rattle.std.specs.Prelude.{◌≡◌, ℕ, Bool, None, Some, codes, false, true, IfSome, IsSomeAnd};
ghost use Rattle.clap.specs.Words.{Text, first_of, found_of, rows_of};
ghost use Rattle.clap.specs.declared.error.kind.ErrorKind.TheVariants.{ArgumentConflict, ValueValidation};
ghost use Rattle.settings.specs.Thresholds.{Fit, IsThresholds};
ghost use Rattle.settings.specs.declared.thresholds.Thresholds.{Thresholds as Driver};
ghost use Rattle.requests.specs.declared.lists.ScheduleRequest.{ScheduleRequest as Lists};
ghost use Rattle.command_line.specs.ScheduleWords.{Excludes, FitNone, FollowsDriver, HasDriver, HasText, strays};

use crate::covers::is_said;
use crate::lists::{plan_in, request_of};
use crate::reading::{flag_in, number_in, text_in, word_in};
use clap::ArgMatches;
use clap::error::ErrorKind;
use requests::ScheduleRequest;
use settings::Thresholds;

/// The error for `--driver` together with an option that a driver cannot follow.
const NOT_DRIVEN: &str =
    "--driver cannot be combined with --off, --head, --refused, --device-only-real, --cover or --recommended";

/// The error for a malformed `--driver`.
const NO_THRESHOLDS: &str =
    "--driver takes refill=F,report=R,clean=T, for example refill=32,report=32,clean=32";

/// The error for thresholds that do not fit the rings.
const NOT_FITTING: &str =
    "--driver needs --ring N of at least 32 and thresholds that fit it: F < N - 1, 1 <= R <= 32, R divides N, R <= T < N - 3, R + T <= N";

/// Reads the request for lists that a driver can follow. Returns `None` if its thresholds are malformed or do not fit
/// the rings, if an option is given that a driver cannot follow, or if the seed or the number of moves is missing.
pub(crate) fn driven_in<'a>(matches: &ArgMatches<'a>) -> Option<ScheduleRequest>
    ensures said { (request : Lists) → HasDriver (rows_of (found_of matches.now)) request → result ≡ Some request }
    ensures follows { IfSome result FollowsDriver }
    ensures refused { strays (rows_of (found_of matches.now)) ≡ true → result ≡ None }
{
    if strays(matches) {
        return None;
    }
    let thresholds = Thresholds::parse(word_in(matches, "driver")?)?;
    let moves = number_in(matches, "moves")?;
    let plan = plan_in(matches, moves, 0, Some(thresholds))?;
    if !thresholds.fit(plan.ring) {
        return None;
    }
    request_of(matches, plan)
}

/// Whether an option of drawn lists is given that a driver cannot follow.
fn strays<'a>(matches: &ArgMatches<'a>) -> bool
    ensures { result ≡ strays (rows_of (found_of matches.now)) }
{
    is_said(matches, "off")
        || is_said(matches, "head")
        || is_said(matches, "refused")
        || is_said(matches, "device-only-real")
}

/// Returns the error for matches with `--driver`, if it is at fault.
pub(crate) fn driver_fault_in<'a>(found: &ArgMatches<'a>) -> Option<(ErrorKind, &'static str)>
    ensures undriven { first_of (codes "driver") (rows_of (found_of found.now)) ≡ None → result ≡ None }
    ensures conflict { (text : Text) (n : ℕ) (excluded : Bool) → HasText (rows_of (found_of found.now)) text n excluded → excluded ≡ true
        → IsSomeAnd result (λ fault. fault.0 ≡ ArgumentConflict) }
    ensures value { (text : Text) (n : ℕ) (excluded : Bool) → HasText (rows_of (found_of found.now)) text n excluded → excluded ≡ false → FitNone text n
        → IsSomeAnd result (λ fault. fault.0 ≡ ValueValidation) }
    ensures fit { (text : Text) (n : ℕ) (excluded : Bool) (t : Driver) → HasText (rows_of (found_of found.now)) text n excluded → excluded ≡ false
        → IsThresholds text t → Fit n t → result ≡ None }
{
    let text = text_in(found, "driver")?;
    let ring = number_in(found, "ring")?;
    fault_of(text, ring, excludes(found))
}

/// Whether an option is given that excludes `--driver`.
fn excludes<'a>(found: &ArgMatches<'a>) -> bool
    ensures { (excluded : Bool) → Excludes (rows_of (found_of found.now)) excluded → result ≡ excluded }
{
    let cover = flag_in(found, "cover");
    let recommended = flag_in(found, "recommended");
    strays(found) || cover || recommended
}

/// Returns the error for the text of `--driver` and rings of this length.
fn fault_of(text: &str, ring: u32, excluded: bool) -> Option<(ErrorKind, &'static str)>
    ensures conflict { excluded ≡ true → IsSomeAnd result (λ fault. fault.0 ≡ ArgumentConflict) }
    ensures value { excluded ≡ false → FitNone text.now ring → IsSomeAnd result (λ fault. fault.0 ≡ ValueValidation) }
    ensures fit { (t : Driver) → excluded ≡ false → IsThresholds text.now t → Fit ring t → result ≡ None }
{
    if excluded {
        return Some((ErrorKind::ArgumentConflict, NOT_DRIVEN));
    }
    match Thresholds::parse(text) {
        None => Some((ErrorKind::ValueValidation, NO_THRESHOLDS)),
        Some(thresholds) if thresholds.fit(ring) => None,
        Some(_) => Some((ErrorKind::ValueValidation, NOT_FITTING)),
    }
}
