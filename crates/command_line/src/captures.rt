//! Reads the requests of `from-capture` and `to-capture` from matches.
ghost use Rattle.std.specs.Prelude.{◌≡◌, ℕ, Some, IfSome};
ghost use Rattle.clap.specs.Words.{found_of, rows_of};
ghost use Rattle.capture.specs.declared.options.ReadOptions.{ReadOptions};
ghost use Rattle.requests.specs.Conversions.{IsPlaced};
ghost use Rattle.requests.specs.declared.conversion.CaptureRequest.TheVariants.{FromCapture, ToCapture};
ghost use Rattle.command_line.specs.CaptureWords.{HasFromCapture, HasToCapture};

use crate::reading::{place_in, reading_in};
use clap::ArgMatches;
use requests::CaptureRequest;

/// Reads the request from matches of `from-capture`.
pub(crate) fn from_capture_in<'a>(matches: &ArgMatches<'a>) -> Option<CaptureRequest>
    ensures value { (port queue : ℕ) (reading : ReadOptions) → HasFromCapture (rows_of (found_of matches.now)) port queue reading
        → result ≡ Some (FromCapture port queue reading) }
    ensures placed { IfSome result IsPlaced }
{
    let port = place_in(matches, "port")?;
    let queue = place_in(matches, "queue")?;
    let reading = reading_in(matches);
    placed(CaptureRequest::FromCapture {
        port,
        queue,
        reading,
    })
}

/// Reads the request from matches of `to-capture`.
pub(crate) fn to_capture_in<'a>(matches: &ArgMatches<'a>) -> Option<CaptureRequest>
    ensures value { (port : ℕ) → HasToCapture (rows_of (found_of matches.now)) port → result ≡ Some (ToCapture port) }
    ensures placed { IfSome result IsPlaced }
{
    let port = place_in(matches, "port")?;
    placed(CaptureRequest::ToCapture { port })
}

/// Returns the request, if its port and queue exist. `clap` accepts no other.
fn placed(request: CaptureRequest) -> Option<CaptureRequest>
    ensures value { IsPlaced request → result ≡ Some request }
    ensures placed { IfSome result IsPlaced }
{
    if request.is_placed() {
        Some(request)
    } else {
        None
    }
}
