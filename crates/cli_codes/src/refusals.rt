//! What is refused of one-time codes.
ghost use Rattle.std.specs.Prelude.{◌≡◌, IfErr, option_map};
ghost use Rattle.cli_messages.specs.Phases.{IsPlainStop, Returns};
ghost use Rattle.cli_codes.specs.Codes.{IsCodeStop, code_refusal};

use cli_messages::{Reason, Stop, refused};
use otp_core::{OtpFail, read_otp_fields};
use std::alloc::Global;

/// The stop of a call for what an entry of this file, or a text for it, says of codes.
pub fn refused_code(alloc: Global, fail: OtpFail, file: &str) -> Stop
    ensures is { IsCodeStop fail file.now result }
    ensures plain { IsPlainStop result }
{
    match fail {
        OtpFail::NoOtp => refused(alloc, Reason::NoOtp, file),
        OtpFail::OtpForm(place) => refused(alloc, Reason::OtpForm(place), file),
        OtpFail::OtpUnknown(place) => refused(alloc, Reason::OtpUnknown(place), file),
        OtpFail::OtpLimit(_) => refused(alloc, Reason::OtpLimit, file),
        OtpFail::NoMemory => Stop::NoMemory,
    }
}

/// Tests the text that is to become the field `otp` of an entry of this file, where one is given: a
/// text that no codes are made from is refused, but for an empty one, which takes the field away.
#[tactic(auto, unfolding(crate::specs::Codes::code_refusal, otp_core::specs::Reading::otp_of_fields))]
pub fn check_code(alloc: Global, file: &str, text: Option<&[u8]>) -> Result<(), Stop>
    ensures told { Returns (λ done. done) result
        (code_refusal file.now (option_map (λ text. text.now) text.entry)) }
    ensures cause { IfErr result IsPlainStop }
{
    let Some(text) = text else {
        return Ok(());
    };
    if text.is_empty() {
        return Ok(());
    }
    match read_otp_fields(alloc, Some(text), None, None) {
        Ok(otp) => {
            drop(otp);
            Ok(())
        }
        Err(fail) => Err(refused_code(alloc, fail, file)),
    }
}
