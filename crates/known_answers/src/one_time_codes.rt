//! One-time codes.

ghost use Rattle.std.specs.Prelude.{IfOk};
ghost use Rattle.otp_core.specs.Codes.{IsWithin};

use crate::question::{Fault, Question};
use crate::refusals::{named, numbered};
use otp_core::{Otp, OtpFail, otp_code, read_otp_fields};
use std::alloc::{AllocError, Global};

// The refusal of a text, with its number.
fn refusal(alloc: Global, fail: OtpFail) -> Result<String, Fault> {
    match fail {
        OtpFail::NoOtp => named(alloc, "NoOtp"),
        OtpFail::OtpForm(offset) => numbered(alloc, "OtpForm", offset as u64),
        OtpFail::OtpUnknown(offset) => numbered(alloc, "OtpUnknown", offset as u64),
        OtpFail::OtpLimit(number) => numbered(alloc, "OtpLimit", number),
        OtpFail::NoMemory => named(alloc, "NoMemory"),
    }
}

// A code with all its digits.
fn spelled(alloc: Global, code: u32, digits: u32) -> Result<String, AllocError> {
    match digits {
        6 => format!(in alloc; "{code:06}"),
        7 => format!(in alloc; "{code:07}"),
        _ => format!(in alloc; "{code:08}"),
    }
}

// The code at a moment, or why there is none.
fn answer(alloc: Global, otp: Result<Otp, OtpFail>, moment: u64) -> Result<String, Fault>
    requires { IfOk otp (λ otp. IsWithin otp) }
{
    match otp {
        Ok(otp) => {
            let code = spelled(alloc, otp_code(&otp, moment), otp.digits);
            drop(otp);
            Ok(code?)
        }
        Err(fail) => refusal(alloc, fail),
    }
}

/// The code at a moment, in seconds since 1970: moment, the value of the field `otp`.
pub fn of_uri(alloc: Global, question: &Question<'_>) -> Result<String, Fault> {
    let moment = question.number(1)?;
    let uri = question.word(2).as_bytes();
    answer(alloc, read_otp_fields(alloc, Some(uri), None, None), moment)
}

/// The same of the older fields: moment, the value of `TOTP Seed`, and that of `TOTP Settings` where
/// there is one.
pub fn of_seed(alloc: Global, question: &Question<'_>) -> Result<String, Fault> {
    let moment = question.number(1)?;
    let seed = question.word(2).as_bytes();
    let settings = if question.len() > 3 {
        Some(question.word(3).as_bytes())
    } else {
        None
    };
    answer(
        alloc,
        read_otp_fields(alloc, None, Some(seed), settings),
        moment,
    )
}
