//! The line of an entry's code.
ghost use Rattle.std.specs.Prelude.{◌≡◌, ◌≤◌, ◌+◌, ◌++◌, IfOk, codes, map};
ghost use Rattle.vault_model.specs.Seen.{bare_field};
ghost use Rattle.otp_core.specs.Answers.{Answers, otp_seen};
ghost use Rattle.otp_core.specs.Codes.{IsWithin};
ghost use Rattle.cli_codes.specs.Codes as spec;
ghost use Rattle.cli_codes.specs.Codes.{last_digits, line_of};

use otp_core::{Otp, OtpFail, otp_code, read_otp};
use outside_core::NoMemory;
use secret_core::Secret;
use std::alloc::Global;
use vault_model::Field;

/// The first second of 1970, in seconds since the year 1.
const EPOCH: u64 = 62_135_596_800;

/// The most bytes of a line: eight digits and its end.
const LINE: usize = 9;

// Puts the last so many decimal digits of a number after a text that has room for them.
#[tactic(auto, unfolding(crate::specs::Codes::last_digits))]
fn push_digits(text: &mut Secret, count: u32, number: u32)
    requires { count ≤ text.old.spare }
    ensures bytes { text.new.bytes ≡ text.old.bytes ++ last_digits count number }
    ensures spare { text.new.spare + count ≡ text.old.spare }
{
    if count == 0 {
        return;
    }
    push_digits(text, count - 1, number / 10);
    text.push(b'0' + (number % 10) as u8);
}

// The line of the code of a secret, at a moment in seconds since 1970.
fn line_of(alloc: Global, otp: &Otp, unix: u64) -> Result<Secret, NoMemory>
    requires { IsWithin otp.now }
    ensures { IfOk result (λ line. line.bytes ≡ spec.line_of (otp_seen otp.now) unix) }
{
    let mut line = Secret::with_room(alloc, LINE)?;
    push_digits(&mut line, otp.digits, otp_code(otp, unix));
    line.push(b'\n');
    Ok(line)
}

/// The line of the code that the fields of an entry give at a moment in seconds since the year 1:
/// all its digits, and a line feed. It is in memory that is wiped.
///
/// # Errors
///
/// Those of [`read_otp`], and after them [`OtpFail::OtpLimit`] of a moment before 1970.
#[tactic(auto, unfolding(crate::specs::Codes::code_line))]
pub fn code_line(alloc: Global, fields: &[Field], now: u64) -> Result<Secret, OtpFail>
    ensures { Answers (λ line. line.bytes) (spec.code_line (map bare_field fields.now) now) result }
{
    let otp = read_otp(alloc, fields)?;
    if now < EPOCH {
        drop(otp);
        return Err(OtpFail::OtpLimit(now));
    }
    let line = line_of(alloc, &otp, now - EPOCH);
    drop(otp);
    match line {
        Ok(line) => Ok(line),
        Err(NoMemory) => Err(OtpFail::NoMemory),
    }
}
