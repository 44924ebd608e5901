//! Answers questions about primitives, keys, files, markup and times, and compares its answers
//! with what is known. Each line of standard input asks a question, its name and what it is asked
//! of, and gives the answer after ` = `; for each a line is printed that ends in `ok`, or says what
//! was found instead. Empty lines and lines that begin with `#` are passed over.
#![tactic(auto)]

mod argon;
mod block_ciphers;
mod bytes;
mod escapes;
mod headers;
mod inner_fields;
mod keys;
mod macs;
mod markup;
mod one_time_codes;
mod question;
mod refusals;
mod safes;
mod spelling;
mod stream_ciphers;
mod times;

use crate::question::{Fault, Question};
use crate::spelling::spelled;
use std::alloc::Global;
use std::io::{self, BufRead, BufReader};

// The answer to a question: what a primitive computes, or else what is found in a file.
fn found(alloc: Global, question: &Question<'_>) -> Result<String, Fault> {
    match question.name() {
        "aes-256" => block_ciphers::aes(alloc, question),
        "aes-256-cbc" => block_ciphers::chained_aes(alloc, question),
        "twofish-256" => block_ciphers::twofish(alloc, question),
        "twofish-256-cbc" => block_ciphers::chained_twofish(alloc, question),
        "padding-length" => block_ciphers::padding_length(alloc, question),
        "unpadded-length" => block_ciphers::unpadded_length(alloc, question),
        "chacha20" => stream_ciphers::chacha20(alloc, question),
        "salsa20" => stream_ciphers::salsa20(alloc, question),
        "inner-stream" => stream_ciphers::inner_stream(alloc, question),
        "hmac-sha-256" => macs::hmac(alloc, question),
        "blocks" => macs::blocks(alloc, question),
        "blake2b" => argon::digest(alloc, question),
        "argon2d" => argon::argon2d(alloc, question),
        "argon2id" => argon::argon2id(alloc, question),
        "code-of-uri" => one_time_codes::of_uri(alloc, question),
        "code-of-seed" => one_time_codes::of_seed(alloc, question),
        _ => found_in_files(alloc, question),
    }
}

// What is found in a file, or else in a text.
fn found_in_files(alloc: Global, question: &Question<'_>) -> Result<String, Fault> {
    match question.name() {
        "password-safe" => safes::opened(alloc, question),
        "header" => headers::header(alloc, question),
        "header-parts" => headers::header_parts(alloc, question),
        "inner-fields" => inner_fields::inner_fields(alloc, question),
        "inner-parts" => inner_fields::inner_parts(alloc, question),
        _ => found_in_texts(alloc, question),
    }
}

// What is found in a text, or else which key is computed.
fn found_in_texts(alloc: Global, question: &Question<'_>) -> Result<String, Fault> {
    let text = question.text();
    match question.name() {
        "pieces" => markup::pieces(alloc, text),
        "outcome" => markup::outcome(alloc, text),
        "open" => markup::open(alloc, text),
        "nested" => markup::nested(alloc, text),
        "unescaped" => escapes::unescaped(alloc, text),
        "escaped" => escapes::escaped(alloc, text),
        "attribute" => escapes::attribute(alloc, text),
        "seconds" => times::seconds(alloc, text),
        "date" => times::date(alloc, text),
        name => keys::computed(alloc, name, question),
    }
}

// What becomes of a question with this answer: `ok`, or what was found instead.
fn verdict(alloc: Global, question: &Question<'_>, answer: &str) -> Result<String, Fault> {
    let answer = spelled(alloc, answer)?;
    let found = found(alloc, question)?;
    if found.as_bytes() == answer.as_slice() {
        return Ok(String::from_str(alloc, "ok")?);
    }
    Ok(format!(in alloc; "found {found}")?)
}

// Prints what becomes of a line of the input, which has this number.
fn judge(rt: &impl Print, alloc: Global, number: usize, line: &str) -> io::Result<()> {
    let Some((asked, answer)) = line.split_once(" = ") else {
        return println!(rt; "line {number}: no answer is given");
    };
    let question = Question::new(alloc, asked)?;
    let verdict = match verdict(alloc, &question, answer) {
        Ok(verdict) => verdict,
        Err(fault) => fault.words(alloc)?,
    };
    let name = question.name();
    println!(rt; "line {number}, {name}: {verdict}")
}

fn main(rt: HostRuntime) -> io::Result<()> {
    let alloc = rt.alloc();
    for (index, line) in BufReader::new(alloc, rt.reader())?.lines(alloc).enumerate() {
        let line = line?;
        if line.is_empty() || line.starts_with('#') {
            continue;
        }
        judge(&rt, alloc, index.saturating_add(1), &line)?;
    }
    Ok(())
}
