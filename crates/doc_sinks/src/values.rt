//! Elements with one value.

ghost use Rattle.std.specs.Prelude.{◌≡◌, ◌≤◌, [], length, true};
ghost use Rattle.doc_sinks.specs.States.{after_piece};
ghost use Rattle.doc_spelling.specs.Moments.{iso_at};
ghost use Rattle.doc_spelling.specs.Pieces as piece;
ghost use Rattle.doc_spelling.specs.Ranges.{are_bytes, fits_i32, fits_i64, fits_u64, is_stamp, is_uuid};
ghost use Rattle.doc_spelling.specs.Values as row;

use crate::attributes::Mark;
use crate::elements::{put_leaf, put_secret};
use crate::sink::TextSink;
use base64::engine::general_purpose::STANDARD;
use itoa::Buffer;
use outside_core::Text;
use secret_core::Secret;
use uuid_core::Uuid;
use vault_model::{DocForm, Stamp, Tri, iso_of};

/// Puts an element with at most 16 bytes in base64.
fn put_short<O: TextSink>(out: &mut O, name: &str, bytes: &[u8])
    requires { length bytes.now ≤ 16 }
    ensures puts { O.state out.new
        ≡ after_piece O.step (O.state out.old) (piece.base64_piece name.now [] bytes.now) }
    ensures fits { are_bytes bytes.now ≡ true }
{
    let mut buffer = [0; 24];
    let len = match STANDARD.encode_slice(bytes, &mut buffer) {
        Ok(len) => len,
        Err(_) => 0,
    };
    put_leaf(out, name, Mark::Unmarked, &buffer[..len]);
}

/// Puts an element with an id.
pub fn put_id<O: TextSink>(out: &mut O, name: &str, id: Uuid)
    ensures puts { O.state out.new
        ≡ after_piece O.step (O.state out.old) (row.id_piece name.now id) }
    ensures fits { is_uuid id ≡ true }
{
    put_short(out, name, id.as_bytes());
}

/// The text of a time.
fn iso_text(stamp: Stamp) -> [u8; 20]
    ensures { result ≡ iso_at stamp }
{
    iso_of(stamp)
}

/// Puts an element with a time.
pub fn put_time<O: TextSink>(out: &mut O, form: DocForm, name: &str, stamp: Stamp)
    ensures puts { O.state out.new
        ≡ after_piece O.step (O.state out.old) (row.time_piece form name.now stamp) }
    ensures fits { is_stamp stamp ≡ true }
{
    let seconds = stamp.seconds();
    match form {
        DocForm::Plain | DocForm::V3 => put_leaf(out, name, Mark::Unmarked, &iso_text(stamp)),
        DocForm::V4 => put_short(out, name, &seconds.to_le_bytes()),
    }
}

/// Puts an element with a number.
pub fn put_number<O: TextSink>(out: &mut O, name: &str, number: u64)
    ensures puts { O.state out.new
        ≡ after_piece O.step (O.state out.old) (row.number_piece name.now number) }
    ensures fits { fits_u64 number ≡ true }
{
    let mut buffer = Buffer::new();
    put_leaf(out, name, Mark::Unmarked, buffer.format(number).as_bytes());
}

/// Puts an element with a number of 64 bits that may be below 0.
pub fn put_signed<O: TextSink>(out: &mut O, name: &str, number: &i64)
    ensures puts { O.state out.new
        ≡ after_piece O.step (O.state out.old) (row.signed_piece name.now number.now) }
    ensures fits { fits_i64 number.now ≡ true }
{
    let mut buffer = Buffer::new();
    put_leaf(out, name, Mark::Unmarked, buffer.format(*number).as_bytes());
}

/// Puts an element with a number of 32 bits that may be below 0.
pub fn put_small_signed<O: TextSink>(out: &mut O, name: &str, number: &i32)
    ensures puts { O.state out.new
        ≡ after_piece O.step (O.state out.old) (row.signed_piece name.now number.now) }
    ensures fits { fits_i32 number.now ≡ true }
{
    let mut buffer = Buffer::new();
    put_leaf(out, name, Mark::Unmarked, buffer.format(*number).as_bytes());
}

/// Puts an element with a truth value.
pub fn put_bool<O: TextSink>(out: &mut O, name: &str, value: bool)
    ensures { O.state out.new
        ≡ after_piece O.step (O.state out.old) (row.bool_piece name.now value) }
{
    if value {
        put_leaf(out, name, Mark::Unmarked, b"True");
    } else {
        put_leaf(out, name, Mark::Unmarked, b"False");
    }
}

/// Puts an element with a choice that a group may take from its parent.
pub fn put_tri<O: TextSink>(out: &mut O, name: &str, choice: Tri)
    ensures { O.state out.new
        ≡ after_piece O.step (O.state out.old) (row.tri_piece name.now choice) }
{
    match choice {
        Tri::Inherit => put_leaf(out, name, Mark::Unmarked, b"null"),
        Tri::No => put_leaf(out, name, Mark::Unmarked, b"False"),
        Tri::Yes => put_leaf(out, name, Mark::Unmarked, b"True"),
    }
}

/// Puts an element with a text.
pub fn put_text<O: TextSink>(out: &mut O, name: &str, text: &Text)
    ensures { O.state out.new
        ≡ after_piece O.step (O.state out.old) (piece.text_piece name.now text.now) }
{
    put_leaf(out, name, Mark::Unmarked, text.as_str().as_bytes());
}

/// All bytes of a secret.
pub fn whole(secret: &Secret) -> &[u8]
    ensures { result.now ≡ secret.now.bytes }
{
    secret.lend(0, secret.len())
}

/// Puts an element with a value that is hidden when it is shown.
fn put_hidden_value<O: TextSink>(out: &mut O, form: DocForm, name: &str, value: &[u8])
    ensures { O.state out.new
        ≡ after_piece O.step (O.state out.old) (row.value_piece form name.now value.now true) }
{
    match form {
        DocForm::Plain => put_leaf(out, name, Mark::InMemory, value),
        DocForm::V3 | DocForm::V4 => put_secret(out, name, Mark::Unmarked, value),
    }
}

/// Puts an element with a value that may be hidden.
pub fn put_value<O: TextSink>(out: &mut O, form: DocForm, name: &str, value: &Secret, hidden: bool)
    ensures { O.state out.new
        ≡ after_piece O.step (O.state out.old)
        (row.value_piece form name.now value.now.bytes hidden) }
{
    let value = whole(value);
    if hidden {
        put_hidden_value(out, form, name, value);
    } else {
        put_leaf(out, name, Mark::Unmarked, value);
    }
}
