//! A Secret and the keys, each call once.
use secret_core::{Key, Key64, Secret};
use std::alloc::Global;
use std::test::Fail;

/// A Secret with room for six bytes, of which five are used.
fn passw(alloc: Global) -> Result<Secret, Fail> {
    let mut secret = Secret::with_room(alloc, 6)?;
    if secret.len() == 0 && secret.spare() == 6 {
        secret.push(b'p');
        secret.extend(b"assw");
    }
    Ok(secret)
}

/// Whether a Secret has these bytes, and room for this many more.
fn holds(secret: &Secret, bytes: &[u8], spare: usize) -> bool {
    secret.lend(0, secret.len()) == bytes && secret.spare() == spare
}

#[test]
fn a_secret_is_filled_and_lent(rt: HostRuntime) -> Result<(), Fail> {
    let secret = passw(rt.alloc())?;
    assert!(rt; holds(&secret, b"passw", 1));
    if secret.len() >= 3 {
        assert_eq!(rt; secret.lend(1, 3), b"as".as_slice());
    }
    Ok(())
}

#[test]
fn a_secret_is_changed_in_place_cut_and_copied(rt: HostRuntime) -> Result<(), Fail> {
    let mut secret = passw(rt.alloc())?;
    for byte in secret.lend_mut() {
        *byte ^= 0x20;
    }
    if secret.len() >= 2 {
        secret.cut(2);
    }
    assert_eq!(rt; (secret.len(), secret.spare()), (2, 4));
    let copy = secret.copy(rt.alloc())?;
    assert!(rt; holds(&copy, b"PA", 0));
    Ok(())
}

#[test]
fn a_key_lends_its_bytes_and_is_spent_as_zeros(rt: HostRuntime) {
    let mut key = Key::of(&[7; 32]);
    assert_eq!(rt; key.bytes(), &[7; 32]);
    key.bytes_mut()[31] = 1;
    assert_eq!(rt; (key.bytes()[30], key.bytes()[31]), (7, 1));
    key.clear();
    assert_eq!(rt; key.bytes(), &[0; 32]);
    key.release();
}

#[test]
fn a_long_key_lends_its_bytes_and_is_spent_as_zeros(rt: HostRuntime) {
    let mut key = Key64::of(&[9; 64]);
    key.bytes_mut()[0] = 2;
    assert_eq!(rt; (key.bytes()[0], key.bytes()[63]), (2, 9));
    key.clear();
    assert_eq!(rt; key.bytes(), &[0; 64]);
    key.release();
}
