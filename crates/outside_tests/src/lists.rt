//! Texts, bytes and lists, each call once where memory is enough.
use outside_core::{Bytes, List, NoMemory, Text};
use std::alloc::Global;
use std::test::Fail;

fn text(alloc: Global, chars: &[char]) -> Result<Text, NoMemory> {
    let mut text = Text::new(alloc);
    for c in chars {
        text.push(*c).map_err(|_| NoMemory)?;
    }
    Ok(text)
}

#[test]
fn a_text_grows_by_characters(rt: HostRuntime) -> Result<(), Fail> {
    let grown = text(rt.alloc(), &['a', 'ß'])?;
    assert_eq!(rt; (grown.as_str(), grown.len()), ("aß", 3));
    let same = Text::of(rt.alloc(), "aß")?;
    assert!(rt; grown == same);
    let less = Text::of(rt.alloc(), "a")?;
    assert!(rt; less < grown);
    Ok(())
}

/// A tree: a type that leads back to itself through a `List`.
#[derive(Debug, Drop)]
struct Folder {
    name: u8,
    folders: List<Folder>,
}

/// A folder of the folders 3 and 2, in this order; each call that grows is tried once.
fn nested(alloc: Global) -> Result<Folder, Folder> {
    let mut outer = Folder {
        name: 1,
        folders: List::new(alloc),
    };
    for name in [2, 3] {
        outer.folders.insert(
            0,
            Folder {
                name,
                folders: List::new(alloc),
            },
        )?;
    }
    outer.folders.push(Folder {
        name: 4,
        folders: List::new(alloc),
    })?;
    Ok(outer)
}

fn names(folder: &Folder) -> [Option<u8>; 4] {
    let at = |i: usize| folder.folders.get(i).map(|f| f.name);
    [at(0), at(1), at(2), at(3)]
}

#[test]
fn a_folder_holds_folders(rt: HostRuntime) -> Result<(), Fail> {
    let mut outer = nested(rt.alloc())?;
    assert_eq!(rt; names(&outer), [Some(3), Some(2), Some(4), None]);
    outer.folders.fit();
    if let Some(inner) = outer.folders.get_mut(2) {
        inner.name = 7;
    }
    assert_eq!(rt; names(&outer), [Some(3), Some(2), Some(7), None]);
    Ok(())
}

#[test]
fn folders_change_places_and_leave(rt: HostRuntime) -> Result<(), Fail> {
    let mut outer = nested(rt.alloc())?;
    if outer.folders.len() == 3 {
        outer.folders.swap(0, 2);
        assert_eq!(rt; outer.folders.remove(0).name, 4);
    }
    assert_eq!(rt; names(&outer), [Some(2), Some(3), None, None]);
    assert_eq!(rt; outer.folders.as_slice().len(), 2);
    Ok(())
}

fn bytes(alloc: Global, piece: &[u8], last: u8) -> Result<Bytes, NoMemory> {
    let mut bytes = Bytes::new(alloc);
    bytes.add(piece)?;
    bytes.push(last).map_err(|_| NoMemory)?;
    Ok(bytes)
}

#[test]
fn bytes_compare_as_lists(rt: HostRuntime) -> Result<(), Fail> {
    let some = bytes(rt.alloc(), b"ab", b'c')?;
    assert_eq!(rt; (some.as_slice(), some.len()), (b"abc".as_slice(), 3));
    for (piece, last, same, less) in [
        (b"ab", b'c', true, false),
        (b"aa", b'z', false, true),
        (b"ab", b'd', false, false),
    ] {
        let other = bytes(rt.alloc(), piece, last)?;
        assert_eq!(rt; (other == some, other < some), (same, less));
    }
    Ok(())
}

fn pieces(alloc: Global, many: usize) -> Result<List<Bytes>, NoMemory> {
    let mut list = List::new(alloc);
    for _ in 0..many {
        list.push(bytes(alloc, b"ab", b'c')?).map_err(|_| NoMemory)?;
    }
    Ok(list)
}

#[test]
fn lists_compare_by_their_items(rt: HostRuntime) -> Result<(), Fail> {
    let one = pieces(rt.alloc(), 1)?;
    let same = pieces(rt.alloc(), 1)?;
    let two = pieces(rt.alloc(), 2)?;
    assert!(rt; one == same);
    assert!(rt; one < two);
    Ok(())
}
