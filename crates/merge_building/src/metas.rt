//! What a document says of itself, copied from what documents lend.
ghost use Rattle.std.specs.Prelude.{◌≡◌, [], IfOk, OnOk};
ghost use Rattle.merge_nodes.specs.Shapes.{meta_of};

use merge_nodes::shapes::ShapeMeta;
use merge_tables::icons::{LentIcon, LentItem};
use outside_core::{Bytes, List, NoMemory, Text};
use std::alloc::Global;
use uuid_core::Uuid;
use vault_making::copies::{copy_item, copy_text, put_last};
use vault_model::{Bin, Icon, Item, Meta, MetaSettings, Timed};

/// Bytes, copied.
fn made_bytes(alloc: Global, bytes: &Bytes) -> Result<Bytes, NoMemory>
    ensures { IfOk result (λ copy. copy ≡ bytes.now) }
{
    let mut copy = Bytes::new(alloc);
    match copy.add(bytes.as_slice()) {
        Ok(()) => Ok(copy),
        Err(fail) => {
            drop(copy);
            Err(fail)
        }
    }
}

/// Puts a copy of a text in the place of another. A refusal means that memory ran out.
fn set_text(alloc: Global, to: &mut Text, text: &Text) -> Result<(), NoMemory>
    ensures { OnOk result (to.new ≡ text.now) }
{
    *to = copy_text(alloc, text)?;
    Ok(())
}

/// No text, with the time of the change of another.
fn bare_text(alloc: Global, text: &Timed<Text>) -> Timed<Text>
    ensures { result ≡ record text.now { value = [] } }
{
    Timed {
        changed: text.changed,
        value: Text::new(alloc),
    }
}

/// A bin, copied with the time of its change.
fn made_bin(bin: &Timed<Bin>) -> Timed<Bin>
    ensures { result ≡ bin.now }
{
    Timed {
        changed: bin.changed,
        value: bin.value,
    }
}

/// An id, copied with the time of its change.
fn made_id(id: &Timed<Uuid>) -> Timed<Uuid>
    ensures { result ≡ id.now }
{
    Timed {
        changed: id.changed,
        value: id.value,
    }
}

/// Settings without their color, copied with the time of their change.
fn bare_settings(alloc: Global, settings: &Timed<MetaSettings>) -> Timed<MetaSettings>
    ensures { result ≡ record settings.now { value = record settings.now.value { color = [] } } }
{
    let from = &settings.value;
    Timed {
        changed: settings.changed,
        value: MetaSettings {
            color: Text::new(alloc),
            days: from.days,
            key_rec: from.key_rec,
            key_force: from.key_force,
            protect: from.protect,
            history_items: from.history_items,
            history_size: from.history_size,
            key_force_once: from.key_force_once,
        },
    }
}

/// An icon, copied.
fn made_icon(alloc: Global, icon: &Icon) -> Result<Icon, NoMemory>
    ensures { IfOk result (λ copy. copy ≡ icon.now) }
{
    let bytes = made_bytes(alloc, &icon.bytes)?;
    match copy_text(alloc, &icon.name) {
        Ok(name) => Ok(Icon {
            id: icon.id,
            bytes,
            name,
            changed: icon.changed,
        }),
        Err(fail) => {
            drop(bytes);
            Err(fail)
        }
    }
}

/// Copies icons to where none are. A refusal means that memory ran out.
fn push_icons(alloc: Global, made: &mut List<Icon>, icons: &[LentIcon]) -> Result<(), NoMemory>
    requires { made.old ≡ [] }
    ensures { OnOk result (made.new ≡ icons.now) }
{
    for icon in icons {
        let one = made_icon(alloc, icon.icon())?;
        put_last(made, one)?;
    }
    Ok(())
}

/// Copies custom items to where none are. A refusal means that memory ran out.
fn push_items(alloc: Global, made: &mut List<Item>, items: &[LentItem]) -> Result<(), NoMemory>
    requires { made.old ≡ [] }
    ensures { OnOk result (made.new ≡ items.now) }
{
    for item in items {
        let one = copy_item(alloc, item.item())?;
        put_last(made, one)?;
    }
    Ok(())
}

/// What a document says of itself, copied but for its texts, icons and custom items.
fn bare_meta(alloc: Global, meta: &ShapeMeta) -> Meta
    ensures { result ≡ record (meta_of meta.now) {
      name = record meta.now.name.now { value = [] };
      description = record meta.now.description.now { value = [] };
      user = record meta.now.user.now { value = [] };
      settings = record meta.now.settings.now {
        value = record meta.now.settings.now.value { color = [] };
      };
      icons = [];
      items = [];
    } }
{
    Meta {
        name: bare_text(alloc, meta.name),
        description: bare_text(alloc, meta.description),
        user: bare_text(alloc, meta.user),
        bin: made_bin(meta.bin),
        templates: made_id(meta.templates),
        settings: bare_settings(alloc, meta.settings),
        icons: List::new(alloc),
        items: List::new(alloc),
        view: meta.view,
    }
}

/// Copies the texts, the icons and the custom items of what a document says of itself to where the
/// rest is copied. A refusal means that memory ran out.
fn fill_meta(alloc: Global, made: &mut Meta, meta: &ShapeMeta) -> Result<(), NoMemory>
    requires { made.old ≡ record (meta_of meta.now) {
      name = record meta.now.name.now { value = [] };
      description = record meta.now.description.now { value = [] };
      user = record meta.now.user.now { value = [] };
      settings = record meta.now.settings.now {
        value = record meta.now.settings.now.value { color = [] };
      };
      icons = [];
      items = [];
    } }
    ensures { OnOk result (made.new ≡ meta_of meta.now) }
{
    set_text(alloc, &mut made.name.value, &meta.name.value)?;
    set_text(alloc, &mut made.description.value, &meta.description.value)?;
    set_text(alloc, &mut made.user.value, &meta.user.value)?;
    set_text(
        alloc,
        &mut made.settings.value.color,
        &meta.settings.value.color,
    )?;
    push_icons(alloc, &mut made.icons, meta.icons.as_slice())?;
    push_items(alloc, &mut made.items, meta.items.as_slice())?;
    Ok(())
}

/// What a document says of itself, copied.
pub fn made_meta(alloc: Global, meta: &ShapeMeta) -> Result<Meta, NoMemory>
    ensures { IfOk result (λ m. m ≡ meta_of meta.now) }
{
    let mut made = bare_meta(alloc, meta);
    match fill_meta(alloc, &mut made, meta) {
        Ok(()) => Ok(made),
        Err(fail) => {
            drop(made);
            Err(fail)
        }
    }
}
