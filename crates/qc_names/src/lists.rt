//! Lists that grow, of any items. They are generic since a call of `Vec` at the type of an item that holds a struct
//! of ours with a model gets no proof today.
ghost use Rattle.std.specs.Prelude.{◌≡◌, ◌<◌, ◌++◌, ◌∷◌, [], OnOk, OnErr, option_to_list, reverse, vec_len, vec_capacity};

use std::alloc::AllocError;

/// Adds an item at the end.
pub fn append<T: Copy>(items: &mut Vec<T>, item: T) -> Result<(), AllocError>
    ensures ok { OnOk result (items.new.items ≡ items.old.items ++ item ∷ []) }
    ensures err { OnErr result (items.new.items ≡ items.old.items) }
{
    items.push(item)?;
    Ok(())
}

/// Adds an item that is moved at the end. For one that is copied a call of this gets no proof either.
pub fn append_moved<T: Drop>(items: &mut Vec<T>, item: T) -> Result<(), AllocError>
    ensures ok { OnOk result (items.new.items ≡ items.old.items ++ item ∷ []) }
    ensures err { OnErr result (items.new.items ≡ items.old.items) }
{
    items.push(item)?;
    Ok(())
}

/// Adds an item at the end, where there is one.
pub fn append_some<T: Copy>(items: &mut Vec<T>, item: Option<T>) -> Result<(), AllocError>
    ensures { OnOk result (items.new.items ≡ items.old.items ++ option_to_list item) }
{
    if let Some(item) = item {
        items.push(item)?;
    }
    Ok(())
}

/// Makes room for one more item.
pub fn make_room<T: Copy>(items: &mut Vec<T>) -> Result<(), AllocError>
    ensures same { items.new.items ≡ items.old.items }
    ensures room { OnOk result (vec_len items.new < vec_capacity items.new) }
{
    items.reserve(1)
}

/// Adds an item into the room that there is.
pub fn add<T: Copy>(items: &mut Vec<T>, item: T)
    requires { vec_len items.old < vec_capacity items.old }
    ensures { items.new.items ≡ items.old.items ++ item ∷ [] }
{
    items.push_reserved(item);
}

/// Turns the items round.
pub fn turn<T: Copy>(items: &mut Vec<T>)
    ensures { items.new.items ≡ reverse items.old.items }
{
    items.reverse();
}
